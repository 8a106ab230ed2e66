//! Selectors by what their elements must have.
ghost use Rattle.std.specs.Prelude.{◌≡◌, IfOk, OnOk};
ghost use Rattle.sheet_types.specs.Candidates.{ById, ByClass, ByType, ForAny, key_of};
ghost use Rattle.sheet_types.specs.Index.{IsIndexOf, IsPut, IsPutRule, IsSound, IsEmptyIndex, held};

use crate::name_index::NameIndex;
use crate::rule::Rule;
use crate::selector_place::SelectorPlace;
use selectors_mini::{Compound, Selector};
use std::alloc::{AllocError, Global};

/// The places of a sheet's selectors, each under what its last compound names: the first id, else the first class,
/// else the type, else under nothing.
#[derive(Drop)]
pub struct SelectorIndex {
    ids: NameIndex,
    classes: NameIndex,
    types: NameIndex,
    others: Vec<SelectorPlace>,
}

impl SelectorIndex {
    fn empty(alloc: Global) -> SelectorIndex
        ensures sound { IsSound result }
        ensures value { IsEmptyIndex result }
    {
        SelectorIndex {
            ids: NameIndex::empty(alloc),
            classes: NameIndex::empty(alloc),
            types: NameIndex::empty(alloc),
            others: Vec::new(alloc),
        }
    }

    /// The selectors of the rules.
    pub(crate) fn of(alloc: Global, rules: &[Rule]) -> Result<SelectorIndex, AllocError>
        ensures sound { IfOk result IsSound }
        ensures value { IfOk result (λ index. IsIndexOf index rules.now) }
    {
        let mut index = SelectorIndex::empty(alloc);
        for (at, rule) in rules.iter().enumerate() {
            index.put_rule(alloc, at, rule.selectors.as_slice())?;
        }
        Ok(index)
    }

    /// Puts the selectors of the rule that stands at the index.
    fn put_rule(
        &mut self,
        alloc: Global,
        rule: usize,
        selectors: &[Selector],
    ) -> Result<(), AllocError>
        requires { IsSound self.old }
        ensures sound { OnOk result (IsSound self.new) }
        ensures value { OnOk result (IsPutRule self.old rule selectors.now self.new) }
    {
        for (at, selector) in selectors.iter().enumerate() {
            let place = SelectorPlace { rule, selector: at };
            self.put(alloc, selector.subject(), place)?;
        }
        Ok(())
    }

    /// Puts the place of a selector with this last compound.
    fn put(
        &mut self,
        alloc: Global,
        subject: &Compound,
        place: SelectorPlace,
    ) -> Result<(), AllocError>
        requires { IsSound self.old }
        ensures sound { OnOk result (IsSound self.new) }
        ensures value { OnOk result (IsPut self.old (key_of subject.now) place self.new) }
    {
        if let [id, ..] = subject.ids() {
            return self.ids.put(alloc, id.as_bytes(), place);
        }
        if let [class, ..] = subject.classes() {
            return self.classes.put(alloc, class.as_bytes(), place);
        }
        match subject.tag() {
            Some(tag) => self.types.put(alloc, tag, place),
            None => {
                self.others.push(place)?;
                Ok(())
            }
        }
    }

    pub(crate) fn by_id(&self, id: &[u8]) -> &[SelectorPlace]
        requires { IsSound self.now }
        ensures { result.now ≡ held self.now (ById id.now) }
    {
        self.ids.get(id)
    }

    pub(crate) fn by_class(&self, class: &[u8]) -> &[SelectorPlace]
        requires { IsSound self.now }
        ensures { result.now ≡ held self.now (ByClass class.now) }
    {
        self.classes.get(class)
    }

    pub(crate) fn by_type(&self, tag: &[u8]) -> &[SelectorPlace]
        requires { IsSound self.now }
        ensures { result.now ≡ held self.now (ByType tag.now) }
    {
        self.types.get(tag)
    }

    pub(crate) fn for_any(&self) -> &[SelectorPlace]
        ensures { result.now ≡ held self.now ForAny }
    {
        self.others.as_slice()
    }
}
