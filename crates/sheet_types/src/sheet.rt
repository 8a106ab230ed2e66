//! Sheets as they are kept.
ghost use Rattle.std.specs.Prelude.{◌≡◌, IfOk, option_copied};
ghost use Rattle.sheet_types.specs.Candidates.{ById, ByClass, ByType, ForAny, candidates_of};
ghost use Rattle.sheet_types.specs.Sheets.{keyframes_named, sheet_rules};

use crate::rule::{KeyframesRule, Rule};
use crate::selector_index::SelectorIndex;
use crate::selector_place::SelectorPlace;
use std::alloc::{AllocError, Global};
use std::marker::Model;
use value_types::Shared;

/// The rules of a sheet, and its selectors by their keys.
#[derive(Drop)]
struct KeptRules {
    rules: Vec<Rule>,
    keyframes: Vec<KeyframesRule>,
    index: SelectorIndex,
}

impl Model for KeptRules {
    ghost use Rattle.sheet_types.specs.Index.{IsIndexOf, IsSound};
    ghost use Rattle.sheet_types.specs.Sheets.{SheetRules, sheet_rules};

    ghost Value = { SheetRules };

    ghost view = { λ s. sheet_rules s.rules.items s.keyframes.items };

    ghost invariant = { λ s. IsSound s.index × IsIndexOf s.index s.rules.items };
}

/// A style sheet (CSS Syntax 3, "stylesheet"): its style rules and its keyframes rules, each with its place among
/// all of them. Contracts see it as these two lists. Its copies share them.
#[derive(Drop)]
pub struct Sheet {
    kept: Shared<KeptRules>,
}

impl Model for Sheet {
    ghost use Rattle.sheet_types.specs.Sheets.{SheetRules};

    ghost Value = { SheetRules };

    ghost view = { λ s. s.kept };
}

impl Sheet {
    /// The sheet of these rules.
    pub fn new(
        alloc: Global,
        rules: Vec<Rule>,
        keyframes: Vec<KeyframesRule>,
    ) -> Result<Sheet, AllocError>
        ensures { IfOk result (λ sheet. sheet ≡ sheet_rules rules.items keyframes.items) }
    {
        let index = SelectorIndex::of(alloc, &rules)?;
        let kept = KeptRules {
            rules,
            keyframes,
            index,
        };
        Ok(Sheet {
            kept: Shared::new(alloc, kept)?,
        })
    }

    /// Its style rules, in their order.
    pub fn rules(&self) -> &[Rule]
        ensures { result.now ≡ self.now.rules }
    {
        self.kept.get().rules.as_slice()
    }

    /// Its keyframes rules, in their order.
    pub fn keyframes(&self) -> &[KeyframesRule]
        ensures { result.now ≡ self.now.keyframes }
    {
        self.kept.get().keyframes.as_slice()
    }

    /// The last keyframes rule of the name (CSS Animations 1, section 3); `None` exactly where no rule has it.
    pub fn keyframes_named(&self, name: &[u8]) -> Option<&KeyframesRule>
        ensures { option_copied result ≡ keyframes_named name.now self.now.keyframes }
    {
        self.keyframes()
            .iter()
            .rev()
            .find(|rule| rule.name.as_bytes() == name)
    }

    /// The selectors that an element of this id asks for: those whose last compound names the id first. Takes no
    /// memory, as the three calls below.
    pub fn by_id(&self, id: &[u8]) -> &[SelectorPlace]
        ensures { result.now ≡ candidates_of (ById id.now) self.now.rules }
    {
        self.kept.get().index.by_id(id)
    }

    /// The selectors that an element of this class asks for: those whose last compound names no id, and this
    /// class first.
    pub fn by_class(&self, class: &[u8]) -> &[SelectorPlace]
        ensures { result.now ≡ candidates_of (ByClass class.now) self.now.rules }
    {
        self.kept.get().index.by_class(class)
    }

    /// The selectors that an element of this type asks for: those whose last compound names this type alone.
    pub fn by_type(&self, tag: &[u8]) -> &[SelectorPlace]
        ensures { result.now ≡ candidates_of (ByType tag.now) self.now.rules }
    {
        self.kept.get().index.by_type(tag)
    }

    /// The selectors that each element asks for: those whose last compound names nothing.
    pub fn for_any(&self) -> &[SelectorPlace]
        ensures { result.now ≡ candidates_of ForAny self.now.rules }
    {
        self.kept.get().index.for_any()
    }

    /// The same sheet. Takes no memory: it fails only where there are 2^63 copies already.
    pub fn copy(&self) -> Result<Sheet, AllocError>
        ensures { IfOk result (λ sheet. sheet ≡ self.now) }
    {
        Ok(Sheet {
            kept: self.kept.copy()?,
        })
    }
}
