//! The winning declarations of an element.

ghost use Rattle.std.specs.Prelude.{◌≡◌, ◌↔◌, ℕ, ◌<◌, [], ◌∷◌, IsTrue, IfOk, IfSome, OnErr, OnOk, length, option_copied, slice_index_or, take, unwrap_or};
ghost use Rattle.std.specs.Bool.{OnFalse, OnTrue};
ghost use Rattle.timing_types.specs.TimingLists.{initial_animations};
ghost use Rattle.value_types.specs.ListValues.{IsListValueFor};
ghost use Rattle.value_types.specs.TransitionLists.{initial_transitions};
ghost use Rattle.value_types.specs.Validity.{IsDeclaredFor};
ghost use Rattle.computed_style.specs.ByProperty.{kept_for};
ghost use Rattle.computed_style.specs.ComputedStyles.{animation_lists_of, transition_lists_of};
ghost use Rattle.computed_style.specs.Winners.{AreDeclarations, AreWinnersFor, is_declared, kept_for_list, list_winner_of, list_winners_of, no_declarations, no_winners, place_of, winners_of, with_declaration, with_list_declaration};

use crate::shared_winners::SharedWinners;
use crate::winners::Winners;
use std::alloc::{AllocError, Global};
use std::marker::Model;
use timing_types::{AnimationLists, Same};
use value_types::{Declared, ListName, ListValue, PropertyId, Shared, TransitionLists};

/// Winning declarations as they are collected: begin with none, put those that win, and finish. Contracts see
/// them as the winners of each property and of each timing list.
#[derive(Drop)]
pub struct Winning {
    /// Whether a property is declared, by its number.
    declares: [bool; 24],
    important: Vec<(PropertyId, Declared)>,
    normal: Vec<(PropertyId, Declared)>,
    important_lists: Vec<(ListName, ListValue)>,
    normal_lists: Vec<(ListName, ListValue)>,
}

impl Model for Winning {
    ghost use Rattle.computed_style.specs.Winners.{Declarations};

    ghost Value = { Declarations };

    ghost use Rattle.computed_style.specs.KeptDeclarations.{AreKept, declarations_in};

    ghost view = { λ w. declarations_in w.important.items w.normal.items w.important_lists.items w.normal_lists.items };

    ghost invariant = { λ w. AreKept w.declares w.important.items w.normal.items w.important_lists.items w.normal_lists.items };
}

impl Winning {
    /// No declaration wins. Takes no memory.
    pub fn new(alloc: Global) -> Winning
        ensures { result ≡ no_declarations }
    {
        Winning {
            declares: [false; 24],
            important: Vec::new(alloc),
            normal: Vec::new(alloc),
            important_lists: Vec::new(alloc),
            normal_lists: Vec::new(alloc),
        }
    }

    /// Makes this declaration win among the important or the normal ones of the property. Where memory runs out
    /// the winners stay as they were.
    pub fn put(
        &mut self,
        p: PropertyId,
        important: bool,
        declared: Declared,
    ) -> Result<(), AllocError>
        requires { IsDeclaredFor p declared }
        ensures ok { OnOk result (self.new ≡ with_declaration self.old p important declared) }
        ensures err { OnErr result (self.new ≡ self.old) }
    {
        let number = p.number() as usize;
        if important {
            put_first(&mut self.important, (p, declared))?;
            self.declares[number] = true;
        } else {
            put_first(&mut self.normal, (p, declared))?;
            self.declares[number] = true;
        }
        Ok(())
    }

    /// Makes this declaration win among the important or the normal ones of the timing list. Where memory runs
    /// out the winners stay as they were.
    pub fn put_list(
        &mut self,
        name: ListName,
        important: bool,
        value: ListValue,
    ) -> Result<(), AllocError>
        requires { IsListValueFor name value }
        ensures ok { OnOk result (self.new ≡ with_list_declaration self.old name important value) }
        ensures err { OnErr result (self.new ≡ self.old) }
    {
        if important {
            put_first(&mut self.important_lists, (name, value))
        } else {
            put_first(&mut self.normal_lists, (name, value))
        }
    }

    /// The declarations, to be shared, and the timing lists that they give. Takes no memory where there is none.
    pub fn finish(mut self, alloc: Global) -> Result<DeclaredSet, AllocError>
        ensures { IfOk result (λ d. d ≡ self) }
    {
        if self.is_empty() {
            return Ok(DeclaredSet::empty());
        }
        // They are kept as long as the element keeps its declarations.
        self.important.shrink_to_fit();
        self.normal.shrink_to_fit();
        let winners = SharedWinners::new(alloc, self)?;
        Ok(DeclaredSet {
            set: Some(Shared::new(alloc, winners)?),
        })
    }

    /// The same as `finish`, but that `last` is shared where it was collected alike: that takes no memory.
    pub fn finish_like(self, alloc: Global, last: &DeclaredSet) -> Result<DeclaredSet, AllocError>
        ensures { IfOk result (λ d. d ≡ self) }
    {
        if last.keeps_like(&self) {
            return last.copy();
        }
        self.finish(alloc)
    }

    /// Whether the other keeps the same declarations in the same order.
    fn is_kept_like(&self, other: &Winning) -> bool
        ensures { OnTrue result (self.now ≡ other.now) }
    {
        are_declared_alike(self.important.as_slice(), other.important.as_slice())
            && are_declared_alike(self.normal.as_slice(), other.normal.as_slice())
            && are_lists_declared_alike(
                self.important_lists.as_slice(),
                other.important_lists.as_slice(),
            )
            && are_lists_declared_alike(self.normal_lists.as_slice(), other.normal_lists.as_slice())
    }

    fn is_empty(&self) -> bool
        ensures { OnTrue result (self.now ≡ no_declarations) }
    {
        if !has_none(&self.important) {
            return false;
        }
        if !has_none(&self.normal) {
            return false;
        }
        if !has_none(&self.important_lists) {
            return false;
        }
        has_none(&self.normal_lists)
    }

    /// Whether something is declared of the property.
    pub(crate) fn declares(&self, p: PropertyId) -> bool
        ensures value { result ≡ is_declared (winners_of self.now p) }
        ensures none { OnFalse result (winners_of self.now p ≡ no_winners) }
    {
        self.declares[p.number() as usize]
    }

    pub(crate) fn winners(&self, p: PropertyId) -> Winners
        ensures value { result ≡ winners_of self.now p }
        ensures bounds { AreDeclarations self.now }
    {
        Winners {
            important: declared_for(self.important.as_slice(), p),
            normal: declared_for(self.normal.as_slice(), p),
        }
    }

    pub(crate) fn list(&self, name: ListName, important: bool) -> Option<&ListValue>
        ensures value { option_copied result ≡ list_winner_of self.now name important }
        ensures bounds { IfSome result (λ v. IsListValueFor name v.now) }
        ensures all { AreDeclarations self.now }
    {
        if important {
            list_for(self.important_lists.as_slice(), name)
        } else {
            list_for(self.normal_lists.as_slice(), name)
        }
    }
}

/// Whether these are the same declarations of properties, in the same order.
fn are_declared_alike(a: &[(PropertyId, Declared)], b: &[(PropertyId, Declared)]) -> bool
    ensures { OnTrue result (a.now ≡ b.now) }
{
    if a.len() != b.len() {
        return false;
    }
    for (i, item) in a.iter().enumerate() {
        if item.0 != b[i].0 || !item.1.is_same(&b[i].1) {
            return false;
        }
    }
    true
}

/// Whether these are the same declarations of timing lists, in the same order.
fn are_lists_declared_alike(a: &[(ListName, ListValue)], b: &[(ListName, ListValue)]) -> bool
    ensures { OnTrue result (a.now ≡ b.now) }
{
    if a.len() != b.len() {
        return false;
    }
    for (i, item) in a.iter().enumerate() {
        if item.0 != b[i].0 || !item.1.is_same(&b[i].1) {
            return false;
        }
    }
    true
}

/// The winning declarations of an element, of each property and of each timing list (CSS Cascade 5, section
/// 6), shared and never changed. What wins is a declared value of its property, or of its list. Where nothing
/// is declared it takes no memory.
#[derive(Drop)]
pub struct DeclaredSet {
    /// None where nothing is declared.
    set: Option<Shared<SharedWinners>>,
}

impl Model for DeclaredSet {
    ghost use Rattle.std.specs.Prelude.{unwrap_or};
    ghost use Rattle.computed_style.specs.Winners.{Declarations, no_declarations};

    ghost Value = { Declarations };

    ghost view = { λ d. unwrap_or d.set no_declarations };
}

impl DeclaredSet {
    /// That of an element without declarations. Takes no memory.
    pub fn empty() -> DeclaredSet
        ensures { result ≡ no_declarations }
    {
        DeclaredSet { set: None }
    }

    /// The winners of a property.
    pub fn winners(&self, p: PropertyId) -> Winners
        ensures value { result ≡ winners_of self.now p }
        ensures bounds { AreWinnersFor p result }
        ensures all { AreDeclarations self.now }
    {
        match &self.set {
            None => Winners {
                important: None,
                normal: None,
            },
            Some(set) => set.get().winning().winners(p),
        }
    }

    /// The winner of a timing list among the important or the normal declarations; `None` where none of them
    /// declares it.
    pub fn list(&self, name: ListName, important: bool) -> Option<&ListValue>
        ensures value { option_copied result ≡ list_winner_of self.now name important }
        ensures bounds { IfSome result (λ v. IsListValueFor name v.now) }
        ensures all { AreDeclarations self.now }
    {
        match &self.set {
            None => None,
            Some(set) => set.get().winning().list(name, important),
        }
    }

    /// Whether something is declared of the property.
    pub fn declares(&self, p: PropertyId) -> bool
        ensures value { result ≡ is_declared (winners_of self.now p) }
        ensures none { OnFalse result (winners_of self.now p ≡ no_winners) }
    {
        match &self.set {
            None => false,
            Some(set) => set.get().winning().declares(p),
        }
    }

    /// The lists that time transitions; `None` where none of them is declared. Takes no memory.
    pub fn transition_lists(&self) -> Result<Option<Shared<TransitionLists>>, AllocError>
        ensures { IfOk result (λ lists. unwrap_or lists initial_transitions ≡ transition_lists_of self.now) }
    {
        match &self.set {
            None => Ok(None),
            Some(set) => set.get().transition_lists(),
        }
    }

    /// The lists that time animations; `None` where none of them is declared. Takes no memory.
    pub fn animation_lists(&self) -> Result<Option<Shared<AnimationLists>>, AllocError>
        ensures { IfOk result (λ lists. unwrap_or lists initial_animations ≡ animation_lists_of self.now) }
    {
        match &self.set {
            None => Ok(None),
            Some(set) => set.get().animation_lists(),
        }
    }

    /// True only where both have the same declarations: where both were collected in the same order, as those of a kind
    /// of elements mostly are. Takes much less time than `is_same` where they differ.
    pub fn is_kept_like(&self, other: &DeclaredSet) -> bool
        ensures { OnTrue result (self.now ≡ other.now) }
    {
        match (&self.set, &other.set) {
            (None, None) => true,
            (Some(a), Some(b)) => a.get().winning().is_kept_like(b.get().winning()),
            _ => false,
        }
    }

    /// Whether these were collected alike.
    fn keeps_like(&self, winning: &Winning) -> bool
        ensures { OnTrue result (self.now ≡ winning.now) }
    {
        match &self.set {
            None => winning.is_empty(),
            Some(set) => set.get().winning().is_kept_like(winning),
        }
    }

    /// The same declarations again. Takes no memory.
    pub fn copy(&self) -> Result<DeclaredSet, AllocError>
        ensures { IfOk result (λ d. d ≡ self.now) }
    {
        match &self.set {
            None => Ok(DeclaredSet::empty()),
            Some(set) => Ok(DeclaredSet {
                set: Some(set.copy()?),
            }),
        }
    }
}

/// Puts an item before the others.
fn put_first<T: Drop>(list: &mut Vec<T>, item: T) -> Result<(), AllocError>
    ensures ok { OnOk result (list.new.items ≡ item ∷ list.old.items) }
    ensures err { OnErr result (list.new.items ≡ list.old.items) }
{
    list.insert(0, item)?;
    Ok(())
}

fn has_none<T>(list: &Vec<T>) -> bool
    ensures { OnTrue result (list.now.items ≡ []) }
{
    list.is_empty()
}

impl Same for DeclaredSet {
    fn is_same(&self, other: &DeclaredSet) -> bool {
        self.is_kept_like(other)
            || (have_same_properties(self, other) && have_same_lists(self, other))
    }
}

fn have_same_properties(a: &DeclaredSet, b: &DeclaredSet) -> bool
    ensures { IsTrue result ↔ (a.now.properties ≡ b.now.properties) }
{
    for p in &PropertyId::ALL {
        if !have_same_winners(a, b, *p) {
            return false;
        }
    }
    true
}

fn have_same_winners(a: &DeclaredSet, b: &DeclaredSet, p: PropertyId) -> bool
    ensures same { IsTrue result ↔ (winners_of a.now p ≡ winners_of b.now p) }
    ensures all { AreDeclarations a.now × AreDeclarations b.now }
{
    a.winners(p).is_same(&b.winners(p))
}

fn have_same_lists(a: &DeclaredSet, b: &DeclaredSet) -> bool
    ensures { IsTrue result ↔ (a.now.lists ≡ b.now.lists) }
{
    for name in &ListName::ALL {
        if !have_same_list(a, b, *name) {
            return false;
        }
    }
    true
}

fn have_same_list(a: &DeclaredSet, b: &DeclaredSet, name: ListName) -> bool
    ensures same { IsTrue result ↔ (list_winners_of a.now name ≡ list_winners_of b.now name) }
    ensures all { AreDeclarations a.now × AreDeclarations b.now }
{
    is_same_list(a.list(name, true), b.list(name, true))
        && is_same_list(a.list(name, false), b.list(name, false))
}

fn is_same_list(a: Option<&ListValue>, b: Option<&ListValue>) -> bool
    ensures { IsTrue result ↔ (option_copied a.entry ≡ option_copied b.entry) }
{
    match (a, b) {
        (None, None) => true,
        (Some(a), Some(b)) => a.is_same(b),
        _ => false,
    }
}

fn declared_for(declared: &[(PropertyId, Declared)], p: PropertyId) -> Option<Declared>
    ensures { result ≡ kept_for p declared.now }
{
    declared
        .iter()
        .find(|item| item.0.number() == p.number())
        .map(|item| item.1)
}

fn list_for(declared: &[(ListName, ListValue)], name: ListName) -> Option<&ListValue>
    ensures { option_copied result ≡ kept_for_list name declared.now }
{
    declared
        .iter()
        .find(|item| place_of(item.0) == place_of(name))
        .map(|item| &item.1)
}

/// The place of a timing list among the twelve.
fn place_of(name: ListName) -> usize
    ensures { result ≡ place_of name }
{
    name as usize
}
