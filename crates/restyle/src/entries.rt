//! Entries by the numbers of their elements.

ghost use Rattle.std.specs.Prelude.{◌≡◌, ◌∷◌, ◌++◌, [], IfOk, IfSome, IsSomeAnd, IsTrue, None, OnOk, map, option_copied, slice_get, slice_set, unwrap_or};
ghost use Rattle.std.specs.Option.{option_and_then};
ghost use Rattle.doc_tree.specs.Element.{numbers_of};
ghost use Rattle.doc_tree.specs.Shape.{IsTree};
ghost use Rattle.pass_core.specs.Passes.{value_for};
ghost use Rattle.restyle.specs.Entries.{IsAligned, IsLeft, LeavesOthers, are_apart, entry_left};
ghost use Rattle.style_data.specs.Entries.{fresh_entry};
ghost use Rattle.restyle.specs.Worlds.{entries_of};

use doc_tree::Tree;
use indexmap::IndexSet;
use std::alloc::{AllocError, Global};
use std::marker::Model;
use style_data::Entry;

/// Entries, each with the number of its element, and an index of these numbers. Contracts see the list.
#[derive(Drop)]
pub(crate) struct Entries {
    numbers: IndexSet<u32>,
    list: Vec<(u32, Entry)>,
}

impl Model for Entries {
    ghost use Rattle.std.specs.Prelude.{◌≡◌, ℕ, List, map};
    ghost use Rattle.style_data.specs.Entries.{EntryParts};

    ghost Value = { List (ℕ × EntryParts) };

    ghost view = { λ e. e.list.items };

    ghost invariant = { λ e. e.numbers.keys ≡ map (λ x. x.0) e.list.items };
}

impl Entries {
    /// No entry.
    pub(crate) fn new(alloc: Global) -> Entries
        ensures { result ≡ [] }
    {
        Entries {
            numbers: IndexSet::new(alloc),
            list: Vec::new(alloc),
        }
    }

    /// The entry of element `n`; `None` where it has none.
    pub(crate) fn find(&self, n: u32) -> Option<&Entry>
        ensures { option_copied result ≡ value_for self.now n }
    {
        match self.numbers.get_index_of(&n) {
            None => None,
            Some(at) => Some(&self.list[at].1),
        }
    }

    /// The same entries with an index of their numbers, which are these.
    pub(crate) fn with_numbers(numbers: IndexSet<u32>, list: Vec<(u32, Entry)>) -> Entries
        requires { numbers.keys ≡ map (λ x. x.0) list.items }
        ensures { result ≡ list.items }
    {
        Entries { numbers, list }
    }

    /// The index of the numbers, and the list. Takes no memory.
    pub(crate) fn into_parts(self) -> (IndexSet<u32>, Vec<(u32, Entry)>)
        ensures list { self ≡ result.1.items }
        ensures numbers { result.0.keys ≡ map (λ x. x.0) result.1.items }
    {
        let Entries { numbers, list } = self;
        (numbers, list)
    }

    /// The entries of the tree's elements in tree order. Takes no memory for an entry that there is, and none at all where they stand in this order
    /// already.
    pub(crate) fn in_tree_order(self, alloc: Global, tree: &Tree) -> Result<Entries, AllocError>
        ensures { IfOk result (λ e. e ≡ entries_of tree.now self) }
    {
        let _ = tree.len();
        if are_those_of(self.list.as_slice(), tree) {
            return Ok(self);
        }
        let list = reordered(alloc, tree, Taken::from_entries(alloc, self)?)?;
        let numbers = numbers_in(alloc, list.as_slice())?;
        Ok(Entries { numbers, list })
    }
}

/// Whether these are the entries of the tree's elements, in tree order.
fn are_those_of(list: &[(u32, Entry)], tree: &Tree) -> bool
    ensures yes { IsTrue result → map (λ x. x.0) list.now ≡ numbers_of tree.now.elements }
{
    if list.len() != tree.len() {
        return false;
    }
    for at in 0..tree.len() {
        if !is_at(tree, at, list[at].0) {
            return false;
        }
    }
    true
}

/// Whether element `n` stands there in tree order, from 0.
fn is_at(tree: &Tree, at: usize, n: u32) -> bool
    ensures { IsTrue result → IsSomeAnd (slice_get tree.now.elements at) (λ e. e.number ≡ n) }
{
    match tree.at(at) {
        None => false,
        Some(element) => element.number() == n,
    }
}

/// Entries that are taken out one by one.
#[derive(Drop)]
struct Taken {
    numbers: IndexSet<u32>,
    /// The entries that are left, by the indices of their numbers.
    left: Vec<Option<Entry>>,
}

impl Taken {
    fn from_entries(alloc: Global, entries: Entries) -> Result<Taken, AllocError>
        ensures left { IfOk result (λ taken. IsLeft taken entries) }
        ensures aligned { IfOk result IsAligned }
    {
        let (numbers, list) = entries.into_parts();
        let mut left = Vec::with_capacity(alloc, list.len())?;
        for (_, entry) in list {
            left.push(Some(entry))?;
        }
        Ok(Taken { numbers, left })
    }

    /// Takes the entry of element `n`, where it is left.
    fn take(&mut self, n: u32) -> Option<Entry>
        requires { IsAligned self.old }
        ensures aligned { IsAligned self.new }
        ensures value { result ≡ entry_left self.old n }
        ensures others { LeavesOthers self.old n self.new }
    {
        match self.numbers.get_index_of(&n) {
            None => None,
            Some(at) => take_at(&mut self.left, at),
        }
    }
}

fn take_at(left: &mut Vec<Option<Entry>>, at: usize) -> Option<Entry>
    ensures value { result ≡ option_and_then (λ entry. entry) (slice_get left.old.items at) }
    ensures others { left.new.items ≡ slice_set left.old.items at None }
{
    match left.get_mut(at) {
        None => None,
        Some(entry) => entry.take(),
    }
}

/// The entries of the tree's elements in tree order, each taken from those that are left.
fn reordered(alloc: Global, tree: &Tree, mut taken: Taken) -> Result<Vec<(u32, Entry)>, AllocError>
    requires { IsAligned taken }
    ensures value { IfOk result (λ list. list.items ≡ map (λ e. (e.number, unwrap_or (entry_left taken e.number) fresh_entry)) tree.now.elements) }
    ensures tree { IsTree tree.now }
{
    let mut list = Vec::with_capacity(alloc, tree.len())?;
    for at in 0..tree.len() {
        push_entry(alloc, &mut list, tree, at, &mut taken)?;
    }
    Ok(list)
}

/// Appends the entry of the element that stands there in tree order, from 0.
fn push_entry(
    alloc: Global,
    list: &mut Vec<(u32, Entry)>,
    tree: &Tree,
    at: usize,
    taken: &mut Taken,
) -> Result<(), AllocError>
    requires { IsAligned taken.old }
    ensures aligned { IsAligned taken.new }
    ensures list { OnOk result (IfSome (slice_get tree.now.elements at) (λ e. list.new.items ≡ list.old.items ++ (e.number, unwrap_or (entry_left taken.old e.number) fresh_entry) ∷ [])) }
    ensures others { OnOk result (IfSome (slice_get tree.now.elements at) (λ e. LeavesOthers taken.old e.number taken.new)) }
{
    if let Some(element) = tree.at(at) {
        let entry = match taken.take(element.number()) {
            Some(entry) => entry,
            None => Entry::fresh(alloc)?,
        };
        list.push((element.number(), entry))?;
    }
    Ok(())
}

/// An index of the numbers of the entries.
fn numbers_in(alloc: Global, list: &[(u32, Entry)]) -> Result<IndexSet<u32>, AllocError>
    requires { IsTrue (are_apart (map (λ x. x.0) list.now)) }
    ensures { IfOk result (λ numbers. numbers.keys ≡ map (λ x. x.0) list.now) }
{
    let mut numbers = IndexSet::with_capacity(alloc, list.len())?;
    for entry in list {
        let Ok(_) = numbers.insert(entry.0) else {
            return Err(AllocError);
        };
    }
    Ok(numbers)
}
