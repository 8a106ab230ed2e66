//! What a world keeps.

ghost use Rattle.std.specs.Prelude.{◌≡◌, true, false, IfErr, IfOk, OnOk};
ghost use Rattle.restyle.specs.Edits.{AnswersQuestion, refusal_of_question};
ghost use Rattle.restyle.specs.States.{IsKeptState, world_of};
ghost use Rattle.restyle.specs.StyleChanges.{entry_for};
ghost use Rattle.restyle.specs.Worlds.{new_world};
ghost use Rattle.script_text.specs.declared.refusal.Refusal.{Refusal};

use crate::entries::Entries;
use crate::world_laws::worlds_stay_distinct;
use doc_tree::Tree;
use fix_num::Micros;
use indexmap::IndexSet;
use script_text::Refusal;
use sheet_types::Sheets;
use std::alloc::{AllocError, Global};
use style_data::Entry;

/// Elements that were removed together.
#[derive(Drop)]
pub(crate) struct Removed {
    /// When, in microseconds.
    pub(crate) time: Micros,
    /// Their numbers, in tree order.
    pub(crate) numbers: Vec<u32>,
}

/// The parts of a world. What removed elements ran is cancelled at the next frame, so that a removal takes no memory that depends on it.
#[derive(Drop)]
pub(crate) struct WorldState {
    pub(crate) tree: Tree,
    /// The sheets of the last frame.
    pub(crate) last_sheets: Sheets,
    pub(crate) sheets: Sheets,
    /// Of the elements at the last frame, in the tree order that they had then.
    pub(crate) entries: Entries,
    /// What was removed since the last frame.
    pub(crate) removed: Vec<Removed>,
    /// The current time in microseconds.
    pub(crate) time: Micros,
    pub(crate) frames: u32,
    /// Whether there was a frame, since which no sheet has changed, and no element been added or edited but those that are touched.
    pub(crate) quiet: bool,
    /// Their numbers.
    pub(crate) touched: IndexSet<u32>,
}

impl WorldState {
    /// No element, no sheet, time 0, no frame.
    pub(crate) fn new(alloc: Global) -> Result<WorldState, AllocError>
        ensures world { IfOk result (λ s. world_of s ≡ new_world) }
        ensures kept { IfOk result IsKeptState }
    {
        worlds_stay_distinct();
        let tree = Tree::new(alloc)?;
        Ok(WorldState {
            tree,
            last_sheets: Sheets::empty(),
            sheets: Sheets::empty(),
            entries: Entries::new(alloc),
            removed: Vec::new(alloc),
            time: Micros(0),
            frames: 0,
            quiet: false,
            touched: IndexSet::new(alloc),
        })
    }

    /// The entry of node `n`. Refused are, in this order, a node that isn't in the tree and one that no frame has styled.
    pub(crate) fn entry(&self, n: u32) -> Result<&Entry, Refusal>
        ensures value { IfOk result (λ e. e.now ≡ entry_for (world_of self.now).entries n) }
        ensures refusal { AnswersQuestion (refusal_of_question (world_of self.now) n) result }
    {
        if self.tree.contains(n) {
            match self.entries.find(n) {
                None => Err(Refusal::NoStyle),
                Some(entry) => styled_entry(entry),
            }
        } else {
            Err(Refusal::UnknownNode)
        }
    }
}

/// The entry, refused where no frame has styled it.
fn styled_entry(entry: &Entry) -> Result<&Entry, Refusal>
    ensures value { IfOk result (λ e. e.now ≡ entry.now) }
    ensures styled { OnOk result (entry.now.styled ≡ true) }
    ensures refusal { IfErr result (λ r. (entry.now.styled ≡ false) × (r ≡ Refusal.NoStyle)) }
{
    if entry.styled() {
        Ok(entry)
    } else {
        Err(Refusal::NoStyle)
    }
}
