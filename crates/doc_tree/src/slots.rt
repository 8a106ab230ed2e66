//! Slots and marks.

ghost use Rattle.std.specs.Prelude.{◌≡◌, ◌+◌, ◌-◌, ◌*◌, ◌/◌, ◌<◌, IfOk, IfSome, IfNone, IsTrue, false};
ghost use Rattle.doc_tree.specs.Element.{is_in};
ghost use Rattle.doc_tree.specs.Marks.{document_of, empty_kept, kept_of, IsNodeOf, IsSlotOf, AreMarksOfTree};

use crate::limits::MAX_SLOTS;
use crate::node::Node;
use crate::nodes::{END, Nodes, START};
use indexmap::IndexSet;
use std::alloc::{AllocError, Global};

/// The mark that opens the slot.
pub fn opening(slot: usize) -> usize
    requires { slot < MAX_SLOTS }
    ensures { result ≡ 2 * slot + 2 }
{
    2 * slot + 2
}

/// The mark that closes the slot.
pub fn closing(slot: usize) -> usize
    requires { slot < MAX_SLOTS }
    ensures { result ≡ 2 * slot + 3 }
{
    2 * slot + 3
}

/// The slot that this mark opens. It is asked of opening marks alone, which `START` is none of.
pub fn opened_by(mark: usize) -> usize
    ensures { result ≡ mark / 2 - 1 }
{
    (mark / 2).saturating_sub(1)
}

/// What the empty tree keeps.
pub fn empty_nodes(alloc: Global) -> Result<Nodes, AllocError>
    ensures { IfOk result (λ nodes. kept_of nodes ≡ empty_kept) }
{
    Ok(Nodes {
        used: IndexSet::new(alloc),
        slots: Vec::new(alloc),
        next: Vec::from_slice(alloc, &[END as u32, END as u32])?,
        previous: Vec::from_slice(alloc, &[START as u32, START as u32])?,
        ranks: Vec::from_slice(alloc, &[0, 0])?,
        order: Vec::new(alloc),
        len: 0,
        fresh: true,
    })
}

/// The slot of element `n`, if it is in the tree. Documents mostly number their elements one after another, so that the
/// number tells where its slot is likely to be.
pub fn slot_of(nodes: &Nodes, n: u32) -> Option<usize>
    requires { AreMarksOfTree (kept_of nodes.now) }
    ensures found { IfSome result (IsSlotOf (kept_of nodes.now) n) }
    ensures absent { IfNone result (is_in n (document_of (kept_of nodes.now)).elements ≡ false) }
{
    let likely = (n as usize).saturating_sub(1);
    if is_in_slot(nodes, likely, n) {
        return Some(likely);
    }
    indexed_slot_of(nodes, n)
}

/// Whether element `n` is in this slot.
fn is_in_slot(nodes: &Nodes, slot: usize, n: u32) -> bool
    requires { AreMarksOfTree (kept_of nodes.now) }
    ensures { IsTrue result → IsSlotOf (kept_of nodes.now) n slot }
{
    if slot >= nodes.slots.len() {
        return false;
    }
    match &nodes.slots[slot] {
        None => false,
        Some(node) => node.element.number() == n,
    }
}

/// The slot of element `n`, by the index of the numbers used.
fn indexed_slot_of(nodes: &Nodes, n: u32) -> Option<usize>
    requires { AreMarksOfTree (kept_of nodes.now) }
    ensures found { IfSome result (IsSlotOf (kept_of nodes.now) n) }
    ensures absent { IfNone result (is_in n (document_of (kept_of nodes.now)).elements ≡ false) }
{
    let Some(slot) = nodes.used.get_index_of(&n) else {
        return None;
    };
    match &nodes.slots[slot] {
        None => None,
        Some(_) => Some(slot),
    }
}

/// The node of element `n`, if it is in the tree.
pub fn node_of(nodes: &Nodes, n: u32) -> Option<&Node>
    requires { AreMarksOfTree (kept_of nodes.now) }
    ensures found { IfSome result (λ x. IsNodeOf (document_of (kept_of nodes.now)) n x.now) }
    ensures absent { IfNone result (is_in n (document_of (kept_of nodes.now)).elements ≡ false) }
{
    match slot_of(nodes, n) {
        None => None,
        Some(slot) => nodes.slots[slot].as_ref(),
    }
}
