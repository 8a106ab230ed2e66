//! Removal.

ghost use Rattle.std.specs.Prelude.{◌≡◌, ◌-◌, ◌/◌, ◌%◌, ◌^◌, ◌<◌, ◌≤◌, ◌==◌, ◌∷◌, ◌++◌, [], length, map, nat_lt, if◌then◌else◌, IsTrue, IfOk, OnOk, OnErr, slice_index_or, true};
ghost use Rattle.std.specs.List.{list_all};
ghost use Rattle.doc_tree.specs.Element.{numbers_of, subtree_of};
ghost use Rattle.doc_tree.specs.Change.{without};
ghost use Rattle.doc_tree.specs.Fault.{Answers, fault_of_change};
ghost use Rattle.doc_tree.specs.Marks.{cleared, document_of, is_live, kept_of, marks_until, slots_below, slots_of, without_slot, AreMarksOfTree};

use crate::fault::TreeFault;
use crate::node::Node;
use crate::nodes::Nodes;
use crate::slots::{closing, opened_by, opening, slot_of};
use std::alloc::{AllocError, Global};

/// The slot, and then those that are opened from the mark `first` on before the mark `last`, in at most `most` steps.
fn slots_until(
    alloc: Global,
    next: &[u32],
    slot: usize,
    first: usize,
    last: usize,
    most: usize,
) -> Result<Vec<u32>, AllocError>
    requires slot { slot < 2 ^ 32 }
    requires first { first < length next.now }
    requires links { IsTrue (list_all (λ m. nat_lt m (length next.now)) next.now) }
    requires small { length next.now ≤ 2 ^ 32 }
    ensures { IfOk result (λ slots. slots.items ≡ slot ∷ slots_of (marks_until next.now last most first)) }
{
    let mut slots = Vec::new(alloc);
    slots.push(slot as u32)?;
    let mut mark = first;
    for _step in 0..most {
        if mark == last {
            break;
        }
        push_opened(&mut slots, mark)?;
        mark = next[mark] as usize;
    }
    Ok(slots)
}

/// Appends the slot that the mark opens, if it opens one.
fn push_opened(slots: &mut Vec<u32>, mark: usize) -> Result<(), AllocError>
    requires { mark < 2 ^ 32 }
    ensures { OnOk result (slots.new.items ≡ slots.old.items ++ (if mark % 2 == 0 then (mark / 2 - 1) ∷ [] else [])) }
{
    if mark % 2 == 0 {
        slots.push(opened_by(mark) as u32)?;
    }
    Ok(())
}

/// The numbers of these slots.
fn numbers_at(alloc: Global, keys: &[u32], slots: &[u32]) -> Result<Vec<u32>, AllocError>
    requires { IsTrue (list_all (λ s. nat_lt s (length keys.now)) slots.now) }
    ensures { IfOk result (λ numbers. numbers.items ≡ map (λ s. slice_index_or keys.now s 0) slots.now) }
{
    let mut numbers = Vec::new(alloc);
    for slot in slots {
        numbers.push(keys[*slot as usize])?;
    }
    Ok(numbers)
}

/// Empties these slots.
fn clear(nodes: &mut Vec<Option<Node>>, slots: &[u32])
    requires { IsTrue (list_all (λ s. nat_lt s (length nodes.old.items)) slots.now) }
    ensures { nodes.new.items ≡ cleared nodes.old.items slots.now }
{
    for slot in slots {
        nodes[*slot as usize] = None;
    }
}

/// Takes the marks of the slot, and those between them, out of the list.
fn cut(nodes: &mut Nodes, slot: usize, slots: &[u32])
    requires sound { AreMarksOfTree (kept_of nodes.old) }
    requires within { slot < length nodes.old.slots.items }
    requires live { is_live nodes.old.slots.items slot ≡ true }
    requires slots { slots.now ≡ slots_below (kept_of nodes.old) slot }
    ensures { kept_of nodes.new ≡ without_slot (kept_of nodes.old) slot }
{
    let before = nodes.previous[opening(slot)];
    let after = nodes.next[closing(slot)];
    nodes.next[before as usize] = after;
    nodes.previous[after as usize] = before;
    clear(&mut nodes.slots, slots);
    nodes.len -= slots.len();
    nodes.fresh = false;
}

/// The slots of the element in this slot and of those below it, in tree order.
fn slots_from(alloc: Global, nodes: &Nodes, slot: usize) -> Result<Vec<u32>, AllocError>
    requires sound { AreMarksOfTree (kept_of nodes.now) }
    requires within { slot < length nodes.now.slots.items }
    ensures { IfOk result (λ slots. slots.items ≡ slots_below (kept_of nodes.now) slot) }
{
    slots_until(
        alloc,
        &nodes.next,
        slot,
        nodes.next[opening(slot)] as usize,
        closing(slot),
        2 * nodes.len,
    )
}

/// Removes element `n` and all below it; answers their numbers in tree order.
pub fn remove_nodes(alloc: Global, nodes: &mut Nodes, n: u32) -> Result<Vec<u32>, TreeFault>
    requires { AreMarksOfTree (kept_of nodes.old) }
    ensures sound { AreMarksOfTree (kept_of nodes.new) }
    ensures fault { Answers (fault_of_change (document_of (kept_of nodes.old)).elements n) result }
    ensures numbers { IfOk result (λ numbers. numbers.items ≡ numbers_of (subtree_of (document_of (kept_of nodes.old)).elements n)) }
    ensures ok { OnOk result (document_of (kept_of nodes.new) ≡ without (document_of (kept_of nodes.old)) n) }
    ensures err { OnErr result (kept_of nodes.new ≡ kept_of nodes.old) }
{
    let Some(slot) = slot_of(nodes, n) else {
        return Err(TreeFault::UnknownNode);
    };
    let Ok(slots) = slots_from(alloc, nodes, slot) else {
        return Err(TreeFault::NoMemory);
    };
    let Ok(numbers) = numbers_at(alloc, nodes.used.as_slice(), &slots) else {
        return Err(TreeFault::NoMemory);
    };
    cut(nodes, slot, &slots);
    Ok(numbers)
}
