//! Places in tree order.

ghost use Rattle.std.specs.Prelude.{◌≡◌, ◌+◌, ◌-◌, ◌*◌, ◌/◌, ◌%◌, ◌^◌, ◌<◌, ◌≤◌, ◌==◌, length, nat_lt, if◌then◌else◌, IsTrue, IfSome, slice_index_or, slice_set, slice_get, option_copied, option_map, None, true};
ghost use Rattle.std.specs.List.{list_all};
ghost use Rattle.doc_tree.specs.Element.{position_of, subtree_end_of};
ghost use Rattle.doc_tree.specs.Marks.{document_of, kept_of, marks_until, rank_in, slots_in, slots_of, with_order, with_ranks, AreMarksOfTree};

use crate::element::Element;
use crate::nodes::{END, Nodes, START};
use crate::slots::{closing, opened_by, opening, slot_of};

/// How many elements are opened from the mark `first` on before the mark `last`, in at most `most` steps.
fn opened_until(next: &[u32], first: usize, last: usize, most: usize) -> usize
    requires first { first < length next.now }
    requires links { IsTrue (list_all (λ m. nat_lt m (length next.now)) next.now) }
    ensures { result ≡ length (slots_of (marks_until next.now last most first)) }
{
    let mut count = 0;
    let mut mark = first;
    for _step in 0..most {
        if mark == last {
            break;
        }
        count += opened_at(mark);
        mark = next[mark] as usize;
    }
    count
}

/// How many slots the mark opens: 1 for an opening mark, else 0.
fn opened_at(mark: usize) -> usize
    ensures count { result ≡ (if mark % 2 == 0 then 1 else 0) }
    ensures small { result ≤ 1 }
{
    if mark % 2 == 0 { 1 } else { 0 }
}

/// The slot that is opened as number `place` from the mark `first` on before the mark `last`, in at most `most` steps.
fn slot_until(next: &[u32], first: usize, most: usize, place: usize) -> Option<usize>
    requires first { first < length next.now }
    requires links { IsTrue (list_all (λ m. nat_lt m (length next.now)) next.now) }
    ensures { result ≡ slice_get (slots_of (marks_until next.now 1 most first)) place }
{
    let mut left = place;
    let mut mark = first;
    for _step in 0..most {
        if mark == END {
            return None;
        }
        if mark % 2 == 0 && left == 0 {
            return Some(opened_by(mark));
        }
        left -= opened_at(mark);
        mark = next[mark] as usize;
    }
    None
}

/// Writes the rank of a mark, and its slot in order if it opens one; answers the next rank.
fn put_rank(ranks: &mut Vec<u32>, order: &mut Vec<u32>, mark: usize, rank: u32) -> u32
    requires mark { mark < length ranks.old.items }
    requires rank { mark % 2 ≡ 0 → rank < length order.old.items }
    requires small { length order.old.items < 2 ^ 32 }
    requires few { mark < 2 ^ 32 }
    ensures ranks { ranks.new.items ≡ slice_set ranks.old.items mark rank }
    ensures order { order.new.items ≡ (if mark % 2 == 0 then slice_set order.old.items rank (mark / 2 - 1) else order.old.items) }
    ensures rank { result ≡ (if mark % 2 == 0 then rank + 1 else rank) }
{
    ranks[mark] = rank;
    if mark % 2 != 0 {
        return rank;
    }
    order[rank as usize] = opened_by(mark) as u32;
    rank + 1
}

/// Writes the ranks of all marks, and the slots in tree order.
fn put_ranks(next: &[u32], ranks: &mut Vec<u32>, order: &mut Vec<u32>, first: usize, most: usize)
    requires first { first < length next.now }
    requires links { IsTrue (list_all (λ m. nat_lt m (length next.now)) next.now) }
    requires few { length next.now ≤ 2 ^ 32 }
    requires marks { length ranks.old.items ≡ length next.now }
    requires room { length (slots_of (marks_until next.now 1 most first)) ≤ length order.old.items }
    requires small { length order.old.items < 2 ^ 32 }
    ensures ranks { ranks.new.items ≡ with_ranks (marks_until next.now 1 most first) 0 ranks.old.items }
    ensures order { order.new.items ≡ with_order (marks_until next.now 1 most first) 0 order.old.items }
{
    let mut rank = 0;
    let mut mark = first;
    for _step in 0..most {
        if mark == END {
            break;
        }
        rank = put_rank(ranks, order, mark, rank);
        mark = next[mark] as usize;
    }
}

/// Counts how many elements are opened before each mark, and keeps the slots in tree order.
pub fn count_positions(nodes: &mut Nodes)
    requires { AreMarksOfTree (kept_of nodes.old) }
    ensures sound { AreMarksOfTree (kept_of nodes.new) }
    ensures document { document_of (kept_of nodes.new) ≡ document_of (kept_of nodes.old) }
    ensures fresh { nodes.new.fresh ≡ true }
{
    let first = nodes.next[START] as usize;
    let most = 2 * nodes.len;
    put_ranks(&nodes.next, &mut nodes.ranks, &mut nodes.order, first, most);
    nodes.fresh = true;
}

/// How many elements are opened before the mark.
fn rank_of(nodes: &Nodes, mark: usize) -> usize
    requires sound { AreMarksOfTree (kept_of nodes.now) }
    requires within { mark < length nodes.now.ranks.items }
    ensures { result ≡ rank_in (kept_of nodes.now) mark }
{
    if nodes.fresh {
        return nodes.ranks[mark] as usize;
    }
    opened_until(&nodes.next, nodes.next[START] as usize, mark, 2 * nodes.len)
}

/// The place of element `n` in tree order.
pub fn position_in(nodes: &Nodes, n: u32) -> Option<u32>
    requires { AreMarksOfTree (kept_of nodes.now) }
    ensures value { result ≡ position_of n (document_of (kept_of nodes.now)) }
    ensures small { IfSome result (λ at. at < length (document_of (kept_of nodes.now)).elements) }
{
    match slot_of(nodes, n) {
        None => None,
        Some(slot) => Some(rank_of(nodes, opening(slot)) as u32),
    }
}

/// The place after the subtree of element `n`.
pub fn subtree_end_in(nodes: &Nodes, n: u32) -> Option<u32>
    requires { AreMarksOfTree (kept_of nodes.now) }
    ensures { result ≡ subtree_end_of n (document_of (kept_of nodes.now)) }
{
    match slot_of(nodes, n) {
        None => None,
        Some(slot) => Some(rank_of(nodes, closing(slot)) as u32),
    }
}

/// The slot of the element at the place.
fn slot_at(nodes: &Nodes, place: usize) -> Option<usize>
    requires { AreMarksOfTree (kept_of nodes.now) }
    ensures { result ≡ slice_get (slots_in (kept_of nodes.now)) place }
{
    if !nodes.fresh {
        return slot_until(
            &nodes.next,
            nodes.next[START] as usize,
            2 * nodes.len,
            place,
        );
    }
    if place < nodes.len {
        Some(nodes.order[place] as usize)
    } else {
        None
    }
}

/// The element at the place in tree order.
pub fn element_in_order(nodes: &Nodes, place: usize) -> Option<&Element>
    requires { AreMarksOfTree (kept_of nodes.now) }
    ensures { option_copied result ≡ slice_get (document_of (kept_of nodes.now)).elements place }
{
    match slot_at(nodes, place) {
        None => None,
        Some(slot) => element_in(nodes, slot),
    }
}

/// The element in the slot.
fn element_in(nodes: &Nodes, slot: usize) -> Option<&Element>
    requires { slot < length nodes.now.slots.items }
    ensures { option_copied result ≡ option_map (λ x. x.element) (slice_index_or nodes.now.slots.items slot None) }
{
    match &nodes.slots[slot] {
        None => None,
        Some(node) => Some(&node.element),
    }
}
