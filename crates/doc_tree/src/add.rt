//! New elements.

ghost use Rattle.std.specs.Prelude.{◌≡◌, ◌+◌, ◌*◌, ◌<◌, ◌≤◌, nat_eq, false, true, length, is_none, IfOk, IfSome, IfNone, OnOk, OnErr, MatchOption};
ghost use Rattle.std.specs.List.{list_any};
ghost use Rattle.doc_tree.specs.Element.{is_in};
ghost use Rattle.doc_tree.specs.Change.{new_element, IsAdded, IsInserted};
ghost use Rattle.doc_tree.specs.Fault.{Answers, fault_at_depth, fault_of_add, fault_of_insert, has_parent};
ghost use Rattle.doc_tree.specs.Marks.{depth_at, document_of, element_at, has, is_live, kept_of, with_node, HasRoom, IsPlaceBefore, IsPlaceBelow, IsSized, AreMarksOfTree};

use crate::element::Element;
use crate::fault::TreeFault;
use crate::limits::{MAX_DEPTH, MAX_ELEMENTS, MAX_SLOTS};
use crate::node::Node;
use crate::nodes::{END, Nodes};
use crate::slots::{closing, opening, slot_of};
use std::alloc::{AllocError, Global};

/// Where a new element goes: before which mark, below which parent, and how deep.
#[derive(Clone, Copy)]
pub struct Place {
    pub mark: usize,
    pub parent: Option<u32>,
    pub depth: u32,
}

/// The place of a last child of the parent; `None` where one is named that isn't in the tree.
fn place_below(nodes: &Nodes, parent: Option<u32>) -> Option<Place>
    requires { AreMarksOfTree (kept_of nodes.now) }
    ensures place { IfSome result (λ place. IsPlaceBelow (kept_of nodes.now) parent place.mark place.parent place.depth) }
    ensures absent { IfNone result (has_parent parent (document_of (kept_of nodes.now)) ≡ false) }
{
    let Some(p) = parent else {
        return Some(Place {
            mark: END,
            parent: None,
            depth: 1,
        });
    };
    match slot_of(nodes, p) {
        None => None,
        Some(slot) => Some(Place {
            mark: closing(slot),
            parent: Some(p),
            depth: depth_in(nodes, slot) + 1,
        }),
    }
}

/// The place directly before the sibling; `None` where it isn't in the tree.
fn place_before(nodes: &Nodes, sibling: u32) -> Option<Place>
    requires { AreMarksOfTree (kept_of nodes.now) }
    ensures place { IfSome result (λ place. IsPlaceBefore (kept_of nodes.now) sibling place.mark place.parent place.depth) }
    ensures absent { IfNone result (is_in sibling (document_of (kept_of nodes.now)).elements ≡ false) }
{
    match slot_of(nodes, sibling) {
        None => None,
        Some(slot) => Some(Place {
            mark: opening(slot),
            parent: parent_in(nodes, slot),
            depth: depth_in(nodes, slot),
        }),
    }
}

/// How deep the element in the slot lies.
fn depth_in(nodes: &Nodes, slot: usize) -> u32
    requires sound { AreMarksOfTree (kept_of nodes.now) }
    requires within { slot < length nodes.now.slots.items }
    requires live { is_live nodes.now.slots.items slot ≡ true }
    ensures depth { result ≡ depth_at nodes.now.slots.items slot }
    ensures small { result ≤ MAX_DEPTH }
{
    match &nodes.slots[slot] {
        None => 0,
        Some(node) => node.depth,
    }
}

/// The parent of the element in the slot.
fn parent_in(nodes: &Nodes, slot: usize) -> Option<u32>
    requires { slot < length nodes.now.slots.items }
    ensures { result ≡ (element_at nodes.now.slots.items slot).parent }
{
    match &nodes.slots[slot] {
        None => None,
        Some(node) => node.element.parent(),
    }
}

/// Whether the number was used before.
fn is_used(nodes: &Nodes, n: u32) -> bool
    requires { AreMarksOfTree (kept_of nodes.now) }
    ensures { result ≡ has n nodes.now.used.keys }
{
    nodes.used.contains(&n)
}

/// The first fault of a new element `n` at this depth.
fn fault_at(nodes: &Nodes, n: u32, depth: u32, is_root: bool) -> Option<TreeFault>
    requires { AreMarksOfTree (kept_of nodes.now) }
    ensures { result ≡ fault_at_depth (document_of (kept_of nodes.now)) n depth is_root }
{
    if is_used(nodes, n) {
        return Some(TreeFault::NodeTaken);
    }
    if nodes.len + 1 > MAX_ELEMENTS {
        return Some(TreeFault::BoundNodes);
    }
    if depth > MAX_DEPTH {
        return Some(TreeFault::BoundDepth);
    }
    if is_root && nodes.len > 0 {
        return Some(TreeFault::BoundRoot);
    }
    None
}

/// Makes room for one more node.
fn make_room(nodes: &mut Nodes) -> Result<(), AllocError>
    ensures same { kept_of nodes.new ≡ kept_of nodes.old }
    ensures room { OnOk result (HasRoom nodes.new) }
{
    nodes.used.reserve(1)?;
    nodes.slots.reserve(1)?;
    nodes.next.reserve(2)?;
    nodes.previous.reserve(2)?;
    nodes.ranks.reserve(2)?;
    nodes.order.reserve(1)?;
    Ok(())
}

/// Puts the node of a new number into a slot of its own, with its marks directly before `mark`.
fn put(nodes: &mut Nodes, n: u32, node: Node, mark: usize)
    requires room { HasRoom nodes.old }
    requires sized { IsSized (kept_of nodes.old) }
    requires few { length nodes.old.slots.items < MAX_SLOTS }
    requires within { mark < length nodes.old.previous.items }
    requires unused { list_any (nat_eq n) nodes.old.used.keys ≡ false }
    requires small { nodes.old.len < MAX_ELEMENTS }
    ensures { kept_of nodes.new ≡ with_node (kept_of nodes.old) n node mark }
{
    let slot = nodes.slots.len();
    let before = nodes.previous[mark];
    nodes.used.insert(n).unwrap();
    nodes.slots.push(Some(node)).unwrap();
    nodes.next.push(closing(slot) as u32).unwrap();
    nodes.next.push(mark as u32).unwrap();
    nodes.previous.push(before).unwrap();
    nodes.previous.push(opening(slot) as u32).unwrap();
    nodes.next[before as usize] = opening(slot) as u32;
    nodes.previous[mark] = closing(slot) as u32;
    nodes.ranks.push(0).unwrap();
    nodes.ranks.push(0).unwrap();
    nodes.order.push(0).unwrap();
    nodes.len += 1;
    nodes.fresh = false;
}

/// Adds element `n` at the place.
fn add_at(
    alloc: Global,
    nodes: &mut Nodes,
    n: u32,
    place: Place,
    tag: &str,
) -> Result<(), TreeFault>
    requires sound { AreMarksOfTree (kept_of nodes.old) }
    requires within { place.mark < length nodes.old.previous.items }
    ensures fault { Answers (fault_at_depth (document_of (kept_of nodes.old)) n place.depth (is_none place.parent)) result }
    ensures ok { OnOk result (kept_of nodes.new ≡ with_node (kept_of nodes.old) n (record { element = new_element n place.parent tag.now; depth = place.depth }) place.mark) }
    ensures few { OnOk result (length nodes.old.slots.items < MAX_SLOTS) }
    ensures err { OnErr result (kept_of nodes.new ≡ kept_of nodes.old) }
{
    if let Some(fault) = fault_at(nodes, n, place.depth, place.parent.is_none()) {
        return Err(fault);
    }
    if nodes.slots.len() >= MAX_SLOTS {
        return Err(TreeFault::NoMemory);
    }
    let Ok(element) = Element::new(alloc, n, place.parent, tag) else {
        return Err(TreeFault::NoMemory);
    };
    let Ok(()) = make_room(nodes) else {
        return Err(TreeFault::NoMemory);
    };
    let node = Node {
        element,
        depth: place.depth,
    };
    put(nodes, n, node, place.mark);
    Ok(())
}

/// Adds element `n` as the last child of the parent.
pub fn add_node(
    alloc: Global,
    nodes: &mut Nodes,
    n: u32,
    parent: Option<u32>,
    tag: &str,
) -> Result<(), TreeFault>
    requires { AreMarksOfTree (kept_of nodes.old) }
    ensures sound { AreMarksOfTree (kept_of nodes.new) }
    ensures fault { Answers (fault_of_add (document_of (kept_of nodes.old)) n parent) result }
    ensures ok { OnOk result (IsAdded (document_of (kept_of nodes.old)) (document_of (kept_of nodes.new)) (new_element n parent tag.now)) }
    ensures err { OnErr result (kept_of nodes.new ≡ kept_of nodes.old) }
{
    let Some(place) = place_below(nodes, parent) else {
        return Err(TreeFault::UnknownNode);
    };
    add_at(alloc, nodes, n, place, tag)
}

/// Adds element `n` directly before the sibling.
pub fn insert_node(
    alloc: Global,
    nodes: &mut Nodes,
    n: u32,
    sibling: u32,
    tag: &str,
) -> Result<(), TreeFault>
    requires { AreMarksOfTree (kept_of nodes.old) }
    ensures sound { AreMarksOfTree (kept_of nodes.new) }
    ensures fault { Answers (fault_of_insert (document_of (kept_of nodes.old)) n sibling) result }
    ensures ok { OnOk result (IsInserted (document_of (kept_of nodes.old)) (document_of (kept_of nodes.new)) n sibling tag.now) }
    ensures err { OnErr result (kept_of nodes.new ≡ kept_of nodes.old) }
{
    let Some(place) = place_before(nodes, sibling) else {
        return Err(TreeFault::UnknownNode);
    };
    add_at(alloc, nodes, n, place, tag)
}
