//! First children and next siblings.

ghost use Rattle.std.specs.Prelude.{◌≡◌, ◌-◌, ◌/◌, ◌%◌, ◌<◌, ◌==◌, length, if◌then◌else◌, slice_index_or, Some, None};
ghost use Rattle.doc_tree.specs.Children.{first_child_of, next_sibling_of};
ghost use Rattle.doc_tree.specs.Marks.{document_of, kept_of, AreMarksOfTree};

use crate::nodes::Nodes;
use crate::slots::{closing, opened_by, opening, slot_of};

/// The number of the element that the mark opens; `None` where it closes one, or is the end.
fn number_opened(nodes: &Nodes, mark: usize) -> Option<u32>
    requires { mark / 2 - 1 < length nodes.now.used.keys }
    ensures { result ≡ (if mark % 2 == 0 then Some (slice_index_or nodes.now.used.keys (mark / 2 - 1) 0) else None) }
{
    if mark % 2 == 0 {
        Some(nodes.used.as_slice()[opened_by(mark)])
    } else {
        None
    }
}

/// The number of the first child of element `n`: the mark after its opening mark opens it.
pub fn first_child_in(nodes: &Nodes, n: u32) -> Option<u32>
    requires { AreMarksOfTree (kept_of nodes.now) }
    ensures { result ≡ first_child_of n (document_of (kept_of nodes.now)).elements }
{
    match slot_of(nodes, n) {
        None => None,
        Some(slot) => number_opened(nodes, nodes.next[opening(slot)] as usize),
    }
}

/// The number of the next sibling of element `n`: the mark after its closing mark opens it.
pub fn next_sibling_in(nodes: &Nodes, n: u32) -> Option<u32>
    requires { AreMarksOfTree (kept_of nodes.now) }
    ensures { result ≡ next_sibling_of n (document_of (kept_of nodes.now)).elements }
{
    match slot_of(nodes, n) {
        None => None,
        Some(slot) => number_opened(nodes, nodes.next[closing(slot)] as usize),
    }
}
