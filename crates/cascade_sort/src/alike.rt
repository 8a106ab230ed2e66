//! Siblings that nothing tells apart.
ghost use Rattle.std.specs.Prelude.{◌≡◌, ◌↔◌, IsTrue};
ghost use Rattle.std.specs.Cmp.Lexicographic.{pointwise};
ghost use Rattle.std.specs.Option.{option_eq};
ghost use Rattle.std.specs.Str.{bytes_eq};
ghost use Rattle.cascade_sort.specs.Alike.{AreSiblingsAlike, are_alike, are_siblings_alike};

use doc_tree::{Element, Tree};

/// Whether two elements are siblings alike: nothing tells them apart but their numbers and their places. False where
/// one isn't in the tree. Takes no memory.
pub fn are_alike(tree: &Tree, n: u32, m: u32) -> bool
    ensures value { result ≡ are_siblings_alike n m tree.now.elements }
    // What this is, without saying how it is tested.
    ensures alike { IsTrue result ↔ AreSiblingsAlike n m tree.now.elements }
{
    let Some(element) = tree.element(n) else {
        return false;
    };
    let Some(other) = tree.element(m) else {
        return false;
    };
    have_same_parts(element, other)
}

/// Whether the elements have one parent and the same texts. What most often differs comes first, and texts of different
/// lengths cost no look at their bytes.
fn have_same_parts(element: &Element, other: &Element) -> bool
    ensures { result ≡ are_alike element.now other.now }
{
    if element.parent() != other.parent() {
        return false;
    }
    if !have_same_classes(element, other) {
        return false;
    }
    if element.tag() != other.tag() {
        return false;
    }
    if element.style() != other.style() {
        return false;
    }
    have_same_id(element, other)
}

fn have_same_classes(element: &Element, other: &Element) -> bool
    ensures { result ≡ pointwise bytes_eq element.now.classes other.now.classes }
{
    element.classes() == other.classes()
}

fn have_same_id(element: &Element, other: &Element) -> bool
    ensures { result ≡ option_eq bytes_eq element.now.id other.now.id }
{
    match (element.id(), other.id()) {
        (None, None) => true,
        (Some(id), Some(own)) => id == own,
        _ => false,
    }
}
