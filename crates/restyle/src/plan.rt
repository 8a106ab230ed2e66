//! The plan of a pass over a whole tree.

ghost use Rattle.std.specs.Prelude.{◌≡◌, [], ◌∷◌, ◌++◌, IfOk, IfSome, IsTrue, OnOk, slice_get};
ghost use Rattle.doc_tree.specs.Shape.{IsTree};
ghost use Rattle.pass_core.specs.Plans.{is_proper};
ghost use Rattle.restyle.specs.TreePlans.{element_place, places_of};

use doc_tree::{Element, Tree, laws};
use pass_core::{Place, Plan};
use std::alloc::{AllocError, Global};

/// The plan of a pass over the whole tree: its elements in tree order. One walk with three look-ups an element, where
/// the tree is numbered.
pub fn plan_of(alloc: Global, tree: &Tree) -> Result<Plan, AllocError>
    ensures value { IfOk result (λ plan. plan.places.items ≡ places_of tree.now) }
    ensures proper { IfOk result (λ plan. IsTrue (is_proper plan.places.items)) }
    ensures tree { IsTree tree.now }
{
    laws::ancestors_go_by_parents();
    laws::numbers_differ();
    laws::parents_stand_before();
    laws::subtrees_stand_together();
    let mut places = Vec::new(alloc);
    for at in 0..tree.len() {
        push_place(&mut places, tree, at)?;
    }
    Ok(Plan { places })
}

/// Appends the place of the element that stands there in tree order, from 0.
fn push_place(places: &mut Vec<Place>, tree: &Tree, at: usize) -> Result<(), AllocError>
    ensures { OnOk result (IfSome (slice_get tree.now.elements at) (λ e. places.new.items ≡ places.old.items ++ element_place tree.now e ∷ [])) }
{
    if let Some(element) = tree.at(at) {
        places.push(element_place(tree, element))?;
    }
    Ok(())
}

/// The place of an element of the tree.
fn element_place(tree: &Tree, element: &Element) -> Place
    ensures { result ≡ element_place tree.now element.now }
{
    Place {
        element: element.number(),
        parent: parent_place(tree, element),
        end: tree.subtree_end(element.number()).unwrap_or(0),
    }
}

/// The place of the parent of an element, where it has one.
fn parent_place(tree: &Tree, element: &Element) -> Option<u32>
    ensures { result ≡ (element_place tree.now element.now).parent }
{
    match element.parent() {
        None => None,
        Some(parent) => tree.position(parent),
    }
}
