//! Which elements a selector matches.

ghost use Rattle.std.specs.Prelude.{◌≡◌, ◌↔◌, ◌<◌, ◌≤◌, Any, IsTrue, length};
ghost use Rattle.doc_tree.specs.Element.{inclusive_ancestors, is_in};
ghost use Rattle.selectors_mini.specs.Climbing.{fits_above};
ghost use Rattle.selectors_mini.specs.Compounds.{IsShort};
ghost use Rattle.selectors_mini.specs.Matching.{Matches, matches_of};

use crate::climb::{Climb, climb_from};
use crate::compound::Compound;
use crate::selector::Selector;
use doc_tree::Tree;

/// Whether the selector matches element `n`. Takes no memory, and tries no compound twice on one element.
pub fn matches(s: &Selector, tree: &Tree, n: u32) -> bool
    requires { IsTrue (is_in n tree.now.elements) }
    ensures matches { IsTrue result ↔ Matches s.now (inclusive_ancestors tree.now.elements n) }
    // The same by the function that computes it.
    ensures value { result ≡ matches_of s.now (inclusive_ancestors tree.now.elements n) }
{
    fit(s.compounds(), tree, n)
}

/// Whether an element of the tree is matched by one of the selectors. Takes no memory.
pub fn matches_any(selectors: &[Selector], tree: &Tree, n: u32) -> bool
    requires { IsTrue (is_in n tree.now.elements) }
    ensures { IsTrue result ↔ Any (λ s. Matches s (inclusive_ancestors tree.now.elements n)) selectors.now }
{
    selectors.iter().any(|s| matches(s, tree, n))
}

/// Whether the compounds fit from element `n` on.
fn fit(compounds: &[Compound], tree: &Tree, n: u32) -> bool
    requires short { IsShort compounds.now }
    requires is_in { IsTrue (is_in n tree.now.elements) }
    ensures { result ≡ matches_of compounds.now (inclusive_ancestors tree.now.elements n) }
{
    match climb_from(compounds, compounds.len(), tree, n) {
        Climb::Fitted => true,
        Climb::Left { left, at } => fits_anywhere(compounds, left, tree, at),
        Climb::NotHere => false,
        Climb::Nowhere => false,
    }
}

/// Whether the first `from` compounds fit from element `n` or from one above it. Each run of compounds that stand
/// directly below one another is fitted at the first element from which it fits: the most room is left then.
fn fits_anywhere(compounds: &[Compound], from: usize, tree: &Tree, n: u32) -> bool
    requires some { 0 < from }
    requires within { from ≤ length compounds.now }
    requires is_in { IsTrue (is_in n tree.now.elements) }
    ensures { result ≡ fits_above compounds.now from tree.now.elements n }
{
    let mut left = from;
    let mut at = n;
    while let Some(element) = tree.element(at) {
        match climb_from(compounds, left, tree, at) {
            Climb::Fitted => return true,
            Climb::Left {
                left: others,
                at: above,
            } => {
                left = others;
                at = above;
            }
            Climb::NotHere => match element.parent() {
                None => return false,
                Some(parent) => at = parent,
            },
            Climb::Nowhere => return false,
        }
    }
    false
}
