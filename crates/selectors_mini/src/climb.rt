//! Going up from an element.

ghost use Rattle.std.specs.Prelude.{◌≡◌, ◌<◌, ◌≤◌, IsTrue, length};
ghost use Rattle.doc_tree.specs.Element.{is_in};
ghost use Rattle.selectors_mini.specs.Climbing.{ClimbTells, IsLower};

use crate::combinator::Combinator;
use crate::compound::Compound;
use crate::represent::represents;
use doc_tree::Tree;

/// Where a climb ends.
pub(crate) enum Climb {
    /// All compounds fit.
    Fitted,
    /// So many of the compounds are left, to be fitted at this element or anywhere above it.
    Left { left: usize, at: u32 },
    /// The compounds don't fit from this element on.
    NotHere,
    /// Nor from any above it: there are too few.
    Nowhere,
}

/// Goes up from element `n`, to a parent for each of the first `from` compounds, the last of them first, as long as
/// they stand directly below one another.
pub(crate) fn climb_from(compounds: &[Compound], from: usize, tree: &Tree, n: u32) -> Climb
    requires some { 0 < from }
    requires within { from ≤ length compounds.now }
    requires is_in { IsTrue (is_in n tree.now.elements) }
    ensures tells { ClimbTells compounds.now from tree.now.elements n result }
    ensures lower { IsLower from tree.now.elements n result }
{
    let mut left = from;
    let mut at = n;
    while let Some(element) = tree.element(at) {
        if !represents(&compounds[left - 1], element) {
            return Climb::NotHere;
        }
        left -= 1;
        if left == 0 {
            return Climb::Fitted;
        }
        let Some(parent) = element.parent() else {
            return Climb::Nowhere;
        };
        match compounds[left - 1].next() {
            Some(Combinator::Child) => at = parent,
            Some(Combinator::Descendant) => return Climb::Left { left, at: parent },
            None => return Climb::Nowhere,
        }
    }
    Climb::Nowhere
}
