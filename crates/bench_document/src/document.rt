//! Documents drawn at random.
ghost use Rattle.std.specs.Prelude.{◌<◌, ◌≤◌};

use doc_tree::{Tree, TreeFault};
use std::alloc::Global;

/// How many elements a document has.
pub const ELEMENTS: u32 = 65_536;

/// The next number of a linear congruential generator, below another.
pub fn draw(state: &mut u64, below: u32) -> u32
    requires { 0 < below }
    ensures { result < below }
{
    *state = state
        .wrapping_mul(6_364_136_223_846_793_005)
        .wrapping_add(1_442_695_040_888_963_407);
    (*state >> 33) as u32 % below
}

/// A document whose elements lie below random ones before them.
pub fn grown(alloc: Global, state: &mut u64) -> Result<Tree, TreeFault> {
    let Ok(mut tree) = Tree::new(alloc) else {
        return Err(TreeFault::NoMemory);
    };
    tree.add(1, None, "div")?;
    for n in 1..ELEMENTS {
        tree.add(n + 1, Some(draw(state, n) + 1), "p")?;
    }
    Ok(tree)
}

/// Gives each element two of 26 classes.
pub fn give_classes(tree: &mut Tree, state: &mut u64) -> Result<(), TreeFault> {
    for n in 0..ELEMENTS {
        let first = class(draw(state, 26));
        let second = class(draw(state, 26));
        tree.set_class(n + 1, &[first, second])?;
    }
    Ok(())
}

/// A class of one letter.
pub fn class(n: u32) -> &'static str
    requires { n < 26 }
{
    let letters = "abcdefghijklmnopqrstuvwxyz";
    let from = n as usize;
    letters.get(from..from + 1).unwrap_or("a")
}
