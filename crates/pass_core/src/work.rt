//! Work on a tree.

ghost use Rattle.std.specs.Prelude.{◌≡◌, IfOk, IfSome};
ghost use Rattle.pass_core.specs.Work.{asked, IsSibling, Meaning};

use crate::sibling::Sibling;
use crate::step::Step;
use std::alloc::{AllocError, Global};

/// The update of one element, from its entry and from what its parent's update hands down.
pub trait TreeWork: Send + Sync + Drop {
    /// What is kept of an element.
    type Entry: Send + Sync + Drop;

    /// What an update hands down to the element's children.
    type Down: Copy + Send + Sync;

    /// What the work does.
    ghost meaning: { Self → Meaning Self.Entry Self.Down };

    /// The outcome of the element's update; at a leaf of the plan without what it hands down, which nobody asks for. It is the
    /// same whether a sibling's is handed in or not.
    fn update<'a>(
        &self,
        alloc: Global,
        element: u32,
        entry: &'a Self::Entry,
        down: &'a Self::Down,
        sibling: Option<Sibling<'a, Self::Entry, Self::Down>>,
        leaf: bool,
    ) -> Result<Step<Self::Entry, Option<Self::Down>>, AllocError>
        requires { IfSome sibling (IsSibling (meaning self.now) down.now) }
        ensures { IfOk result (λ step. step ≡ asked leaf ((meaning self.now).outcome element entry.now down.now)) };

    /// What is handed down to an element whose parent isn't in the plan. Takes no memory.
    fn top(&self) -> Self::Down
        ensures { result ≡ (meaning self.now).top };
}
