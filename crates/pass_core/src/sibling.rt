//! What an update may take over from that of a sibling.

ghost use Rattle.std.specs.Prelude.{◌≡◌, ⊤};

use std::alloc::AllocError;

/// What the update of a sibling gave earlier in the same pass: an update over the same that the parent hands down may take it
/// over.
pub struct Sibling<'a, E, D> {
    /// Its number.
    pub element: u32,
    /// Its entry before the update.
    pub before: &'a E,
    /// Its new entry.
    pub after: &'a E,
    /// What its update hands down; `None` of a leaf of the plan.
    pub down: Option<&'a D>,
}

impl<E, D> Copy for Sibling<'_, E, D> {}

impl<E, D> Clone for Sibling<'_, E, D> {
    ghost is_clone = { λ s t. t ≡ s };

    ghost is_infallible = { λ _. ⊤ };

    fn clone(&self) -> Result<Self, AllocError> {
        Ok(*self)
    }
}
