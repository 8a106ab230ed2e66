//! The limits of timing lists and of easings.

/// The most items of a timing list.
pub const MAX_ITEMS: usize = 32;

/// The most steps of a step easing.
pub const MAX_STEPS: u32 = 1_000_000;

/// The greatest size of an ordinate of a curve's control point, in thousandths.
pub const MAX_ORDINATE: u32 = 10_000;
