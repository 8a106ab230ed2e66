//! The limits of a line's numbers.

/// The greatest number of a node.
pub const MAX_NODE: u32 = 1_000_000_000;

/// The greatest number of a sheet.
pub const MAX_SHEET: u32 = 16;
