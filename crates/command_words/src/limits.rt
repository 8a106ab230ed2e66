//! The limits of arguments.

/// The most digits that a number has.
pub const MAX_DIGITS: usize = 20;

/// The most workers that can be asked for.
pub const MAX_WORKERS: u32 = 64;
