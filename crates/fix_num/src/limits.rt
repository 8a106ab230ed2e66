//! The limits of numbers, times and texts.

/// The greatest size of a number, a length, a percent or an angle: a million, in millionths.
pub const MAX_NUMBER: u64 = 1_000_000_000_000;

/// The greatest size of a time: a thousand million seconds, in microseconds.
pub const MAX_TIME: u64 = 1_000_000_000_000_000;

/// The greatest size of an integer.
pub const MAX_INTEGER: u32 = 2_147_483_647;

/// The most bytes of a text, and of an input.
pub const MAX_BYTES: usize = 67_108_864;
