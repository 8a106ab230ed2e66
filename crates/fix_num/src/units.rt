//! The units that whole numbers are counted in.

/// A number, a length in pixels, a percent or an angle in degrees, in millionths.
#[derive(Clone, Copy, Debug, PartialEq, Eq)]
pub struct Fix(pub i64);

impl Fix {
    /// 1, a million millionths.
    pub const ONE: Fix = Fix(1_000_000);
}

/// A time in microseconds.
#[derive(Clone, Copy, Debug, PartialEq, Eq, PartialOrd, Ord)]
pub struct Micros(pub i64);

/// The output of an easing, or a reversing shortening factor, in billionths.
#[derive(Clone, Copy, Debug, PartialEq, Eq)]
pub struct Bill(pub i64);

impl Bill {
    /// 1, a billion billionths.
    pub const ONE: Bill = Bill(1_000_000_000);
}
