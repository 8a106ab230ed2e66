//! Floor: values. Knows no element and no time: the output of easing functions, exact in billionths, for linear
//! ones, cubic Bezier curves and steps (CSS Easing Functions Level 1).
//!
//! `output(Easing::Linear, 1, 4, false)` is `Bill(250_000_000)`.
#![tactic(auto)]

mod curve;
mod jumps;
mod laws;
mod outputs;
mod units;

pub use laws::{
    coordinates_rise, ends_at_1, keeps_unit, linear_is_exact, never_falls, one_parameter,
    starts_at_0,
};
pub use outputs::output;
