//! Floor: values. Knows no element and no entry: how an interrupted transition is reversed, by which factor the
//! way back is shortened and when the reversing transition starts and ends.
//!
//! `shortened(Bill(250_000_000), Bill(400_000_000))` is `Bill(850_000_000)`.
#![tactic(auto)]

mod factor;
mod laws;
mod times;

pub use factor::shortened;
pub use laws::{factor_at_the_ends, full_factor_changes_nothing, never_lasts_longer};
pub use times::reversed_times;
