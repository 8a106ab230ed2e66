//! Floor: numbers and bytes. Knows no CSS: only decimals as text, their reading and printing, and the one
//! rounding that every computation with them uses.
//!
//! `read_decimal("1.5", 6, limit)` is `Ok(1_500_000)`, and `rnd(-3, 2)` is -1.
#![tactic(auto)]

mod clamping;
mod decimal;
mod integer;
pub mod laws;
pub mod limits;
mod parts;
mod print;
mod rounded;
mod rounding;
mod units;

pub use clamping::clamp;
pub use decimal::{NumFault, read_decimal, read_decimal_bytes};
pub use integer::has_no_point;
pub use print::print_fix;
pub use rounded::{read_rounded, read_rounded_bytes};
pub use rounding::{rnd, rounded_product};
pub use units::{Bill, Fix, Micros};
