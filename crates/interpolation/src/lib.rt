//! Floor: values. Knows no element and no time: whether two computed values of a property can be interpolated,
//! and the value at an easing's output between them.
//!
//! Halfway from `10px` to `50%`, `between(p, a, b, Bill(500_000_000))`, is `calc(25% + 5px)`.
#![tactic(auto)]

mod color;
mod interpolable;
pub mod laws;
mod number;
mod values;

pub use interpolable::{able, same};
pub use values::between;
