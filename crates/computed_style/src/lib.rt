//! Floor: values. What an element declares and its computed style, and no element, no tree and no time.
//!
//! `Style::initial(alloc).value(p)` is the initial value of `p`; `Style::layered(alloc, &base, &given)?` is the style
//! `base` with these values in place of some of its own. Winning declarations are collected by `Winning` and kept as
//! a `DeclaredSet`. Styles and declarations are shared, and copied without memory.
#![tactic(auto)]

mod declared_set;
mod inherited;
mod laws;
mod lists;
mod same;
mod sampling;
mod shared_winners;
mod style;
mod winners;

pub use declared_set::{DeclaredSet, Winning};
pub use inherited::{Down, Inherited, InheritedValues};
pub use laws::{computed_value_by_property, initial_values_are_inherited};
pub use sampling::{NoSampling, Sampling};
pub use style::Style;
pub use value_types::Shared;
pub use winners::Winners;
