//! Floor: document. Knows what an element declares and inherits, and no tree, no selector and no time.
//!
//! The cascade of one element: `compute(alloc, &declared, &NoSampling, &[], None)?` is the computed style of a root
//! element with these winning declarations.
#![tactic(auto)]

mod laws;
mod style;
mod values;

pub use laws::{
    animations_count_by_their_values, computed_styles_are_valid, declarations_are_apart,
    inherits_by_the_table, transitions_take_precedence,
};
pub use style::compute;
