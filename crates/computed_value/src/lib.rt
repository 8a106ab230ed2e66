//! Floor: values. Knows no element and no time: computed values of declared ones, from the font sizes that their
//! units are of.
//!
//! `absolute(PropertyId::Width, &d, parent, own, root)` makes `2em` in an element of font size 10px a length of
//! 20px.
#![tactic(auto)]

mod computed;

pub use computed::absolute;
