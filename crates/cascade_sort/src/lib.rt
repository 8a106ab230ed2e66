//! Floor: document. The cascade's winners: which declarations of sheets and of its style attribute win on an element.
//! Knows no computed value and no time.
//!
//! `declared(alloc, &sheets, &tree, n)?` are the winning declarations of element `n`.
#![tactic(auto)]

mod alike;
mod finding;
mod laws;
mod precedence;
mod slot;
mod strongest;
mod winners;

pub use alike::are_alike;
pub use laws::{
    candidates_in_any_order, declarations_in_any_order, precedences_are_in_order,
    precedences_differ, siblings_alike_declare_alike, the_greatest_specificity_counts,
    the_test_of_siblings_is_exact, unmatched_rules_change_nothing, winners_are_exact,
};
pub use winners::{declared, declared_like};
