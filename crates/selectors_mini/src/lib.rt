//! Floor: document. Selectors in the profile of Selectors Level 4 that has types, classes, ids, and the child and
//! descendant combinators. Knows the tree and the tokens, and no declaration and no time.
//!
//! `read_selectors(alloc, text, tokens)?` gives the selectors of a list, `specificity(&selector)` counts what one
//! names.
#![tactic(auto)]

mod climb;
mod combinator;
mod compound;
mod ident;
mod laws;
mod matching;
mod part;
mod reader;
mod reading;
mod represent;
mod selector;

pub use combinator::Combinator;
pub use compound::Compound;
pub use ident::Ident;
pub use laws::{
    matching_is_exact, more_classes_lose_nothing, one_selector_list, parts_in_any_order,
    selector_reading_is_exact, specificity_adds_up,
};
pub use matching::{matches, matches_any};
pub use reading::{SelectorFault, read_selectors};
pub use selector::{MAX_COMPOUNDS, Selector, specificity};
