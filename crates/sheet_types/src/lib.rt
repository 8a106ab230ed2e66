//! Floor: document. Sheets and declarations as they are kept, and which selectors of a sheet an element asks for.
//! Knows neither text nor time.
//!
//! `sheet.by_class(b"menu")` are the places of the selectors that an element of the class `menu` may match.
#![tactic(auto)]

mod declaration;
mod laws;
mod name_index;
mod rule;
mod selector_index;
mod selector_place;
mod sheet;
mod sheets;

pub use declaration::{Declaration, DeclarationParts};
pub use laws::{candidates_have_the_key, candidates_miss_none};
pub use rule::{KeyframesRule, Rule};
pub use selector_place::SelectorPlace;
pub use sheet::Sheet;
pub use sheets::Sheets;
