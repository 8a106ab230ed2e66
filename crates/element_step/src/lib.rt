//! Floor: element and frame. Knows one element's entry at one style change event, what its parent hands down, the document and
//! its sheets, and no thread.
//!
//! The update of an element at a style change event: `update_element(alloc, &work, n, &entry, &down, leaf)?` is its new entry and
//! what it hands down, unless it is a leaf, where `work` is the event of a document; `update_entry` is the same over declarations
//! and animations.
#![tactic(auto)]

mod alike;
mod downs;
mod laws;
mod quiet;
mod rendering;
mod restyle;
mod settling;
mod update;
mod work;

pub use laws::{places_show_in_effects_alone, transitions_want_rendering};
pub use quiet::{QuietDown, QuietWork};
pub use rendering::is_rendered;
pub use update::{ElementUpdated, update_entry};
pub use work::{ElementWork, settled, update_element};
