//! Floor: world. Knows what may be told of a document, and no document.
//!
//! The bytes of one line of a transcript: `write_work(&mut out, 2, 5)?` appends `work 2 5` and a line feed.
#![tactic(auto)]

mod animations;
mod event;
mod field;
mod item;
pub mod laws;
mod refused;
mod transitions;
mod value;

pub use animations::{write_animation, write_gone};
pub use event::write_event;
pub use item::{Item, write_line};
pub use refused::write_refused;
pub use transitions::{write_completed, write_running};
pub use value::{write_value, write_work};
