//! Floor: document. Knows what a line of a script asks for, and neither the world that it is asked of nor its time.
//!
//! `read_command(alloc, b"at 1.5")` is `Ok(Command::At(Micros(1_500)))`.
#![tactic(auto)]

mod command;
mod forms;
pub mod laws;
pub mod limits;
mod number;
mod reading;
mod refusal;
mod script_name;
mod script_text;
mod words;

pub use command::Command;
pub use reading::read_command;
pub use refusal::{ReadCommandFault, Refusal};
pub use script_name::ScriptName;
pub use script_text::ScriptText;
