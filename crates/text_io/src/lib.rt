//! Floor: numbers and bytes. Knows no script and no CSS.
//!
//! Lines of the bytes that a source gives, and whole pieces written to a sink: `lines.next_line(&mut source)`, then `lines.text()`.
//!
//! A source or a sink may tell its bytes to contracts, and counts its faults, so that each error of a caller has a cause.
#![tactic(auto)]

mod buffer;
mod cut;
mod cutter;
mod fault;
pub mod laws;
mod limits;
mod lines;
mod mem_sink;
mod mem_source;
mod pieces;
mod schedule;
mod sink;
mod source;
mod std_sink;
mod std_source;

pub use fault::{Failed, LineFault, WriteFault};
pub use limits::{CARRIAGE_RETURN, LINE_FEED, MAX_INPUT, MAX_LINE};
pub use lines::{Line, Lines};
pub use mem_sink::MemSink;
pub use mem_source::MemSource;
pub use pieces::put_all;
pub use sink::Sink;
pub use source::Source;
pub use std_sink::StdSink;
pub use std_source::StdSource;
