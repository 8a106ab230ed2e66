//! Floor: document. Knows what an author's text declares, and no element and no time.
//!
//! Style sheets and style attributes: `read_style("opacity: .5")` is one declaration.
#![tactic(auto)]

mod block;
mod block_kind;
mod fault;
mod frames;
mod judge;
mod keyframes;
mod laws;
mod offsets;
mod scan;
mod sheet_reader;

pub use block_kind::BlockKind;
pub use fault::{BoundName, CssFault};
pub use laws::{
    a_sheet_or_a_fault, a_style_or_a_fault, block_reading_is_exact, later_frames_win,
    sheet_reading_is_exact, sheets_join, style_reading_is_exact,
    unknown_declarations_can_be_cut_out, values_pair, white_space_counts_once,
};
pub use sheet_reader::{read_sheet, read_style};
pub use sheet_types::{
    Declaration, DeclarationParts, KeyframesRule, Rule, SelectorPlace, Sheet, Sheets,
};
