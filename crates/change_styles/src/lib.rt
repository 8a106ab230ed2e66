//! Floor: time. Knows one element's entry at one moment and what its parent hands down, and no tree and no thread.
//!
//! The three styles of an element at a style change event, after CSS Transitions Level 1, section 3:
//! `before_style(alloc, &entry, t, parent, &old)?`, `after_style(alloc, &declared, parent, &old)?` and
//! `now_style(alloc, &declared, running, t, parent, &new)?`.
#![tactic(auto)]

mod laws;
mod styles;

pub use laws::{
    five_values_stand_for_styles, nothing_changes, transitions_lie_on_top,
    without_running_transitions,
};
pub use styles::{after_style, before_style, handed_down, keep_font_size, now_style, with_running};
