//! Rules of a sheet.

use crate::declaration::Declaration;
use selectors_mini::Selector;
use timing_types::{Items, Name};
use value_types::{Frames, Shared};

/// A style rule (CSS Syntax 3, "qualified rule"): what its selectors match gets its declarations.
#[derive(Drop)]
pub struct Rule {
    pub selectors: Items<Selector>,
    pub declarations: Items<Declaration>,
    /// Its place among the sheet's rules, those of keyframes counted, from 0.
    pub place: u32,
}

/// A keyframes rule (CSS Animations 1, section 3).
#[derive(Drop)]
pub struct KeyframesRule {
    pub name: Name,
    /// Its frames, which the samples of animations share.
    pub frames: Shared<Frames>,
    /// Its place among the sheet's rules, from 0.
    pub place: u32,
}
