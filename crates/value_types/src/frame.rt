//! A frame of a keyframes rule.

use crate::declared::Declared;
use crate::property::PropertyId;
use fix_num::Bill;
use timing_types::Easing;

/// What a keyframes rule gives one property at one offset (CSS Animations 1, "Keyframes").
#[derive(Clone, Copy)]
pub struct Frame {
    /// 0 to 10^9.
    pub offset: Bill,
    pub property: PropertyId,
    pub declared: Declared,
    /// The easing up to the property's next frame; none where the block names none.
    pub easing: Option<Easing>,
}
