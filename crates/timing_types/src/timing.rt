//! The items of the timing lists of animations (CSS Animations 1, "Declaring Animations").

use fix_num::Fix;

/// An item of `animation-iteration-count`: a number in millionths, or without end.
#[derive(Clone, Copy, Debug, PartialEq, Eq)]
pub enum Count {
    Times(Fix),
    Infinite,
}

/// An item of `animation-direction`.
#[derive(Clone, Copy, Debug, PartialEq, Eq)]
pub enum Direction {
    Normal,
    Reverse,
    Alternate,
    AlternateReverse,
}

/// An item of `animation-fill-mode`. `Nothing` is `none`.
#[derive(Clone, Copy, Debug, PartialEq, Eq)]
pub enum Fill {
    Nothing,
    Forwards,
    Backwards,
    Both,
}

/// An item of `animation-play-state`.
#[derive(Clone, Copy, Debug, PartialEq, Eq)]
pub enum PlayState {
    Running,
    Paused,
}
