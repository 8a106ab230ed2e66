//! The moment of a style change event.

use fix_num::Micros;

/// When a style change event is, and of which element (CSS Transitions 1, section 3).
#[derive(Clone, Copy)]
pub struct StyleChangeEvent {
    /// In microseconds.
    pub time: Micros,
    /// The number of the frame, which is the generation of transitions that it starts.
    pub generation: u32,
    /// The tree position of the element.
    pub position: u32,
}
