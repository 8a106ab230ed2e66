//! Floor: time. Knows one animation at one moment, and no keyframes, no tree and no thread.
//!
//! The phase and the progress of an animation from its timing, after Web Animations Level 1, its pausing and running
//! again, and its elapsed time when it is cancelled. `progress_at(&animation, t)` is a half in iteration 2 at the end of an
//! animation that plays two and a half times and fills forwards.
#![tactic(auto)]

mod active;
mod directions;
mod durations;
mod iterations;
pub mod laws;
mod phases;
mod playing;
mod progress;

pub use durations::active_duration;
pub use phases::phase_at;
pub use playing::{cancel_elapsed, local_time, pause_or_run};
pub use progress::{Progress, progress_at};
