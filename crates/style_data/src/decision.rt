//! What a style change event leaves of a property's transitions.

use crate::gone::Gone;
use crate::transition::{Completed, Running};

/// What a style change event leaves of one property's transitions (CSS Transitions 1, section 3): the running
/// one, the completed one, and the one that it cancelled.
#[derive(Drop)]
pub struct Decision {
    pub running: Option<Running>,
    pub completed: Option<Completed>,
    pub gone: Option<Gone>,
}
