//! What a caller may watch of a run.

/// Watches the updates of a run. It has no say in any answer.
pub trait Gate: Sync {}

/// A gate that does nothing.
#[derive(Clone, Copy, Debug)]
pub struct IdleGate;

impl Gate for IdleGate {}
