//! Cancelled transitions and animations.

ghost use Rattle.std.specs.Prelude.{◌≡◌, IfOk};

use crate::transition::Phase;
use fix_num::Micros;
use std::alloc::{AllocError, Global};
use timing_types::Name;
use value_types::PropertyId;

/// What an event or a cancelled item is of: the property of a transition, or an animation's name.
#[derive(Drop)]
pub enum Subject {
    Property(PropertyId),
    Animation(Name),
}

impl Subject {
    /// The same subject again.
    pub fn copy(&self, alloc: Global) -> Result<Subject, AllocError>
        ensures { IfOk result (λ subject. subject ≡ self.now) }
    {
        Ok(match self {
            Subject::Property(p) => Subject::Property(*p),
            Subject::Animation(name) => Subject::Animation(name.copy(alloc)?),
        })
    }
}

/// A cancelled transition or animation that waits for its cancel event. Times are microseconds.
#[derive(Drop)]
pub struct Gone {
    pub subject: Subject,
    /// The place at which an animation started; 0 of a transition.
    pub place: u32,
    /// When it was cancelled.
    pub cancelled: Micros,
    /// The elapsed time of its cancel event.
    pub elapsed: Micros,
    /// The number of the frame that started it.
    pub generation: u32,
    /// The tree position of its element at that moment.
    pub position: u32,
    pub seen: Phase,
}

impl Gone {
    /// The same item again.
    pub fn copy(&self, alloc: Global) -> Result<Gone, AllocError>
        ensures { IfOk result (λ gone. gone ≡ self.now) }
    {
        Ok(Gone {
            subject: self.subject.copy(alloc)?,
            place: self.place,
            cancelled: self.cancelled,
            elapsed: self.elapsed,
            generation: self.generation,
            position: self.position,
            seen: self.seen,
        })
    }
}
