//! Cancelling whatever runs.

ghost use Rattle.std.specs.Prelude.{◌≡◌, IfOk};
ghost use Rattle.style_data.specs.Transitions.{IsMoment};
ghost use Rattle.transition_update.specs.Updates.{all_cancelled};

use fix_num::Micros;
use std::alloc::{AllocError, Global};
use style_data::{Gone, Transitions};
use transition_start::cancelled;

/// The running transitions, each cancelled at time `t`, in the order of their properties: those of an element that
/// isn't rendered any more, or isn't in the document (CSS Transitions 1, section 3).
pub fn cancel_transitions(
    alloc: Global,
    transitions: &Transitions,
    t: Micros,
) -> Result<Vec<Gone>, AllocError>
    requires { IsMoment t.0 }
    ensures { IfOk result (λ gone. gone.items ≡ all_cancelled transitions.now t.0) }
{
    let mut gone = Vec::new(alloc);
    for running in transitions.running() {
        gone.push(cancelled(running.0, &running.1, t))?;
    }
    Ok(gone)
}
