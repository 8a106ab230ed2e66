//! Cancelled transitions.
ghost use Rattle.std.specs.Prelude.{◌≡◌, pos};
ghost use Rattle.std.specs.Int.{int_max, int_min};
ghost use Rattle.style_data.specs.Kept.{IsKeptFor};
ghost use Rattle.style_data.specs.Transitions.{IsMoment, IsTransition};
ghost use Rattle.transition_start.specs.Results.{elapsed_at, gone_item};

use fix_num::Micros;
use style_data::{Gone, Running, Subject, Transition};
use value_types::PropertyId;

/// The running transition `r` of a property, cancelled at time `t`: what its cancel event needs (CSS
/// Transitions 1, section 6). Its elapsed time lies within its active duration.
pub fn cancelled(p: PropertyId, r: &Running, t: Micros) -> Gone
    requires time { IsMoment t.0 }
    requires kept { IsKeptFor p r.now }
    ensures { result ≡ gone_item p r.now t.0 }
{
    let transition = r.get();
    Gone {
        subject: Subject::Property(p),
        place: 0,
        cancelled: t,
        elapsed: elapsed_at(r, t),
        generation: transition.generation,
        position: transition.position,
        seen: transition.seen,
    }
}

/// The elapsed time of a running transition at time `t`, in microseconds: how long it has been active, within its
/// active duration.
pub fn elapsed_at(r: &Running, t: Micros) -> Micros
    requires { IsMoment t.0 }
    ensures { result.0 ≡ elapsed_at r.now t.0 }
{
    Micros(elapsed(r.get(), t))
}

fn elapsed(r: Transition, t: Micros) -> i64
    requires bounds { IsTransition r }
    requires time { IsMoment t.0 }
    ensures { result ≡ elapsed_at r t.0 }
{
    capped(t.0 - r.start.0, r.end.0 - r.start.0)
}

/// The time, at least 0 and at most the duration.
fn capped(time: i64, duration: i64) -> i64
    ensures { result ≡ int_min (int_max time (pos 0)) duration }
{
    time.max(0).min(duration)
}
