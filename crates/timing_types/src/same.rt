//! Equality of what contracts see.

ghost use Rattle.std.specs.Prelude.{◌≡◌, ◌↔◌, IsTrue};

use crate::easing::Easing;
use crate::name::Name;
use crate::timing::{Count, Direction, Fill, PlayState};
use fix_num::Micros;

/// Equality as contracts see it: true exactly where the models are equal.
pub trait Same {
    /// Whether the two are the same.
    fn is_same(&self, other: &Self) -> bool
        ensures { IsTrue result ↔ (self.now ≡ other.now) };
}

impl Same for Name {
    fn is_same(&self, other: &Name) -> bool {
        self.as_bytes() == other.as_bytes()
    }
}

impl Same for Micros {
    fn is_same(&self, other: &Micros) -> bool {
        self == other
    }
}

impl Same for Easing {
    fn is_same(&self, other: &Easing) -> bool {
        match (*self, *other) {
            (Easing::Linear, Easing::Linear) => true,
            (
                Easing::Cubic { x1, y1, x2, y2 },
                Easing::Cubic {
                    x1: a1,
                    y1: b1,
                    x2: a2,
                    y2: b2,
                },
            ) => x1 == a1 && y1 == b1 && x2 == a2 && y2 == b2,
            (Easing::Steps { count, jump }, Easing::Steps { count: n, jump: j }) => {
                count == n && jump == j
            }
            _ => false,
        }
    }
}

impl Same for Count {
    fn is_same(&self, other: &Count) -> bool {
        self == other
    }
}

impl Same for Direction {
    fn is_same(&self, other: &Direction) -> bool {
        self == other
    }
}

impl Same for Fill {
    fn is_same(&self, other: &Fill) -> bool {
        self == other
    }
}

impl Same for PlayState {
    fn is_same(&self, other: &PlayState) -> bool {
        self == other
    }
}

impl<T: Same> Same for Option<T> {
    fn is_same(&self, other: &Option<T>) -> bool {
        match (self, other) {
            (Some(x), Some(y)) => x.is_same(y),
            (None, None) => true,
            _ => false,
        }
    }
}

/// Whether the lists are the same, item by item.
pub fn are_same<T: Same>(xs: &[T], ys: &[T]) -> bool
    ensures { IsTrue result ↔ (xs.now ≡ ys.now) }
{
    if xs.len() != ys.len() {
        return false;
    }
    for (i, x) in xs.iter().enumerate() {
        if !x.is_same(&ys[i]) {
            return false;
        }
    }
    true
}
