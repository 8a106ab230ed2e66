//! Easing functions.

ghost use Rattle.std.specs.Prelude.{◌≡◌};
ghost use Rattle.timing_types.specs.Timing.{ease};

/// An easing function (CSS Easing 1).
#[derive(Clone, Copy, Debug, PartialEq, Eq)]
pub enum Easing {
    Linear,
    /// A cubic Bezier curve by its two inner control points, in thousandths: x1 and x2 are 0 to 1,000, y1
    /// and y2 within 10,000.
    Cubic { x1: i32, y1: i32, x2: i32, y2: i32 },
    /// 1 to 1,000,000 steps, and at least 2 for `jump-none`.
    Steps { count: u32, jump: Jump },
}

/// Where a step easing jumps besides the steps between. `Nowhere` is `jump-none`.
#[derive(Clone, Copy, Debug, PartialEq, Eq)]
pub enum Jump {
    Start,
    End,
    Both,
    Nowhere,
}

impl Easing {
    /// The keyword `ease` (CSS Easing 1, "Cubic Bézier easing functions").
    pub fn ease() -> Easing
        ensures { result ≡ ease }
    {
        Easing::Cubic {
            x1: 250,
            y1: 100,
            x2: 250,
            y2: 1000,
        }
    }
}
