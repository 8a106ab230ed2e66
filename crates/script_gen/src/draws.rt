//! The sequence of numbers that a seed begins.
ghost use Rattle.std.specs.Prelude.{◌≡◌, ◌<◌};
ghost use Rattle.script_gen.specs.Draws.{choice, next_number};

/// A place in the sequence.
#[derive(Drop)]
pub(crate) struct Draws {
    pub(crate) number: u64,
}

impl Draws {
    const MULTIPLIER: u64 = 6_364_136_223_846_793_005;

    const INCREMENT: u64 = 1_442_695_040_888_963_407;

    /// Goes to the next number, which chooses among 0 to `count` - 1.
    pub(crate) fn draw(&mut self, count: u64) -> u64
        requires { 0 < count }
        ensures number { self.new.number ≡ next_number self.old.number }
        ensures choice { result ≡ choice self.new.number count }
        ensures below { result < count }
    {
        self.number = self
            .number
            .wrapping_mul(Self::MULTIPLIER)
            .wrapping_add(Self::INCREMENT);
        (self.number >> 33) % count
    }
}
