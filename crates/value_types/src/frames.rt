//! The frames of a keyframes rule.

ghost use Rattle.std.specs.Prelude.{◌≡◌, IfOk};
ghost use Rattle.value_types.specs.Keyframes.{IsFrames};

use crate::frame::Frame;
use std::alloc::{AllocError, Global};
use std::marker::Model;
use timing_types::{Same, are_same};

/// The frames of a keyframes rule, strictly ascending by offset and then by property number, which contracts
/// see as their list. Each keeps its bounds, and none is of `display`.
#[derive(Drop)]
pub struct Frames {
    frames: Vec<Frame>,
}

impl Model for Frames {
    ghost use Rattle.std.specs.Prelude.{List};
    ghost use Rattle.value_types.specs.declared.frame.Frame.{Frame};
    ghost use Rattle.value_types.specs.Keyframes.{IsFrames};

    ghost Value = { List Frame };

    ghost view = { λ f. f.frames.items };

    ghost invariant = { λ f. IsFrames f.frames.items };
}

impl Frames {
    /// The frames of a `Vec`. Takes no memory.
    pub fn from_vec(frames: Vec<Frame>) -> Frames
        requires { IsFrames frames.items }
        ensures { result ≡ frames.items }
    {
        Frames { frames }
    }

    /// The frames, in their order.
    pub fn as_slice(&self) -> &[Frame]
        ensures value { result.now ≡ self.now }
        ensures bounds { IsFrames result.now }
    {
        self.frames.as_slice()
    }

    /// The same frames again.
    pub fn copy(&self, alloc: Global) -> Result<Frames, AllocError>
        ensures { IfOk result (λ frames. frames ≡ self.now) }
    {
        Ok(Frames {
            frames: Vec::from_slice(alloc, self.frames.as_slice())?,
        })
    }
}

impl Same for Frames {
    fn is_same(&self, other: &Frames) -> bool {
        are_same(self.as_slice(), other.as_slice())
    }
}
