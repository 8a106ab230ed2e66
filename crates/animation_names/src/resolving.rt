//! The frames that a name stands for.
ghost use Rattle.std.specs.Prelude.{◌≡◌, IfOk};
ghost use Rattle.animation_names.specs.Samples.{frames_named};

use sheet_types::Sheets;
use std::alloc::AllocError;
use timing_types::Name;
use value_types::{Frames, Shared};

/// The frames that an animation of this name runs: those of the last keyframes rule of the name, by sheet and by its place there (CSS
/// Animations Level 1, "Keyframes"); `None` exactly where no sheet has one. They are shared. Takes no memory: it fails only where
/// they have 2^63 owners already.
pub fn resolve(sheets: &Sheets, name: &Name) -> Result<Option<Shared<Frames>>, AllocError>
    ensures { IfOk result (λ frames. frames ≡ frames_named name.now sheets.now) }
{
    match sheets.keyframes_named(name.as_bytes()) {
        Some(rule) => Ok(Some(rule.frames.copy()?)),
        None => Ok(None),
    }
}
