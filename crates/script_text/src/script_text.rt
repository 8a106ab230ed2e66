//! Texts of style attributes and sheets.

ghost use Rattle.std.specs.Prelude.{◌≡◌, IfOk};

use std::alloc::{AllocError, Global};
use std::marker::Model;

/// The text of a line, which contracts see as the list of its bytes. They are UTF-8.
#[derive(Drop)]
pub struct ScriptText {
    text: String,
}

impl Model for ScriptText {
    ghost use Rattle.std.specs.Prelude.{List, ℕ};
    ghost use Rattle.std.specs.String.{string_bytes};

    ghost Value = { List ℕ };

    ghost view = { λ x. string_bytes x.text };
}

impl ScriptText {
    /// A copy of this text.
    pub(crate) fn from_str(alloc: Global, text: &str) -> Result<ScriptText, AllocError>
        ensures { IfOk result (λ x. x ≡ text.now) }
    {
        Ok(ScriptText {
            text: String::from_str(alloc, text)?,
        })
    }

    /// The text.
    pub fn as_str(&self) -> &str
        ensures { result.now ≡ self.now }
    {
        self.text.as_str()
    }
}
