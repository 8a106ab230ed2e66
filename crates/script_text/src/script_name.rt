//! Tags, ids and classes.

ghost use Rattle.std.specs.Prelude.{◌≡◌, IfOk, IsTrue};
ghost use Rattle.script_text.specs.Forms.{is_script_name};

use crate::forms::name_text;
use std::alloc::{AllocError, Global};
use std::marker::Model;

/// A tag, an id or a class as a script writes it, which contracts see as the list of its bytes: an ASCII letter or `_`,
/// then ASCII letters, digits, `-` and `_`. Names compare exactly.
#[derive(Drop)]
pub struct ScriptName {
    text: String,
}

impl Model for ScriptName {
    ghost use Rattle.std.specs.Prelude.{List, ℕ, IsTrue};
    ghost use Rattle.std.specs.String.{string_bytes};
    ghost use Rattle.script_text.specs.Forms.{is_script_name};

    ghost Value = { List ℕ };

    ghost view = { λ name. string_bytes name.text };

    ghost invariant = { λ name. IsTrue (is_script_name (string_bytes name.text)) };
}

impl ScriptName {
    /// The name of these bytes.
    pub(crate) fn from_bytes(alloc: Global, bytes: &[u8]) -> Result<ScriptName, AllocError>
        requires { IsTrue (is_script_name bytes.now) }
        ensures { IfOk result (λ name. name ≡ bytes.now) }
    {
        Ok(ScriptName {
            text: String::from_str(alloc, name_text(bytes))?,
        })
    }

    /// The name as a text.
    pub fn as_str(&self) -> &str
        ensures value { result.now ≡ self.now }
        ensures name { IsTrue (is_script_name result.now) }
    {
        self.text.as_str()
    }
}
