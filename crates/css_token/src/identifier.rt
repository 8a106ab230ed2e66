//! Identifiers.
ghost use Rattle.std.specs.Prelude.{◌≡◌, ◌↔◌, ◌&&◌, IsTrue};
ghost use Rattle.std.specs.List.{list_all};
ghost use Rattle.css_token.specs.Characters.{is_name};
ghost use Rattle.css_token.specs.Productions.{IsIdentifier, begins_identifier};

use crate::classes::is_name;
use crate::lengths::begins_identifier;

/// Whether the bytes are an identifier (CSS Syntax Level 3, "ident-token diagram").
pub fn is_identifier(bytes: &[u8]) -> bool
    ensures value { result ≡ (begins_identifier bytes.now && list_all is_name bytes.now) }
    ensures identifier { IsTrue result ↔ IsIdentifier bytes.now }
{
    begins_identifier(bytes) && are_names(bytes)
}

fn are_names(bytes: &[u8]) -> bool
    ensures { result ≡ list_all is_name bytes.now }
{
    bytes.iter().all(|byte| is_name(*byte))
}
