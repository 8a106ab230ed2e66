//! What the works of the tests hand down.

ghost use Rattle.std.specs.Prelude.{◌≡◌, None, Some, if◌then◌else◌};

/// What is handed down, unless it is that of a leaf, which isn't asked for.
pub(crate) fn told(leaf: bool, down: u32) -> Option<u32>
    ensures { result ≡ (if leaf then None else Some down) }
{
    if leaf { None } else { Some(down) }
}
