//! What holds of the lines of any bytes.
ghost use Rattle.std.specs.Prelude.{◌≡◌, ℕ, ◌++◌, ◌∷◌, [], List};
ghost use Rattle.std.specs.List.{concat};
ghost use Rattle.text_io.specs.Lines.{cuts_of, lines_of, AreCuts};

use crate::limits::LINE_FEED;

/// The cuts joined are the bytes.
pub fn cuts_joined()
    ensures { (bytes : List ℕ) → concat (cuts_of bytes) ≡ bytes }
{}

/// Each cut but the last ends in a line feed and has no other; the last is so too, or has bytes and no line feed.
pub fn cuts_end_at_feeds()
    ensures { (bytes : List ℕ) → AreCuts (cuts_of bytes) }
{}

/// The lines of two texts, the first of which ends in a line feed, are the lines of the first and then of the second.
pub fn lines_joined()
    ensures { (first second : List ℕ) → lines_of (first ++ LINE_FEED ∷ [] ++ second)
        ≡ lines_of (first ++ LINE_FEED ∷ []) ++ lines_of second }
{}
