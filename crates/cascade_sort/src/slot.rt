//! Slots: one for each property and timing list, for normal and for important declarations.
ghost use Rattle.std.specs.Prelude.{◌≡◌, ◌<◌};
ghost use Rattle.computed_style.specs.Winners.{place_of};
ghost use Rattle.cascade_sort.specs.Winning.{longhand_number, slot};

use shorthand_text::Longhand;
use value_types::ListName;

/// How many slots there are.
pub(crate) const SLOTS: usize = 72;

/// The slot that a declaration may win.
pub(crate) fn slot_of(longhand: &Longhand, important: bool) -> usize
    ensures value { result ≡ slot important (longhand_number longhand.now) }
    ensures small { result < SLOTS }
{
    let number = longhand_number(longhand);
    if important { number + 36 } else { number }
}

/// The number of the property or timing list among the 36.
fn longhand_number(longhand: &Longhand) -> usize
    ensures value { result ≡ longhand_number longhand.now }
    ensures small { result < 36 }
{
    match longhand {
        Longhand::Property(p, _) => p.number() as usize,
        Longhand::List(name, _) => place_of(*name) + 24,
    }
}

/// The place of a timing list among the twelve.
fn place_of(name: ListName) -> usize
    ensures value { result ≡ place_of name }
    ensures small { result < 12 }
{
    name as usize
}
