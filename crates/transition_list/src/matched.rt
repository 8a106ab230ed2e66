//! What a matching item gives.

ghost use Rattle.std.specs.Prelude.{◌≡◌};
ghost use Rattle.transition_list.specs.MatchedItems.{IsMatchedItem};

use fix_num::Micros;
use std::marker::Model;
use timing_types::Easing;

/// What the item of `transition-property` that matches a property gives it (CSS Transitions 1, section 3,
/// "matching transition-property value"). Times are microseconds.
#[derive(Clone, Copy, PartialEq, Eq)]
pub struct MatchedItem {
    /// The matching transition duration.
    pub duration: Micros,
    /// The matching transition delay.
    pub delay: Micros,
    pub easing: Easing,
}

/// A matching item within its bounds: its duration is 0 to 10^15 microseconds and its delay within 10^15.
/// Contracts see it as the item.
#[derive(Clone, Copy, PartialEq, Eq)]
pub struct Match {
    item: MatchedItem,
}

impl Model for Match {
    ghost use Rattle.transition_list.specs.declared.matched.MatchedItem.{MatchedItem};

    ghost Value = { MatchedItem };

    ghost use Rattle.transition_list.specs.MatchedItems.{IsMatchedItem};

    ghost view = { λ m. m.item };

    ghost invariant = { λ m. IsMatchedItem m.item };

    ghost inverse = { λ i. record { item = i } };
}

impl Match {
    /// The match that this item is.
    pub fn new(item: MatchedItem) -> Match
        requires { IsMatchedItem item }
        ensures { result ≡ item }
    {
        Match { item }
    }

    /// The item.
    pub fn get(self) -> MatchedItem
        ensures value { result ≡ self }
        ensures bounds { IsMatchedItem result }
    {
        self.item
    }
}
