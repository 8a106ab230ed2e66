//! Floor: values. Knows one element's lists, and no element and no time.
//!
//! Matching of `transition-property`: of each property, which item of the list gives it a duration, a delay and
//! an easing, after CSS Transitions Level 1, section 3. `matching(&lists, PropertyId::Opacity)` is that of the
//! last item which is `opacity`, a shorthand with it or `all`, and `None` where there is no such item.
#![tactic(auto)]

mod last_named;
mod laws;
mod matched;

pub use last_named::{matching, matching_or_initial};
pub use laws::{last_item_wins, one_match};
pub use matched::{Match, MatchedItem};
