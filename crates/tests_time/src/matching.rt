//! Matching of transition lists.
ghost use Rattle.std.specs.Prelude.{◌≡◌, [], ◌∷◌, IfOk};
ghost use Rattle.timing_types.specs.Timing.{IsDuration};
ghost use Rattle.timing_types.specs.TimingLists.{IsListOf};

use fix_num::Micros;
use std::alloc::{AllocError, Global};
use std::test::Fail;
use timing_types::{Easing, Items};
use transition_list::{matching, matching_or_initial};
use value_types::{PropertyId, PropertyItem, Shorthand, TransitionLists};

fn two<T: Drop>(alloc: Global, first: T, second: T) -> Result<Items<T>, AllocError>
    ensures { IfOk result (λ items. items ≡ first ∷ second ∷ []) }
{
    let mut items = Items::of(alloc, first)?;
    items.push(second)?;
    Ok(items)
}

#[tactic(auto, using(crate::proofs::TwoDurations::two_durations))]
fn durations(alloc: Global, first: u8, second: u8) -> Result<Items<Micros>, AllocError>
    ensures { IfOk result (IsListOf IsDuration) }
{
    two(
        alloc,
        Micros(i64::from(first) * 1_000_000),
        Micros(i64::from(second) * 1_000_000),
    )
}

/// Two items, with durations of 1 and 3 seconds, no delay and a linear easing.
fn lists(
    alloc: Global,
    first: PropertyItem,
    second: PropertyItem,
) -> Result<TransitionLists, AllocError> {
    let items = two(alloc, first, second)?;
    let durations = durations(alloc, 1, 3)?;
    let delays = Items::of(alloc, Micros(0))?;
    Ok(TransitionLists::new(items, durations, delays, Items::of(alloc, Easing::Linear)?))
}

#[test]
fn last_item_that_names_it(rt: HostRuntime) -> Result<(), Fail> {
    let opacity = PropertyItem::Property(PropertyId::Opacity);
    let margin = lists(rt.alloc(), opacity, PropertyItem::Short(Shorthand::Margin))?;
    let all = lists(rt.alloc(), opacity, PropertyItem::All)?;
    for (lists, p, seconds) in [
        (&margin, PropertyId::Opacity, Some(1)),
        (&margin, PropertyId::MarginLeft, Some(3)),
        (&margin, PropertyId::Width, None),
        (&all, PropertyId::Opacity, Some(3)),
    ] {
        let found = matching(lists, p).map(|m| m.get().duration.0 / 1_000_000);
        assert!(rt; found == seconds);
    }
    Ok(())
}

#[test]
fn initial_lists_match_everything(rt: HostRuntime) -> Result<(), Fail> {
    let found = matching_or_initial(None, PropertyId::Width).ok_or("no match")?;
    assert!(rt; found.get().duration == Micros(0) && found.get().delay == Micros(0));
    Ok(())
}
