//! The update of an element.

ghost use Rattle.std.specs.Prelude.{◌≡◌, [], ◌∷◌, ◌++◌, false, IfOk, OnOk, OnErr, Some, option_copied};
ghost use Rattle.pass_core.specs.Plans.{planned_place};
ghost use Rattle.pass_core.specs.Work.{asked};
ghost use Rattle.pass_core.specs.Passes.{after_event, handed_to, outcome_at, state_of, with_outcome};

use crate::event::CoreEvent;
use crate::plan::Place;
use crate::step::Step;
use crate::values::{put_value, value_for};
use crate::work::TreeWork;
use std::alloc::{AllocError, Global};

/// Updates the element: its entry is replaced where it has a new one, and it is done with what it hands down.
pub(crate) fn update_in<W: TreeWork>(
    alloc: Global,
    work: &W,
    places: &[Place],
    entries: &mut Vec<(u32, W::Entry)>,
    done: &mut Vec<(u32, W::Down)>,
    element: u32,
) -> Result<(), AllocError>
    ensures ok { OnOk result (state_of entries.new.items done.new.items ≡ after_event (W.meaning work.now) places.now (state_of entries.old.items done.old.items) (CoreEvent.Update element)) }
    ensures err { OnErr result (state_of entries.new.items done.new.items ≡ state_of entries.old.items done.old.items) }
{
    let found = outcome_at(
        alloc,
        work,
        places,
        entries.as_slice(),
        done.as_slice(),
        element,
    )?;
    match found {
        None => Ok(()),
        Some(outcome) => put_outcome(entries, done, element, outcome),
    }
}

/// Notes the outcome of the element's update.
fn put_outcome<E: Drop, D: Copy>(
    entries: &mut Vec<(u32, E)>,
    done: &mut Vec<(u32, D)>,
    element: u32,
    outcome: Step<E, D>,
) -> Result<(), AllocError>
    ensures ok { OnOk result (state_of entries.new.items done.new.items ≡ with_outcome (state_of entries.old.items done.old.items) element outcome) }
    ensures err { OnErr result (state_of entries.new.items done.new.items ≡ state_of entries.old.items done.old.items) }
{
    match outcome {
        Step::Updated(entry, down) => {
            done.push((element, down))?;
            put_value(entries, element, entry);
            Ok(())
        }
        Step::Kept(down) => {
            done.push((element, down))?;
            Ok(())
        }
    }
}

/// The outcome of the element's update, where it has an entry and a place, and its parent is done.
fn outcome_at<W: TreeWork>(
    alloc: Global,
    work: &W,
    places: &[Place],
    entries: &[(u32, W::Entry)],
    done: &[(u32, W::Down)],
    element: u32,
) -> Result<Option<Step<W::Entry, W::Down>>, AllocError>
    ensures { IfOk result (λ o. o ≡ outcome_at (W.meaning work.now) places.now (state_of entries.now done.now) element) }
{
    let Some(entry) = value_for(entries, element) else {
        return Ok(None);
    };
    let Some(place) = planned_place(places, element) else {
        return Ok(None);
    };
    let Some(down) = handed_to(work, places, done, &place) else {
        return Ok(None);
    };
    let outcome = work.update(alloc, element, entry, &down, None, false)?;
    Ok(whole_step(outcome))
}

/// The step, which says what is handed down.
fn whole_step<E: Drop, D: Copy>(step: Step<E, Option<D>>) -> Option<Step<E, D>>
    ensures { (whole : Step E D) → step ≡ asked false whole → result ≡ Some whole }
{
    match step {
        Step::Updated(entry, down) => {
            let down = down?;
            Some(Step::Updated(entry, down))
        }
        Step::Kept(down) => Some(Step::Kept(down?)),
    }
}

fn planned_place(places: &[Place], element: u32) -> Option<Place>
    ensures { result ≡ planned_place places.now element }
{
    places
        .iter()
        .copied()
        .find(|place| place.element == element)
}

/// What is handed down to the place.
fn handed_to<W: TreeWork>(
    work: &W,
    places: &[Place],
    done: &[(u32, W::Down)],
    place: &Place,
) -> Option<W::Down>
    ensures { result ≡ handed_to (W.meaning work.now) places.now done.now place.now }
{
    let Some(parent) = place.parent else {
        return Some(work.top());
    };
    match places.get(parent as usize) {
        None => None,
        Some(above) => value_for(done, above.element).copied(),
    }
}
