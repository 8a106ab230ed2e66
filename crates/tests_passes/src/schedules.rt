//! Schedules of a plan of three elements: a root and its two children.

ghost use Rattle.std.specs.Prelude.{◌≡◌, ℕ, [], ◌∷◌, true, false, IfOk, IfSome};
ghost use Rattle.pass_core.specs.Plans.{is_proper};
ghost use Rattle.pass_core.specs.Passes.{are_allowed};
ghost use Rattle.pass_core.specs.Work.{asked, IsSibling};
ghost use Rattle.pass_core.specs.declared.step.Step.TheVariants.{Kept};
ghost use Rattle.tests_passes.specs.Works.{handing};

use crate::told::told;
use pass_core::{
    CoreEvent, CoreState, Place, Plan, Sibling, Step, TreeWork, pass_alone, run_schedule,
};
use std::alloc::{AllocError, Global};
use std::test::Fail;

/// Each element's entry goes to its children, and it takes what it is handed for its own, unless that is what it has.
#[derive(Drop)]
struct Handing {
    top: u32,
}

impl TreeWork for Handing {
    ghost use Rattle.tests_passes.specs.Works.{handing};

    type Entry = u32;

    type Down = u32;

    ghost meaning = { λ w. handing w.top };

    fn update<'a>(
        &self,
        _alloc: Global,
        _element: u32,
        entry: &'a u32,
        down: &'a u32,
        _sibling: Option<Sibling<'a, u32, u32>>,
        leaf: bool,
    ) -> Result<Step<u32, Option<u32>>, AllocError>
        requires { IfSome _sibling (IsSibling (handing self.now.top) down.now) }
        ensures { IfOk result (λ step. step ≡ asked leaf ((handing self.now.top).outcome _element entry.now down.now)) }
    {
        Ok(if *entry == *down {
            Step::Kept(told(leaf, *down))
        } else {
            Step::Updated(*down, told(leaf, *entry))
        })
    }

    fn top(&self) -> u32 {
        self.top
    }
}

const PLACES: [Place; 3] = [
    Place {
        element: 1,
        parent: None,
        end: 3,
    },
    Place {
        element: 2,
        parent: Some(0),
        end: 2,
    },
    Place {
        element: 3,
        parent: Some(0),
        end: 3,
    },
];

const OPENING: [(u32, u32); 4] = [(3, 10), (1, 10), (9, 90), (2, 20)];

/// The younger child first, after an update of it that found no memory.
const YOUNGER_FIRST: [CoreEvent; 4] = [
    CoreEvent::Update(1),
    CoreEvent::Refuse(3),
    CoreEvent::Update(3),
    CoreEvent::Update(2),
];

const OLDER_FIRST: [CoreEvent; 3] = [
    CoreEvent::Update(1),
    CoreEvent::Update(2),
    CoreEvent::Update(3),
];

const CHILD_FIRST: [CoreEvent; 2] = [CoreEvent::Update(2), CoreEvent::Update(1)];

/// A child may not come before its parent.
fn child_waits()
    ensures { (top : ℕ) → are_allowed (record { outcome = λ element entry down. Kept down; top = top }) PLACES (record { entries = OPENING; done = [] }) CHILD_FIRST ≡ false }
{}

/// Plans that aren't proper: with an element twice, a child before its parent, an end that leaves a child out, and
/// one that takes a stranger in.
fn improper_plans()
    ensures twice { is_proper (record { element = 1; parent = None; end = 1 } ∷ record { element = 1; parent = None; end = 2 } ∷ []) ≡ false }
    ensures child_first { is_proper (record { element = 1; parent = Some 1; end = 1 } ∷ record { element = 2; parent = None; end = 2 } ∷ []) ≡ false }
    ensures left_out { is_proper (record { element = 1; parent = None; end = 1 } ∷ record { element = 2; parent = Some 0; end = 2 } ∷ []) ≡ false }
    ensures taken_in { is_proper (record { element = 1; parent = None; end = 2 } ∷ record { element = 2; parent = None; end = 2 } ∷ []) ≡ false }
    ensures forest { is_proper (record { element = 1; parent = None; end = 1 } ∷ record { element = 2; parent = None; end = 2 } ∷ []) ≡ true }
{}

fn three(alloc: Global) -> Result<Plan, AllocError>
    ensures { IfOk result (λ plan. plan.places.items ≡ PLACES) }
{
    Ok(Plan {
        places: Vec::from_slice(alloc, &PLACES)?,
    })
}

fn begun(alloc: Global) -> Result<CoreState<Handing>, AllocError>
    ensures { IfOk result (λ state. state ≡ record { entries = OPENING; done = [] }) }
{
    CoreState::begin(alloc, opening(alloc)?)
}

fn opening(alloc: Global) -> Result<Vec<(u32, u32)>, AllocError>
    ensures { IfOk result (λ entries. entries.items ≡ OPENING) }
{
    Ok(Vec::from_slice(alloc, &OPENING)?)
}

#[test]
fn either_child_may_come_first(rt: HostRuntime) -> Result<(), Fail> {
    child_waits();
    improper_plans();
    let work = Handing { top: 7 };
    let plan = three(rt.alloc())?;
    let mut older = begun(rt.alloc())?;
    run_schedule(rt.alloc(), &work, &plan, &mut older, &OLDER_FIRST)?;
    let mut younger = begun(rt.alloc())?;
    run_schedule(rt.alloc(), &work, &plan, &mut younger, &YOUNGER_FIRST)?;
    for (element, entry, down) in [
        (1, 7, Some(10)),
        (2, 10, Some(20)),
        (3, 10, Some(10)),
        (9, 90, None),
    ] {
        assert!(rt; older.entry(element).copied() == Some(entry));
        assert!(rt; younger.entry(element).copied() == Some(entry));
        assert!(rt; older.down(element).copied() == down);
        assert!(rt; younger.down(element).copied() == down);
    }
    Ok(())
}

#[test]
fn one_thread_leaves_the_same(rt: HostRuntime) -> Result<(), Fail> {
    let plan = three(rt.alloc())?;
    let closing = pass_alone(rt.alloc(), &Handing { top: 7 }, &plan, opening(rt.alloc())?)?;
    assert!(rt; closing.as_slice() == [(3, 10), (1, 7), (9, 90), (2, 10)].as_slice());
    Ok(())
}
