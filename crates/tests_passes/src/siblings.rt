//! A work whose updates take over what a sibling's gave, on one thread and by levels.

ghost use Rattle.std.specs.Prelude.{◌≡◌, map, IfOk, IfSome};
ghost use Rattle.pass_core.specs.Work.{asked, IsSibling};
ghost use Rattle.tests_passes.specs.Works.{growing};

use crate::levels::{WIDE, plan_of};
use crate::told::told;
use pass_core::{Sibling, Step, TreeWork, pass_alone};
use std::alloc::{AllocError, Global};
use std::sync::atomic::{AtomicU64, Ordering};
use std::test::Fail;
use work_split::by_levels;

/// Each element hands down the sum of its entry and of what it is handed, and takes it for its own. It takes over a
/// sibling's that had the same entry, and counts how often it does, and how often it is asked what it hands down.
#[derive(Drop)]
struct TakingOver {
    taken: AtomicU64,
    asked: AtomicU64,
}

impl TreeWork for TakingOver {
    ghost use Rattle.tests_passes.specs.Works.{growing};

    type Entry = u32;

    type Down = u32;

    ghost meaning = { λ _. growing };

    fn update<'a>(
        &self,
        _alloc: Global,
        _element: u32,
        entry: &'a u32,
        down: &'a u32,
        sibling: Option<Sibling<'a, u32, u32>>,
        leaf: bool,
    ) -> Result<Step<u32, Option<u32>>, AllocError>
        requires { IfSome sibling (IsSibling growing down.now) }
        ensures { IfOk result (λ step. step ≡ asked leaf (growing.outcome _element entry.now down.now)) }
    {
        if !leaf {
            self.asked.fetch_add(1, Ordering::SeqCst);
        }
        if let Some(sibling) = sibling {
            if *sibling.before == *entry {
                self.taken.fetch_add(1, Ordering::SeqCst);
                let sum = *sibling.after;
                return Ok(Step::Updated(sum, told(leaf, sum)));
            }
        }
        let sum = entry.wrapping_add(*down);
        Ok(Step::Updated(sum, told(leaf, sum)))
    }

    fn top(&self) -> u32 {
        5
    }
}

fn begun() -> TakingOver {
    TakingOver {
        taken: AtomicU64::new(0),
        asked: AtomicU64::new(0),
    }
}

/// An entry of 7 for each of the elements.
fn alike(alloc: Global, table: &[(u32, Option<u32>, u32)]) -> Result<Vec<(u32, u32)>, AllocError>
    ensures { IfOk result (λ entries. entries.items ≡ map (λ row. (row.0, 7)) table.now) }
{
    let mut entries = Vec::new(alloc);
    for (element, _, _) in table {
        entries.push((*element, 7))?;
    }
    Ok(entries)
}

#[test]
fn children_alike_are_taken_over(rt: HostRuntime) -> Result<(), Fail> {
    let plan = plan_of(rt.alloc(), &WIDE)?;
    let work = begun();
    let alone = pass_alone(rt.alloc(), &work, &plan, alike(rt.alloc(), &WIDE)?)?;
    for (element, entry) in &alone {
        assert!(rt; *entry == if *element == 1 { 12 } else { 19 });
    }
    // Each child but the first.
    assert!(rt; work.taken.load(Ordering::SeqCst) == 99);
    // The one element that is no leaf.
    assert!(rt; work.asked.load(Ordering::SeqCst) == 1);
    let work = begun();
    let entries = alike(rt.alloc(), &WIDE)?;
    let closing = by_levels(&rt, rt.alloc(), &work, &plan, entries, 4)?;
    assert!(rt; closing.as_slice() == alone.as_slice());
    // Each child but the first of each of three pieces.
    assert!(rt; work.taken.load(Ordering::SeqCst) == 97);
    assert!(rt; work.asked.load(Ordering::SeqCst) == 1);
    Ok(())
}
