//! The pass by levels beside the pass on one thread: over a wide, a deep and a random tree, with 1, 2, 4 and 64 workers.

ghost use Rattle.std.specs.Prelude.{◌≡◌, map, IfOk, IfSome, IsTrue};
ghost use Rattle.pass_core.specs.Passes.{are_distinct, have_entries};
ghost use Rattle.pass_core.specs.Plans.{is_proper};
ghost use Rattle.pass_core.specs.Work.{asked, IsSibling};
ghost use Rattle.tests_passes.specs.Works.{summing};

use crate::told::told;
use pass_core::{Place, Plan, Sibling, Step, TreeWork, pass_alone};
use std::alloc::{AllocError, Global};
use std::test::Fail;
use std::thread::Threads;
use work_split::by_levels;

/// Each element hands down the sum of its own entry and of those above it, and takes it for its own; an element whose entry
/// is 0 keeps it.
#[derive(Drop)]
struct Summing;

impl TreeWork for Summing {
    ghost use Rattle.tests_passes.specs.Works.{summing};

    type Entry = u32;

    type Down = u32;

    ghost meaning = { λ _. summing };

    fn update<'a>(
        &self,
        _alloc: Global,
        _element: u32,
        entry: &'a u32,
        down: &'a u32,
        _sibling: Option<Sibling<'a, u32, u32>>,
        leaf: bool,
    ) -> Result<Step<u32, Option<u32>>, AllocError>
        requires { IfSome _sibling (IsSibling summing down.now) }
        ensures { IfOk result (λ step. step ≡ asked leaf (summing.outcome _element entry.now down.now)) }
    {
        if *entry == 0 {
            return Ok(Step::Kept(told(leaf, *down)));
        }
        let sum = entry.wrapping_add(*down);
        Ok(Step::Updated(sum, told(leaf, sum)))
    }

    fn top(&self) -> u32 {
        5
    }
}

/// An element with 100 children.
pub(crate) const WIDE: [(u32, Option<u32>, u32); 101] = [
    (1, None, 101),
    (2, Some(0), 2),
    (3, Some(0), 3),
    (4, Some(0), 4),
    (5, Some(0), 5),
    (6, Some(0), 6),
    (7, Some(0), 7),
    (8, Some(0), 8),
    (9, Some(0), 9),
    (10, Some(0), 10),
    (11, Some(0), 11),
    (12, Some(0), 12),
    (13, Some(0), 13),
    (14, Some(0), 14),
    (15, Some(0), 15),
    (16, Some(0), 16),
    (17, Some(0), 17),
    (18, Some(0), 18),
    (19, Some(0), 19),
    (20, Some(0), 20),
    (21, Some(0), 21),
    (22, Some(0), 22),
    (23, Some(0), 23),
    (24, Some(0), 24),
    (25, Some(0), 25),
    (26, Some(0), 26),
    (27, Some(0), 27),
    (28, Some(0), 28),
    (29, Some(0), 29),
    (30, Some(0), 30),
    (31, Some(0), 31),
    (32, Some(0), 32),
    (33, Some(0), 33),
    (34, Some(0), 34),
    (35, Some(0), 35),
    (36, Some(0), 36),
    (37, Some(0), 37),
    (38, Some(0), 38),
    (39, Some(0), 39),
    (40, Some(0), 40),
    (41, Some(0), 41),
    (42, Some(0), 42),
    (43, Some(0), 43),
    (44, Some(0), 44),
    (45, Some(0), 45),
    (46, Some(0), 46),
    (47, Some(0), 47),
    (48, Some(0), 48),
    (49, Some(0), 49),
    (50, Some(0), 50),
    (51, Some(0), 51),
    (52, Some(0), 52),
    (53, Some(0), 53),
    (54, Some(0), 54),
    (55, Some(0), 55),
    (56, Some(0), 56),
    (57, Some(0), 57),
    (58, Some(0), 58),
    (59, Some(0), 59),
    (60, Some(0), 60),
    (61, Some(0), 61),
    (62, Some(0), 62),
    (63, Some(0), 63),
    (64, Some(0), 64),
    (65, Some(0), 65),
    (66, Some(0), 66),
    (67, Some(0), 67),
    (68, Some(0), 68),
    (69, Some(0), 69),
    (70, Some(0), 70),
    (71, Some(0), 71),
    (72, Some(0), 72),
    (73, Some(0), 73),
    (74, Some(0), 74),
    (75, Some(0), 75),
    (76, Some(0), 76),
    (77, Some(0), 77),
    (78, Some(0), 78),
    (79, Some(0), 79),
    (80, Some(0), 80),
    (81, Some(0), 81),
    (82, Some(0), 82),
    (83, Some(0), 83),
    (84, Some(0), 84),
    (85, Some(0), 85),
    (86, Some(0), 86),
    (87, Some(0), 87),
    (88, Some(0), 88),
    (89, Some(0), 89),
    (90, Some(0), 90),
    (91, Some(0), 91),
    (92, Some(0), 92),
    (93, Some(0), 93),
    (94, Some(0), 94),
    (95, Some(0), 95),
    (96, Some(0), 96),
    (97, Some(0), 97),
    (98, Some(0), 98),
    (99, Some(0), 99),
    (100, Some(0), 100),
    (101, Some(0), 101),
];

/// A line of 34 elements.
const DEEP: [(u32, Option<u32>, u32); 34] = [
    (1, None, 34),
    (2, Some(0), 34),
    (3, Some(1), 34),
    (4, Some(2), 34),
    (5, Some(3), 34),
    (6, Some(4), 34),
    (7, Some(5), 34),
    (8, Some(6), 34),
    (9, Some(7), 34),
    (10, Some(8), 34),
    (11, Some(9), 34),
    (12, Some(10), 34),
    (13, Some(11), 34),
    (14, Some(12), 34),
    (15, Some(13), 34),
    (16, Some(14), 34),
    (17, Some(15), 34),
    (18, Some(16), 34),
    (19, Some(17), 34),
    (20, Some(18), 34),
    (21, Some(19), 34),
    (22, Some(20), 34),
    (23, Some(21), 34),
    (24, Some(22), 34),
    (25, Some(23), 34),
    (26, Some(24), 34),
    (27, Some(25), 34),
    (28, Some(26), 34),
    (29, Some(27), 34),
    (30, Some(28), 34),
    (31, Some(29), 34),
    (32, Some(30), 34),
    (33, Some(31), 34),
    (34, Some(32), 34),
];

/// A tree at random: one of its levels is long enough to be cut.
const RANDOM: [(u32, Option<u32>, u32); 52] = [
    (1, None, 52),
    (26, Some(0), 17),
    (49, Some(1), 7),
    (28, Some(2), 4),
    (36, Some(2), 5),
    (39, Some(2), 6),
    (51, Some(2), 7),
    (30, Some(1), 8),
    (6, Some(1), 9),
    (15, Some(1), 10),
    (22, Some(1), 12),
    (11, Some(10), 12),
    (21, Some(1), 13),
    (3, Some(1), 14),
    (43, Some(1), 15),
    (35, Some(1), 16),
    (23, Some(1), 17),
    (33, Some(0), 27),
    (24, Some(17), 19),
    (4, Some(17), 20),
    (31, Some(17), 21),
    (32, Some(17), 22),
    (17, Some(17), 23),
    (2, Some(17), 24),
    (8, Some(17), 25),
    (50, Some(17), 26),
    (37, Some(17), 27),
    (42, Some(0), 42),
    (16, Some(27), 29),
    (46, Some(27), 30),
    (40, Some(27), 31),
    (7, Some(27), 32),
    (9, Some(27), 33),
    (12, Some(27), 35),
    (25, Some(33), 35),
    (41, Some(27), 36),
    (34, Some(27), 37),
    (19, Some(27), 38),
    (38, Some(27), 39),
    (18, Some(27), 40),
    (29, Some(27), 41),
    (10, Some(27), 42),
    (14, Some(0), 43),
    (44, Some(0), 44),
    (45, Some(0), 45),
    (47, Some(0), 47),
    (20, Some(45), 47),
    (27, Some(0), 49),
    (52, Some(47), 49),
    (48, Some(0), 51),
    (13, Some(49), 51),
    (5, Some(0), 52),
];

/// Entries of elements 1 to 101 and of one more, in no order.
const OPENING: [(u32, u32); 102] = [
    (84, 3143461705),
    (73, 1800581262),
    (52, 500398016),
    (59, 1807131615),
    (55, 2022543),
    (900, 3712286007),
    (48, 0),
    (50, 904993523),
    (89, 0),
    (70, 180851702),
    (54, 915873308),
    (92, 0),
    (38, 3318676953),
    (53, 3566066164),
    (28, 0),
    (29, 0),
    (35, 896502738),
    (20, 66610958),
    (10, 1596456713),
    (63, 546410408),
    (11, 3574955678),
    (74, 3721699413),
    (22, 785239051),
    (40, 1334924301),
    (49, 3512432627),
    (86, 3115530476),
    (3, 680647997),
    (47, 2950530868),
    (93, 3788976144),
    (23, 0),
    (88, 0),
    (16, 0),
    (83, 166200090),
    (34, 1023951100),
    (14, 1103726703),
    (75, 3537841185),
    (45, 1260295231),
    (44, 0),
    (71, 542884617),
    (90, 0),
    (56, 1203533129),
    (65, 3940031950),
    (7, 0),
    (37, 297015553),
    (100, 1767063625),
    (96, 0),
    (62, 200137480),
    (33, 1211017057),
    (15, 2280643180),
    (80, 395962153),
    (17, 594459168),
    (46, 1421483637),
    (78, 0),
    (36, 0),
    (27, 2039219967),
    (18, 3010643308),
    (67, 0),
    (64, 0),
    (91, 0),
    (43, 3137464950),
    (1, 1369684369),
    (32, 0),
    (85, 1946010005),
    (41, 0),
    (30, 3866311865),
    (26, 3407054420),
    (57, 0),
    (42, 2942679461),
    (99, 0),
    (4, 3741351419),
    (31, 0),
    (95, 3708586901),
    (5, 0),
    (8, 2684185113),
    (9, 0),
    (68, 0),
    (2, 0),
    (21, 0),
    (87, 1104679630),
    (51, 3127625597),
    (77, 1668321344),
    (6, 1892029705),
    (82, 0),
    (69, 0),
    (12, 0),
    (19, 0),
    (39, 0),
    (98, 2135674963),
    (13, 0),
    (94, 1580339019),
    (79, 615126837),
    (81, 2226487960),
    (61, 3237423022),
    (97, 2834635462),
    (24, 2140229609),
    (25, 1404285184),
    (76, 2860014690),
    (66, 852575823),
    (101, 3451924174),
    (60, 3780726213),
    (72, 1651065685),
    (58, 2504426278),
];

/// Whether the pass by levels closes with the same entries as the pass on one thread.
fn agrees<R: Threads + Sync>(
    rt: &R,
    alloc: Global,
    plan: &Plan,
    opening: &[(u32, u32)],
) -> Result<bool, AllocError>
    requires proper { IsTrue (is_proper plan.now.places.items) }
    requires distinct { IsTrue (are_distinct opening.now) }
    requires entries { IsTrue (have_entries plan.now.places.items opening.now) }
{
    let work = Summing;
    let alone = pass_alone(alloc, &work, plan, Vec::from_slice(alloc, opening)?)?;
    let mut same = true;
    for workers in [1, 2, 4, 64] {
        let entries = Vec::from_slice(alloc, opening)?;
        let closing = by_levels(rt, alloc, &work, plan, entries, workers)?;
        if closing.as_slice() != alone.as_slice() {
            same = false;
        }
    }
    Ok(same)
}

pub(crate) fn plan_of(alloc: Global, table: &[(u32, Option<u32>, u32)]) -> Result<Plan, AllocError>
    ensures { IfOk result (λ plan. plan.places.items ≡ map (λ row. record { element = row.0; parent = row.1; end = row.2 }) table.now) }
{
    let mut places = Vec::new(alloc);
    for (element, parent, end) in table {
        places.push(Place {
            element: *element,
            parent: *parent,
            end: *end,
        })?;
    }
    Ok(Plan { places })
}

#[test]
fn wide_tree(rt: HostRuntime) -> Result<(), Fail> {
    let plan = plan_of(rt.alloc(), &WIDE)?;
    assert!(rt; agrees(&rt, rt.alloc(), &plan, &OPENING)?);
    Ok(())
}

#[test]
fn deep_tree(rt: HostRuntime) -> Result<(), Fail> {
    let plan = plan_of(rt.alloc(), &DEEP)?;
    assert!(rt; agrees(&rt, rt.alloc(), &plan, &OPENING)?);
    Ok(())
}

#[test]
fn random_tree(rt: HostRuntime) -> Result<(), Fail> {
    let plan = plan_of(rt.alloc(), &RANDOM)?;
    assert!(rt; agrees(&rt, rt.alloc(), &plan, &OPENING)?);
    Ok(())
}
