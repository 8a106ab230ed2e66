//! Frames of a world by workers, beside those on one thread.

ghost use Rattle.std.specs.Prelude.{◌<◌, ◌≤◌, IfOk, IfSome};
ghost use Rattle.doc_tree.specs.declared.limits.TheConstants.{MAX_STYLE_BYTES};
ghost use Rattle.script_text.specs.Commands.{AreInBounds, IsNoLongerThan};

use doc_tree::MAX_STYLE_BYTES;
use restyle::World;
use script_text::{Command, read_command};
use std::alloc::{AllocError, Global};
use std::test::Fail;
use std::thread::Threads;
use style_data::{Animation, Entry};
use value_types::PropertyId;

/// Under a root of another class its children have other values, of their own and inherited, and animations.
const SHEET: &str =
    "sheet 1 div { color: rgb(0, 0, 0); font-size: 10px } .on { color: rgb(200, 0, 0); font-size: 30px } p { opacity: 0; width: 2em; transition: opacity 2s linear, color 1s linear, width 4s linear } .on p { opacity: 1; animation: k 1s linear infinite } @keyframes k { from { height: 10px } to { height: 90px } }";

/// The last of the elements: the root and its 39 children come before it, and it stands below the last of these.
const LAST: u32 = 41;

/// The command of this line.
fn command_of(alloc: Global, line: &str) -> Result<Command, AllocError>
    ensures numbers { IfOk result AreInBounds }
    ensures text { IfOk result (IsNoLongerThan MAX_STYLE_BYTES) }
{
    if line.len() > MAX_STYLE_BYTES {
        return Err(AllocError);
    }
    match read_command(alloc, line.as_bytes()) {
        Ok(command) => Ok(command),
        Err(_) => Err(AllocError),
    }
}

/// Edits the world by this line.
fn edit(alloc: Global, world: &mut World, line: &str) -> Result<(), AllocError> {
    let command = command_of(alloc, line)?;
    match world.apply_edit(alloc, &command) {
        Ok(()) => Ok(()),
        Err(_) => Err(AllocError),
    }
}

/// The world with its elements and their sheet.
fn document(alloc: Global) -> Result<World, AllocError> {
    let mut world = World::new(alloc)?;
    edit(alloc, &mut world, SHEET)?;
    edit(alloc, &mut world, "add 1 - div")?;
    for n in 2..LAST {
        let Ok(line) = format!(in alloc; "add {n} 1 p") else {
            return Err(AllocError);
        };
        edit(alloc, &mut world, line.as_str())?;
    }
    edit(alloc, &mut world, "add 41 40 p")?;
    Ok(world)
}

/// The world after its next frame, by so many workers, or on one thread.
fn next<R: Threads + Sync>(
    rt: &R,
    alloc: Global,
    world: World,
    workers: Option<u32>,
) -> Result<World, AllocError>
    requires { IfSome workers (λ n. (0 < n) × (n ≤ 64)) }
{
    if world.frames() > 1000 {
        return Err(AllocError);
    }
    match workers {
        None => Ok(world.frame_alone(alloc)?.0),
        Some(workers) => Ok(world.frame(rt, alloc, workers)?.0),
    }
}

/// The world after its script: a frame, another class of the root and a frame, and one while transitions run.
fn played<R: Threads + Sync>(
    rt: &R,
    alloc: Global,
    workers: Option<u32>,
) -> Result<World, AllocError>
    requires { IfSome workers (λ n. (0 < n) × (n ≤ 64)) }
{
    let mut world = next(rt, alloc, document(alloc)?, workers)?;
    edit(alloc, &mut world, "class 1 on")?;
    let mut world = next(rt, alloc, world, workers)?;
    edit(alloc, &mut world, "at 300")?;
    next(rt, alloc, world, workers)
}

/// Whether both are the same animation, seen at the same place.
fn is_same_animation(one: &Animation, other: &Animation) -> bool {
    let (one, other) = (one.get(), other.get());
    one.place == other.place
        && one.start == other.start
        && one.generation == other.generation
        && one.position == other.position
        && one.seen == other.seen
        && one.iteration == other.iteration
}

/// Whether both have the same values, transitions and animations.
fn is_same_entry(one: &Entry, other: &Entry) -> bool {
    PropertyId::ALL
        .iter()
        .all(|p| one.now().value(*p) == other.now().value(*p))
        && one.rendered() == other.rendered()
        && one.running() == other.running()
        && one.completed() == other.completed()
        && one.animations().len() == other.animations().len()
        && one
            .animations()
            .iter()
            .zip(other.animations().iter())
            .all(|(a, b)| is_same_animation(a, b))
}

/// Whether node `n` has the same entry in both worlds.
fn is_same_node(one: &World, other: &World, n: u32) -> bool {
    match (one.entry(n), other.entry(n)) {
        (Ok(a), Ok(b)) => is_same_entry(a, b),
        _ => false,
    }
}

/// How many transitions run and how many animations there are at node `n`.
fn effects(world: &World, n: u32) -> (usize, usize) {
    match world.entry(n) {
        Ok(entry) => (entry.running().len(), entry.animations().len()),
        Err(_) => (0, 0),
    }
}

#[test]
fn workers_and_one_thread(rt: HostRuntime) -> Result<(), Fail> {
    let alone = played(&rt, rt.alloc(), None)?;
    assert!(rt; effects(&alone, 2) == (3, 1) && effects(&alone, LAST) == (3, 1));
    for workers in [1, 4, 64] {
        let world = played(&rt, rt.alloc(), Some(workers))?;
        assert!(rt; (1..=LAST).all(|n| is_same_node(&alone, &world, n)));
    }
    Ok(())
}
