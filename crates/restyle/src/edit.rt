//! Edits of a world.

ghost use Rattle.std.specs.Prelude.{◌≡◌, ◌≤◌, None, IfErr, IfOk, IsSomeAnd, OnOk, length, map, option_copied, option_map};
ghost use Rattle.doc_tree.specs.declared.limits.TheConstants.{MAX_STYLE_BYTES};
ghost use Rattle.script_text.specs.Bounds.{IsSheetNumber};
ghost use Rattle.script_text.specs.Commands.{AreInBounds, IsNoLongerThan};
ghost use Rattle.sheet_rules.specs.Faults.{Gives};
ghost use Rattle.style_data.specs.Transitions.{IsMoment};
ghost use Rattle.restyle.specs.Edits.{AnswersEdit, refusal_of_question, refusal_of_style, sheet_found};
ghost use Rattle.restyle.specs.States.{IsFaultOf, IsKeptState, IsTouched, edit_fault_of_css, edit_fault_of_tree, world_of};

use crate::edit_fault::EditFault;
use crate::state::{Removed, WorldState};
use crate::world_laws::worlds_stay_distinct;
use doc_tree::{Tree, TreeFault, laws};
use fix_num::Micros;
use script_text::{Command, Refusal, ScriptName};
use sheet_rules::{CssFault, Sheet, read_sheet, read_style};
use std::alloc::{AllocError, Global};
use timing_types::Items;

/// Edits the world, or says why it isn't edited.
pub(crate) fn edit(state: &mut WorldState, alloc: Global, c: &Command) -> Result<(), EditFault>
    requires kept { IsKeptState state.old }
    requires numbers { AreInBounds c.now }
    requires text { IsNoLongerThan MAX_STYLE_BYTES c.now }
    ensures answer { AnswersEdit (world_of state.old) (world_of state.new) c.now result }
    ensures kept { IsKeptState state.new }
{
    match c {
        Command::Blank | Command::Frame => Ok(()),
        Command::Add { node, parent, tag } => add(state, *node, *parent, tag.as_str()),
        Command::Insert { node, sibling, tag } => insert(state, *node, *sibling, tag.as_str()),
        Command::Remove(node) => remove(state, *node),
        Command::Id { node, name } => set_id(state, *node, name.as_ref()),
        Command::Class { node, names } => set_classes(state, alloc, *node, names.as_slice()),
        Command::Style { node, text } => set_style(state, alloc, *node, text.as_str()),
        Command::Sheet { number, text } => set_sheet(state, alloc, *number, text.as_str()),
        Command::At(time) => set_time(state, *time),
        Command::Get { node, property: _ } | Command::List(node) => answer_question(state, *node),
    }
}

fn tree_fault(fault: TreeFault) -> EditFault
    ensures { result ≡ edit_fault_of_tree fault }
{
    match fault {
        TreeFault::UnknownNode => EditFault::Refused(Refusal::UnknownNode),
        TreeFault::NodeTaken => EditFault::Refused(Refusal::NodeTaken),
        TreeFault::BoundNodes => EditFault::Refused(Refusal::BoundNodes),
        TreeFault::BoundDepth => EditFault::Refused(Refusal::BoundDepth),
        TreeFault::BoundRoot => EditFault::Refused(Refusal::BoundRoot),
        TreeFault::BoundClasses => EditFault::Refused(Refusal::BoundClasses),
        TreeFault::NoMemory => EditFault::NoMemory,
    }
}

fn css_fault(fault: CssFault) -> EditFault
    ensures { result ≡ edit_fault_of_css fault }
{
    match fault {
        CssFault::NoMemory => EditFault::NoMemory,
        fault => EditFault::Refused(Refusal::Css(fault)),
    }
}

/// Notes that the node was added or edited. Where there is no memory for that, the next frame takes it that anything may have changed.
fn touch(state: &mut WorldState, node: u32)
    ensures { IsTouched state.old node state.new }
{
    if state.quiet && state.touched.insert(node).is_err() {
        state.quiet = false;
    }
}

fn add(state: &mut WorldState, node: u32, parent: Option<u32>, tag: &str) -> Result<(), EditFault>
    requires kept { IsKeptState state.old }
    ensures answer { AnswersEdit (world_of state.old) (world_of state.new) (Command.Add node parent tag.now) result }
    ensures kept { IsKeptState state.new }
{
    worlds_stay_distinct();
    laws::adds_keep_ancestors();
    match state.tree.add(node, parent, tag) {
        Ok(()) => {
            let _ = state.tree.len();
            touch(state, node);
            Ok(())
        }
        Err(fault) => Err(tree_fault(fault)),
    }
}

fn insert(state: &mut WorldState, node: u32, sibling: u32, tag: &str) -> Result<(), EditFault>
    requires kept { IsKeptState state.old }
    ensures answer { AnswersEdit (world_of state.old) (world_of state.new) (Command.Insert node sibling tag.now) result }
    ensures kept { IsKeptState state.new }
{
    worlds_stay_distinct();
    laws::inserts_keep_ancestors();
    match state.tree.insert(node, sibling, tag) {
        Ok(()) => {
            let _ = state.tree.len();
            touch(state, node);
            Ok(())
        }
        Err(fault) => Err(tree_fault(fault)),
    }
}

/// Takes the node and all below it out of the tree. What they ran is cancelled at the current time; the items of that are made at the next frame.
fn remove(state: &mut WorldState, node: u32) -> Result<(), EditFault>
    requires kept { IsKeptState state.old }
    ensures answer { AnswersEdit (world_of state.old) (world_of state.new) (Command.Remove node) result }
    ensures kept { IsKeptState state.new }
{
    worlds_stay_distinct();
    laws::removals_keep_ancestors();
    let Ok(()) = state.removed.reserve(1) else {
        return Err(EditFault::NoMemory);
    };
    match state.tree.remove(node) {
        Ok(numbers) => {
            let _ = state.tree.len();
            let time = state.time;
            state.removed.push(Removed { time, numbers }).unwrap();
            Ok(())
        }
        Err(fault) => Err(tree_fault(fault)),
    }
}

fn set_id(state: &mut WorldState, node: u32, name: Option<&ScriptName>) -> Result<(), EditFault>
    requires kept { IsKeptState state.old }
    ensures answer { AnswersEdit (world_of state.old) (world_of state.new) (Command.Id node (option_copied name.entry)) result }
    ensures kept { IsKeptState state.new }
{
    worlds_stay_distinct();
    match state.tree.set_id(node, id_text(name)) {
        Ok(()) => {
            let _ = state.tree.len();
            touch(state, node);
            Ok(())
        }
        Err(fault) => Err(tree_fault(fault)),
    }
}

/// The name as a text, if there is one.
fn id_text(name: Option<&ScriptName>) -> Option<&str>
    ensures { option_map (λ text. text.now) result ≡ option_copied name.entry }
{
    match name {
        None => None,
        Some(name) => Some(name.as_str()),
    }
}

fn set_classes(
    state: &mut WorldState,
    alloc: Global,
    node: u32,
    names: &[ScriptName],
) -> Result<(), EditFault>
    requires kept { IsKeptState state.old }
    ensures answer { AnswersEdit (world_of state.old) (world_of state.new) (Command.Class node names.now) result }
    ensures kept { IsKeptState state.new }
{
    worlds_stay_distinct();
    let Ok(words) = words_of(alloc, names) else {
        return Err(EditFault::NoMemory);
    };
    match state.tree.set_class(node, words.as_slice()) {
        Ok(()) => {
            let _ = state.tree.len();
            touch(state, node);
            Ok(())
        }
        Err(fault) => Err(tree_fault(fault)),
    }
}

/// The names as texts.
fn words_of<'a>(alloc: Global, names: &'a [ScriptName]) -> Result<Vec<&'a str>, AllocError>
    ensures { IfOk result (λ words. map (λ word. word.now) words.items ≡ names.now) }
{
    let mut words = Vec::new(alloc);
    for name in names {
        words.push(name.as_str())?;
    }
    Ok(words)
}

fn set_style(state: &mut WorldState, alloc: Global, node: u32, text: &str) -> Result<(), EditFault>
    requires kept { IsKeptState state.old }
    requires text { length text.now ≤ MAX_STYLE_BYTES }
    ensures answer { AnswersEdit (world_of state.old) (world_of state.new) (Command.Style node text.now) result }
    ensures kept { IsKeptState state.new }
{
    worlds_stay_distinct();
    if let Err(fault) = check_style(&state.tree, alloc, node, text) {
        return Err(fault);
    }
    match state.tree.set_style(node, text) {
        Ok(()) => {
            let _ = state.tree.len();
            touch(state, node);
            Ok(())
        }
        Err(fault) => Err(tree_fault(fault)),
    }
}

/// Whether the node may have this style text.
fn check_style(tree: &Tree, alloc: Global, node: u32, text: &str) -> Result<(), EditFault>
    requires { length text.now ≤ MAX_STYLE_BYTES }
    ensures ok { OnOk result (refusal_of_style tree.now node text.now ≡ None) }
    ensures err { IfErr result (IsFaultOf (refusal_of_style tree.now node text.now)) }
{
    if tree.contains(node) {
        match read_style(alloc, text) {
            Ok(_) => Ok(()),
            Err(fault) => Err(css_fault(fault)),
        }
    } else {
        Err(EditFault::Refused(Refusal::UnknownNode))
    }
}

fn set_sheet(
    state: &mut WorldState,
    alloc: Global,
    number: u32,
    text: &str,
) -> Result<(), EditFault>
    requires kept { IsKeptState state.old }
    requires number { IsSheetNumber number }
    requires text { length text.now ≤ MAX_STYLE_BYTES }
    ensures answer { AnswersEdit (world_of state.old) (world_of state.new) (Command.Sheet number text.now) result }
    ensures kept { IsKeptState state.new }
{
    worlds_stay_distinct();
    match sheet_from(alloc, text) {
        Ok(sheet) => {
            state.sheets.put(number, sheet);
            state.quiet = false;
            Ok(())
        }
        Err(fault) => Err(css_fault(fault)),
    }
}

/// The sheet that a text is; an empty one is none.
fn sheet_from(alloc: Global, text: &str) -> Result<Option<Sheet>, CssFault>
    requires { length text.now ≤ MAX_STYLE_BYTES }
    ensures { Gives (λ sheet. sheet) result (sheet_found text.now) }
{
    if text.is_empty() {
        return Ok(None);
    }
    match read_sheet(alloc, text) {
        Ok(sheet) => Ok(Some(sheet)),
        Err(fault) => Err(fault),
    }
}

fn set_time(state: &mut WorldState, time: Micros) -> Result<(), EditFault>
    requires kept { IsKeptState state.old }
    requires time { IsMoment time.0 }
    ensures answer { AnswersEdit (world_of state.old) (world_of state.new) (Command.At time) result }
    ensures kept { IsKeptState state.new }
{
    worlds_stay_distinct();
    if time < state.time {
        return Err(EditFault::Refused(Refusal::TimeBack(state.time)));
    }
    state.time = time;
    Ok(())
}

/// What is asked of a node changes nothing.
fn answer_question(state: &WorldState, node: u32) -> Result<(), EditFault>
    ensures ok { OnOk result (refusal_of_question (world_of state.now) node ≡ None) }
    ensures err { IfErr result (λ fault. IsSomeAnd (refusal_of_question (world_of state.now) node) (λ r. fault ≡ EditFault.Refused r)) }
{
    match state.entry(node) {
        Ok(_) => Ok(()),
        Err(refusal) => Err(EditFault::Refused(refusal)),
    }
}
