//! Changes of one element.

ghost use Rattle.std.specs.Prelude.{◌≡◌, ◌<◌, ◌≤◌, ◌↔◌, ◌++◌, [], ◌∷◌, length, map, bytes_eq, option_map, take, IfOk, IfSome, IfNone, OnOk, OnErr};
ghost use Rattle.std.specs.String.{string_bytes};
ghost use Rattle.std.specs.List.{list_any};
ghost use Rattle.doc_tree.specs.Change.{each_once, with_classes, with_id, with_style};
ghost use Rattle.doc_tree.specs.Fault.{Answers, fault_of_change, fault_of_classes};
ghost use Rattle.doc_tree.specs.Marks.{document_of, kept_of, with_element, AreMarksOfTree};

use crate::fault::TreeFault;
use crate::limits::{MAX_CLASSES, MAX_STYLE_BYTES};
use crate::nodes::Nodes;
use crate::slots::slot_of;
use std::alloc::{AllocError, Global};

/// Gives the element in the slot this style text.
fn put_style(nodes: &mut Nodes, slot: usize, text: String)
    requires { slot < length nodes.old.slots.items }
    ensures { kept_of nodes.new ≡ with_element (kept_of nodes.old) slot (λ e. record e { style = string_bytes text }) }
{
    if let Some(node) = &mut nodes.slots[slot] {
        node.element.set_style(text);
    }
}

/// Gives the element in the slot this id, or none.
fn put_id(nodes: &mut Nodes, slot: usize, id: Option<String>)
    requires { slot < length nodes.old.slots.items }
    ensures { kept_of nodes.new ≡ with_element (kept_of nodes.old) slot (λ e. record e { id = option_map string_bytes id }) }
{
    if let Some(node) = &mut nodes.slots[slot] {
        node.element.set_id(id);
    }
}

/// Gives the element in the slot these classes.
fn put_classes(nodes: &mut Nodes, slot: usize, names: Vec<String>)
    requires { slot < length nodes.old.slots.items }
    ensures { kept_of nodes.new ≡ with_element (kept_of nodes.old) slot (λ e. record e { classes = map string_bytes names.items }) }
{
    if let Some(node) = &mut nodes.slots[slot] {
        node.element.set_classes(names);
    }
}

/// Replaces the style text of element `n`.
pub fn set_style_of(alloc: Global, nodes: &mut Nodes, n: u32, text: &str) -> Result<(), TreeFault>
    requires sound { AreMarksOfTree (kept_of nodes.old) }
    requires short { length text.now ≤ MAX_STYLE_BYTES }
    ensures sound { AreMarksOfTree (kept_of nodes.new) }
    ensures fault { Answers (fault_of_change (document_of (kept_of nodes.old)).elements n) result }
    ensures ok { OnOk result (document_of (kept_of nodes.new) ≡ with_style (document_of (kept_of nodes.old)) n text.now) }
    ensures err { OnErr result (kept_of nodes.new ≡ kept_of nodes.old) }
{
    let Some(slot) = slot_of(nodes, n) else {
        return Err(TreeFault::UnknownNode);
    };
    let Ok(style) = String::from_str(alloc, text) else {
        return Err(TreeFault::NoMemory);
    };
    put_style(nodes, slot, style);
    Ok(())
}

/// The text in memory of its own, where there is one.
fn owned(alloc: Global, text: Option<&str>) -> Result<Option<String>, AllocError>
    ensures { IfOk result (λ copy. option_map string_bytes copy ≡ option_map (λ t. t.now) text.entry) }
{
    match text {
        None => Ok(None),
        Some(text) => Ok(Some(String::from_str(alloc, text)?)),
    }
}

/// Replaces the id of element `n`; `None` takes it away.
pub fn set_id_of(
    alloc: Global,
    nodes: &mut Nodes,
    n: u32,
    id: Option<&str>,
) -> Result<(), TreeFault>
    requires { AreMarksOfTree (kept_of nodes.old) }
    ensures sound { AreMarksOfTree (kept_of nodes.new) }
    ensures fault { Answers (fault_of_change (document_of (kept_of nodes.old)).elements n) result }
    ensures ok { OnOk result (document_of (kept_of nodes.new) ≡ with_id (document_of (kept_of nodes.old)) n (option_map (λ text. text.now) id.entry)) }
    ensures err { OnErr result (kept_of nodes.new ≡ kept_of nodes.old) }
{
    let Some(slot) = slot_of(nodes, n) else {
        return Err(TreeFault::UnknownNode);
    };
    let Ok(id) = owned(alloc, id) else {
        return Err(TreeFault::NoMemory);
    };
    put_id(nodes, slot, id);
    Ok(())
}

/// Keeps each of the names once, in the order of first appearance, at the front of `kept`, and answers how many they
/// are; `None` where there are more than fit.
fn keep_once<'a>(names: &[&'a str], kept: &mut [&'a str]) -> Option<usize>
    ensures kept { IfSome result (λ n. map (λ t. t.now) (take n kept.new) ≡ each_once (map (λ t. t.now) names.now)) }
    ensures within { IfSome result (λ n. n ≤ length kept.new) }
    ensures full { IfNone result (length kept.old < length (each_once (map (λ t. t.now) names.now))) }
{
    let mut count = 0;
    for name in names {
        if !is_among(&kept[..count], name) {
            if count >= kept.len() {
                return None;
            }
            kept[count] = *name;
            count += 1;
        }
    }
    Some(count)
}

/// Whether the name is one of these.
fn is_among(names: &[&str], name: &str) -> bool
    ensures { result ≡ list_any (λ x. bytes_eq x name.now) (map (λ t. t.now) names.now) }
{
    names.contains(&name)
}

/// The names in memory of their own.
fn owned_names(alloc: Global, names: &[&str]) -> Result<Vec<String>, AllocError>
    ensures { IfOk result (λ copies. map string_bytes copies.items ≡ map (λ t. t.now) names.now) }
{
    let mut copies = Vec::new(alloc);
    for name in names {
        copies.push(String::from_str(alloc, name)?)?;
    }
    Ok(copies)
}

/// Replaces the classes of element `n`.
pub fn set_classes_of(
    alloc: Global,
    nodes: &mut Nodes,
    n: u32,
    names: &[&str],
) -> Result<(), TreeFault>
    requires { AreMarksOfTree (kept_of nodes.old) }
    ensures sound { AreMarksOfTree (kept_of nodes.new) }
    ensures fault { Answers (fault_of_classes (document_of (kept_of nodes.old)).elements n (map (λ text. text.now) names.now)) result }
    ensures ok { OnOk result (document_of (kept_of nodes.new) ≡ with_classes (document_of (kept_of nodes.old)) n (map (λ text. text.now) names.now)) }
    ensures err { OnErr result (kept_of nodes.new ≡ kept_of nodes.old) }
{
    let Some(slot) = slot_of(nodes, n) else {
        return Err(TreeFault::UnknownNode);
    };
    let mut kept = [""; MAX_CLASSES];
    let Some(count) = keep_once(names, &mut kept) else {
        return Err(TreeFault::BoundClasses);
    };
    let Ok(classes) = owned_names(alloc, &kept[..count]) else {
        return Err(TreeFault::NoMemory);
    };
    put_classes(nodes, slot, classes);
    Ok(())
}
