//! Frames.

ghost use Rattle.std.specs.Prelude.{◌≡◌, [], ◌∷◌, ◌++◌, IfOk, IfSome, OnOk, map, slice_get};
ghost use Rattle.doc_tree.specs.Element.{numbers_of};
ghost use Rattle.sheet_types.specs.Sheets.{no_sheets};
ghost use Rattle.style_data.specs.Entries.{fresh_entry};
ghost use Rattle.style_data.specs.Transitions.{IsMoment};
ghost use Rattle.restyle.specs.StyleChanges.{frame_parts, fresh_entries};

use doc_tree::Tree;
use fix_num::Micros;
use sheet_types::Sheets;
use std::alloc::{AllocError, Global};
use std::marker::Model;
use style_data::Entry;

/// What a style change event is of: a document, its sheets at the event before and now, and the entries of its elements.
#[derive(Drop)]
pub struct FrameContent {
    pub tree: Tree,
    /// The sheets of the event before.
    pub old: Sheets,
    pub sheets: Sheets,
    /// The entries of the elements by their numbers, in tree order.
    pub entries: Vec<(u32, Entry)>,
    /// The time in microseconds.
    pub time: Micros,
    /// The number of the frame.
    pub generation: u32,
}

/// A frame whose entries are those of the tree's elements, in tree order, at a time of 0 to 10^15 microseconds. Contracts see
/// it as what it is of.
#[derive(Drop)]
pub struct Frame {
    content: FrameContent,
}

impl Model for Frame {
    ghost use Rattle.std.specs.Prelude.{◌≡◌, map};
    ghost use Rattle.doc_tree.specs.Element.{numbers_of};
    ghost use Rattle.style_data.specs.Transitions.{IsMoment};
    ghost use Rattle.restyle.specs.StyleChanges.{FrameParts, frame_parts};

    ghost Value = { FrameParts };

    ghost view = { λ f. frame_parts f.content.tree f.content.old f.content.sheets f.content.entries.items f.content.time f.content.generation };

    ghost invariant = { λ f. IsMoment f.content.time.0 × (map (λ x. x.0) f.content.entries.items ≡ numbers_of f.content.tree.elements) };
}

impl Frame {
    /// The frame of this content. Takes no memory.
    pub fn new(content: FrameContent) -> Frame
        requires time { IsMoment content.time.0 }
        requires entries { map (λ x. x.0) content.entries.items ≡ numbers_of content.tree.elements }
        ensures { result ≡ frame_parts content.tree content.old content.sheets content.entries.items content.time content.generation }
    {
        Frame { content }
    }

    /// The frame of a document that no frame has styled.
    pub fn first(
        alloc: Global,
        tree: Tree,
        sheets: Sheets,
        time: Micros,
        generation: u32,
    ) -> Result<Frame, AllocError>
        requires { IsMoment time.0 }
        ensures { IfOk result (λ f. f ≡ frame_parts tree no_sheets sheets (fresh_entries tree) time generation) }
    {
        let entries = fresh_entries(alloc, &tree)?;
        Ok(Frame::new(FrameContent {
            tree,
            old: Sheets::empty(),
            sheets,
            entries,
            time,
            generation,
        }))
    }

    /// Its content. Takes no memory.
    pub fn into_content(self) -> FrameContent
        ensures value { self ≡ frame_parts result.tree result.old result.sheets result.entries.items result.time result.generation }
        ensures time { IsMoment result.time.0 }
        ensures entries { map (λ x. x.0) result.entries.items ≡ numbers_of result.tree.elements }
    {
        let Frame { content } = self;
        content
    }
}

/// An entry for each element, in tree order, which no frame has styled.
fn fresh_entries(alloc: Global, tree: &Tree) -> Result<Vec<(u32, Entry)>, AllocError>
    ensures value { IfOk result (λ entries. entries.items ≡ fresh_entries tree.now) }
    ensures numbers { IfOk result (λ entries. map (λ x. x.0) entries.items ≡ numbers_of tree.now.elements) }
{
    let mut entries = Vec::new(alloc);
    for at in 0..tree.len() {
        push_fresh(alloc, &mut entries, tree, at)?;
    }
    Ok(entries)
}

/// Appends a fresh entry for the element that stands there in tree order, from 0.
fn push_fresh(
    alloc: Global,
    entries: &mut Vec<(u32, Entry)>,
    tree: &Tree,
    at: usize,
) -> Result<(), AllocError>
    ensures { OnOk result (IfSome (slice_get tree.now.elements at) (λ e. entries.new.items ≡ entries.old.items ++ (e.number, fresh_entry) ∷ [])) }
{
    if let Some(element) = tree.at(at) {
        entries.push((element.number(), Entry::fresh(alloc)?))?;
    }
    Ok(())
}
