//! What a transcript tells.
ghost use Rattle.std.specs.Prelude.{◌≡◌, ◌++◌, OnErr, OnOk};
ghost use Rattle.transcript_text.specs.Items.{line_of};

use crate::animations::{write_animation, write_gone};
use crate::event::write_event;
use crate::refused::write_refused;
use crate::transitions::{write_completed, write_running};
use crate::value::{write_value, write_work};
use script_text::Refusal;
use std::alloc::AllocError;
use style_data::{Animation, Completed, Event, Gone, Running};
use value_types::{PropertyId, Value};

/// What a line of a transcript tells. A node is an element's number.
#[derive(Drop)]
pub enum Item {
    /// An event that a frame sent.
    Event(Event),
    /// How many elements a frame updated.
    Work {
        frame: u32,
        updated: u32,
    },
    /// The value that an element has of a property.
    Value {
        node: u32,
        property: PropertyId,
        value: Value,
    },
    /// A running transition.
    Running {
        node: u32,
        property: PropertyId,
        running: Running,
    },
    /// A completed transition.
    Completed {
        node: u32,
        property: PropertyId,
        completed: Completed,
    },
    /// An animation.
    Animation {
        node: u32,
        animation: Animation,
    },
    /// A cancelled transition or animation that waits for its event.
    Gone {
        node: u32,
        gone: Gone,
    },
    /// A refused line of the script, by its number.
    Refused {
        line: u32,
        refusal: Refusal,
    },
}

/// Appends the line of an item. Where memory runs out nothing is appended.
pub fn write_line(out: &mut Vec<u8>, item: &Item) -> Result<(), AllocError>
    ensures ok { OnOk result (out.new.items ≡ out.old.items ++ line_of item.now) }
    ensures err { OnErr result (out.new.items ≡ out.old.items) }
{
    match item {
        Item::Event(event) => write_event(out, event),
        Item::Work { frame, updated } => write_work(out, *frame, *updated),
        Item::Value {
            node,
            property,
            value,
        } => write_value(out, *node, *property, *value),
        Item::Running {
            node,
            property,
            running,
        } => write_running(out, *node, *property, running),
        Item::Completed {
            node,
            property,
            completed,
        } => write_completed(out, *node, *property, completed),
        Item::Animation { node, animation } => write_animation(out, *node, animation),
        Item::Gone { node, gone } => write_gone(out, *node, gone),
        Item::Refused { line, refusal } => write_refused(out, *line, refusal),
    }
}
