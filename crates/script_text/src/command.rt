//! What a line of a script asks for.

use crate::script_name::ScriptName;
use crate::script_text::ScriptText;
use fix_num::Micros;
use timing_types::Items;
use value_types::PropertyId;

/// A line of a script. Numbers of nodes are 1 to [`MAX_NODE`](crate::limits::MAX_NODE).
#[derive(Drop)]
pub enum Command {
    /// A line that does nothing.
    Blank,
    /// The node becomes the last child of the parent, or the root.
    Add {
        node: u32,
        parent: Option<u32>,
        tag: ScriptName,
    },
    /// The node becomes the sibling directly before this one.
    Insert {
        node: u32,
        sibling: u32,
        tag: ScriptName,
    },
    /// The node and all below it leave the tree.
    Remove(u32),
    /// The node gets this id, or none.
    Id {
        node: u32,
        name: Option<ScriptName>,
    },
    /// The node gets these classes, as they were written, repeated ones included.
    Class {
        node: u32,
        names: Items<ScriptName>,
    },
    /// The node's style attribute becomes this text.
    Style {
        node: u32,
        text: ScriptText,
    },
    /// The sheet, 1 to [`MAX_SHEET`](crate::limits::MAX_SHEET), becomes this text; an empty one removes it.
    Sheet {
        number: u32,
        text: ScriptText,
    },
    /// The current time becomes this.
    At(Micros),
    /// A frame at the current time.
    Frame,
    /// The value that the last frame gave the property is written.
    Get {
        node: u32,
        property: PropertyId,
    },
    /// The transitions and animations of the node are written.
    List(u32),
}
