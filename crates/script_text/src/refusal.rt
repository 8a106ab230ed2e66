//! Why a line is refused.

use fix_num::Micros;
use sheet_rules::CssFault;
use thiserror::Error;

/// Why a line of the script is refused, in the order of the tests. A refused line changes nothing.
#[derive(Clone, Copy, Debug, PartialEq, Eq, Error)]
pub enum Refusal {
    /// The line is too long.
    #[error("line too long")]
    BoundLine,
    /// The line isn't in the grammar.
    #[error("not in the grammar")]
    Syntax,
    /// A number of a node or a sheet, or the time, is out of its bounds.
    #[error("number out of bounds")]
    BoundNumber,
    /// A named node, other than the new one, isn't in the tree.
    #[error("unknown node")]
    UnknownNode,
    /// The new number was added before.
    #[error("node number taken")]
    NodeTaken,
    /// The time is less than the current one, which this is.
    #[error("time goes back")]
    TimeBack(Micros),
    /// The style text or the sheet has this first fault; never want of memory.
    #[error("faulty text")]
    Css(CssFault),
    /// The tree would have too many nodes.
    #[error("too many nodes")]
    BoundNodes,
    /// The node would stand too deep.
    #[error("too deep")]
    BoundDepth,
    /// There would be a second root.
    #[error("a second root")]
    BoundRoot,
    /// The node would have too many classes.
    #[error("too many classes")]
    BoundClasses,
    /// No frame has styled the node.
    #[error("not styled")]
    NoStyle,
}

/// Why a line is no command.
#[derive(Clone, Copy, Debug, PartialEq, Eq, Error)]
pub enum ReadCommandFault {
    /// It is refused.
    #[error("refused")]
    Refused(Refusal),
    /// Memory ran out.
    #[error("out of memory")]
    NoMemory,
}
