//! Why a value isn't read.

use thiserror::Error;

/// Why the reader of a value answers none. The first three are tested in this order.
#[derive(Clone, Copy, Debug, PartialEq, Eq, Error)]
pub enum ValueFault {
    /// Nothing of the wanted type has this spelling.
    #[error("unsupported value")]
    Unsupported,
    /// A list has more than 32 items.
    #[error("more than 32 items")]
    BoundItems,
    /// A number passes its limit.
    #[error("a number out of bounds")]
    Bound,
    /// Memory ran out.
    #[error("out of memory")]
    NoMemory,
}
