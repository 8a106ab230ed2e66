//! The errors of sources, sinks, lines and pieces.
use thiserror::Error;

/// A call of a source or a sink failed, and did nothing else.
#[derive(Clone, Copy, Debug, PartialEq, Eq, Error)]
#[error("the call failed")]
pub struct Failed;

/// Why there is no next line.
#[derive(Clone, Copy, Debug, PartialEq, Eq, Error)]
pub enum LineFault {
    /// A read failed.
    #[error("a read failed")]
    ReadFault,
    /// The source gave more than `MAX_INPUT` bytes.
    #[error("the input is too long")]
    TooMuch,
}

/// A write failed, or took no byte.
#[derive(Clone, Copy, Debug, PartialEq, Eq, Error)]
#[error("a write failed")]
pub struct WriteFault;
