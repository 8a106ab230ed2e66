//! Why an edit of a world wasn't made.

use script_text::Refusal;
use thiserror::Error;

/// Why an edit of a world wasn't made. The world is as it was.
#[derive(Clone, Copy, Debug, PartialEq, Eq, Error)]
pub enum EditFault {
    /// It is refused.
    #[error("refused")]
    Refused(Refusal),
    /// Memory ran out.
    #[error("out of memory")]
    NoMemory,
}
