//! What is cut off the front of a buffer.

/// The place of a text in a buffer.
#[derive(Clone, Copy)]
pub(crate) struct Span {
    pub(crate) from: usize,
    pub(crate) to: usize,
}

/// The next line, or the end of the bytes.
#[derive(Clone, Copy)]
pub(crate) enum Cut {
    Text(Span),
    Long,
    End,
}
