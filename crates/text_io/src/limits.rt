//! The bytes that end a line, and the limits.

/// Ends a line.
pub const LINE_FEED: u8 = b'\n';

/// Is no part of a line's text directly before the line feed.
pub const CARRIAGE_RETURN: u8 = b'\r';

/// At most so many bytes stand in a line before its line feed, a carriage return among them.
pub const MAX_LINE: usize = 1_048_576;

/// At most so many bytes are read as lines.
pub const MAX_INPUT: usize = 67_108_864;
