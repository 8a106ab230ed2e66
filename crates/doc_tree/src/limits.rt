/// The most elements of a document.
pub const MAX_ELEMENTS: usize = 65_536;

/// The greatest depth of an element; the root has depth 1.
pub const MAX_DEPTH: u32 = 256;

/// The most classes of an element.
pub const MAX_CLASSES: usize = 16;

/// The most bytes of a style text.
pub const MAX_STYLE_BYTES: usize = 67_108_864;

/// The most numbers that a tree keeps as used. So many take more than 100 gigabytes; the next is want of memory.
pub const MAX_SLOTS: usize = 2_147_483_646;
