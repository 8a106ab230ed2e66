//! Places of selectors.

/// Where a selector stands in a sheet.
#[derive(Clone, Copy, Debug, PartialEq, Eq)]
pub struct SelectorPlace {
    /// The index of its rule among the style rules.
    pub rule: usize,
    /// Its index among the rule's selectors.
    pub selector: usize,
}
