//! Winners of the cascade.

use value_types::Declared;

/// The declarations of one property that win among the important and among the normal ones (CSS Cascade 5,
/// section 6).
#[derive(Clone, Copy, PartialEq, Eq)]
pub struct Winners {
    pub important: Option<Declared>,
    pub normal: Option<Declared>,
}
