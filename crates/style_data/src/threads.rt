//! What may be shared between threads.

use crate::effects::Effects;
use crate::entry::Entry;
use computed_style::{DeclaredSet, Down, Style, Winning};

fn may_be_shared<T: Send + Sync + Drop>() {}

/// Entries, what they are made of and what an element hands down may be sent to other threads, be read by
/// several at once, and be dropped: each call below would be refused otherwise.
pub fn entries_may_be_shared() {
    may_be_shared::<Entry>();
    may_be_shared::<Effects>();
    may_be_shared::<Style>();
    may_be_shared::<DeclaredSet>();
    may_be_shared::<Winning>();
    may_be_shared::<Down>();
}
