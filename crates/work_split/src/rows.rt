//! Where an element's entry stands.

ghost use Rattle.std.specs.Prelude.{◌≡◌, ◌<◌, ◌≤◌, length, map, slice_get, IfSome, IsNone, IsSome, None, Some};
ghost use Rattle.pass_core.specs.Passes.{value_for};

/// The index of the element's entry, which is looked for from an index on, and then before it: entries in the order of the
/// plan are found at once.
pub(crate) fn row_of<E>(entries: &[(u32, E)], element: u32, from: usize) -> usize
    requires there { IsSome (value_for entries.now element) }
    requires from { from ≤ length entries.now }
    ensures within { result < length entries.now }
    ensures here { slice_get (map (λ entry. entry.0) entries.now) result ≡ Some element }
{
    let (before, after) = entries.split_at(from);
    match position(after, element) {
        Some(index) => from + index,
        None => position(before, element).unwrap_or(0),
    }
}

/// The first index at which the element stands.
fn position<E>(entries: &[(u32, E)], element: u32) -> Option<usize>
    ensures some { IfSome result (λ i. slice_get (map (λ entry. entry.0) entries.now) i ≡ Some element) }
    ensures none { IsNone result → value_for entries.now element ≡ None }
{
    for (i, entry) in entries.iter().enumerate() {
        if entry.0 == element {
            return Some(i);
        }
    }
    None
}
