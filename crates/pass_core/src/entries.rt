//! Where an element's entry stands.

ghost use Rattle.std.specs.Prelude.{◌≡◌, ◌<◌, drop, length, IfSome, IsNone, IsSome};
ghost use Rattle.std.specs.List.{HoldsAt};
ghost use Rattle.pass_core.specs.Passes.{value_for};

/// The index of the element's entry, which is looked for from `from` on, and then from the front: entries in the order of
/// the plan are found at once.
pub(crate) fn index_of<E>(entries: &[(u32, E)], element: u32, from: usize) -> usize
    requires { IsSome (value_for entries.now element) }
    ensures within { result < length entries.now }
    ensures here { HoldsAt (λ entry. entry.0 ≡ element) entries.now result }
{
    if let Some(index) = index_from(entries, element, from) {
        return index;
    }
    index_from(entries, element, 0).unwrap_or(0)
}

/// The first index from `from` on at which the element stands.
fn index_from<E>(entries: &[(u32, E)], element: u32, from: usize) -> Option<usize>
    ensures within { IfSome result (λ i. i < length entries.now) }
    ensures here { IfSome result (λ i. HoldsAt (λ entry. entry.0 ≡ element) entries.now i) }
    ensures none { IsNone result → value_for (drop from entries.now) element ≡ None }
{
    for i in from..entries.len() {
        if entries[i].0 == element {
            return Some(i);
        }
    }
    None
}
