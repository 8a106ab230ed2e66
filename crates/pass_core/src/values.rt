//! Lists by elements.

ghost use Rattle.std.specs.Prelude.{◌≡◌, option_copied};
ghost use Rattle.pass_core.specs.Passes.{value_for, with_value, IsIndexOf};

/// What stands for the element in the list.
pub(crate) fn value_for<X>(values: &[(u32, X)], element: u32) -> Option<&X>
    ensures { option_copied result ≡ value_for values.now element }
{
    for value in values {
        if value.0 == element {
            return Some(&value.1);
        }
    }
    None
}

/// Puts another value for the element into the list, if it stands there.
pub(crate) fn put_value<X: Drop>(values: &mut Vec<(u32, X)>, element: u32, new: X)
    ensures { values.new.items ≡ with_value values.old.items element new }
{
    if let Some(at) = index_of(values.as_slice(), element) {
        values[at] = (element, new);
    }
}

/// The index of the element in the list.
fn index_of<X>(values: &[(u32, X)], element: u32) -> Option<usize>
    ensures { IsIndexOf values.now element result }
{
    for (i, value) in values.iter().enumerate() {
        if value.0 == element {
            return Some(i);
        }
    }
    None
}
