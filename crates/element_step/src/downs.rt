//! What an element hands down.

ghost use Rattle.std.specs.Prelude.{◌≡◌, IfSome, IsTrue, false, option_copied, option_map};
ghost use Rattle.computed_style.specs.Styles.{inherited_of};
ghost use Rattle.value_types.specs.Ranges.{IsSize};
ghost use Rattle.change_styles.specs.Inheritance.{handed_down};
ghost use Rattle.element_step.specs.Restyling.{none_inherited};
ghost use Rattle.element_step.specs.Settling.{is_same_inherited};
ghost use Rattle.std.specs.Bool.{OnTrue};
ghost use Rattle.std.specs.Option.{option_map_or};
ghost use Rattle.element_step.specs.Updates.{after_parent, before_parent, changed_from, differs, down_told, down_with, now_parent, unless_leaf};

use change_styles::handed_down;
use fix_num::Fix;
use interpolation::same;
use style_data::{Down, Entry, Inherited, Running, Style};
use value_types::{PropertyId, is_inherited};

/// What the parent hands down of its before-change style; `None` of the root, and where it has none.
pub(crate) fn before_parent(parent: Option<&Down>) -> Option<&Inherited>
    ensures { option_copied result ≡ before_parent (option_copied parent.entry) }
{
    match parent {
        None => None,
        Some(down) => down.before.as_ref(),
    }
}

/// What the parent hands down of its after-change style; `None` of the root.
pub(crate) fn after_parent(parent: Option<&Down>) -> Option<&Inherited>
    ensures { option_copied result ≡ after_parent (option_copied parent.entry) }
{
    match parent {
        None => None,
        Some(down) => Some(&down.after),
    }
}

/// What the parent hands down of its current style; `None` of the root.
pub(crate) fn now_parent(parent: Option<&Down>) -> Option<&Inherited>
    ensures { option_copied result ≡ now_parent (option_copied parent.entry) }
{
    match parent {
        None => None,
        Some(down) => Some(&down.now),
    }
}

/// What the element's current style handed down, where the root had this font size; `None` where there was none.
fn handed_last(now: &Style, root_size: Option<Fix>) -> Option<Inherited>
    requires { IfSome root_size IsSize }
    ensures { result ≡ option_map (inherited_of now.now) root_size }
{
    match root_size {
        None => None,
        Some(size) => Some(now.inherited(size)),
    }
}

/// What an element hands down of its three styles, where it's told what the after-change and the current one hand down.
pub(crate) fn hand_down_told(
    entry: &Entry,
    root_size: Option<Fix>,
    before: Option<Inherited>,
    after: Option<&Inherited>,
    now: Option<&Inherited>,
    rendered: bool,
) -> Option<Down>
    requires { IfSome root_size IsSize }
    ensures { result ≡ down_told entry.now root_size before (option_copied after.entry) (option_copied now.entry) rendered }
{
    match (after, now) {
        (Some(after), Some(now)) => Some(hand_down(
            entry, root_size, before, *after, *now, rendered,
        )),
        _ => None,
    }
}

/// What an element hands down of its three styles, none of the before-change style where it wasn't rendered before.
fn hand_down(
    entry: &Entry,
    root_size: Option<Fix>,
    before: Option<Inherited>,
    after: Inherited,
    now: Inherited,
    rendered: bool,
) -> Down
    requires { IfSome root_size IsSize }
    ensures { result ≡ down_with entry.now root_size before after now rendered }
{
    Down {
        before,
        after,
        now,
        rendered,
        changed: is_changed(entry, root_size, before.as_ref(), after, now, rendered),
    }
}

/// Whether the elements below have to be updated for the element's sake: no frame had styled it, one of its styles hands
/// down something else than its current style did, or it is rendered now and wasn't, or was and isn't.
fn is_changed(
    entry: &Entry,
    root_size: Option<Fix>,
    before: Option<&Inherited>,
    after: Inherited,
    now: Inherited,
    rendered: bool,
) -> bool
    requires { IfSome root_size IsSize }
    ensures { result ≡ changed_from entry.now root_size (option_copied before.entry) after now rendered }
{
    let last = handed_last(entry.now(), root_size);
    let before_differs = before_differs(last.as_ref(), before);
    let after_differs = differs(last.as_ref(), after);
    let now_differs = differs(last.as_ref(), now);
    !entry.styled()
        || before_differs
        || after_differs
        || now_differs
        || rendered != entry.rendered()
}

fn before_differs(last: Option<&Inherited>, before: Option<&Inherited>) -> bool
    ensures { result ≡ option_map_or (differs (option_copied last.entry)) (option_copied before.entry) false }
{
    match before {
        None => false,
        Some(before) => differs(last, *before),
    }
}

/// Whether what is handed down now differs from what was.
fn differs(was: Option<&Inherited>, now: Inherited) -> bool
    ensures { result ≡ differs (option_copied was.entry) now }
{
    match was {
        None => true,
        Some(was) => !is_same_inherited(*was, now),
    }
}

/// What a style hands down; `None` of a leaf.
pub(crate) fn handed_unless_leaf(
    style: &Style,
    above: Option<&Inherited>,
    leaf: bool,
) -> Option<Inherited>
    ensures { result ≡ unless_leaf leaf (handed_down (option_copied above.entry) style.now) }
{
    if leaf {
        None
    } else {
        Some(handed_down(style, above))
    }
}

/// The same: it's this, where no running transition of an inherited property tells it apart.
pub(crate) fn handed_alike(
    style: &Style,
    above: Option<&Inherited>,
    running: &[(PropertyId, Running)],
    alike: Option<&Inherited>,
    leaf: bool,
) -> Option<Inherited>
    requires { IsTrue (none_inherited running.now) → option_copied alike ≡ unless_leaf leaf (handed_down (option_copied above) style.now) }
    ensures { result ≡ unless_leaf leaf (handed_down (option_copied above.entry) style.now) }
{
    if !leaf && none_inherited(running) {
        return alike.copied();
    }
    handed_unless_leaf(style, above, leaf)
}

/// Whether no transition of an inherited property runs.
pub(crate) fn none_inherited(running: &[(PropertyId, Running)]) -> bool
    ensures { result ≡ none_inherited running.now }
{
    running.iter().all(|item| !is_inherited(item.0))
}

/// Whether two styles inherit the same.
pub(crate) fn inherit_alike(a: Option<&Inherited>, b: Option<&Inherited>) -> bool
    ensures { OnTrue result (option_copied a.entry ≡ option_copied b.entry) }
{
    match (a, b) {
        (None, None) => true,
        (Some(a), Some(b)) => is_same_inherited(*a, *b),
        _ => false,
    }
}

fn is_same_inherited(a: Inherited, b: Inherited) -> bool
    ensures { result ≡ is_same_inherited a b }
{
    let (a, b) = (a.get(), b.get());
    same(a.color, b.color)
        && a.font_size.0 == b.font_size.0
        && same(a.letter_spacing, b.letter_spacing)
        && same(a.visibility, b.visibility)
        && a.root_size.0 == b.root_size.0
}
