//! Which elements are rendered.

ghost use Rattle.std.specs.Prelude.{◌≡◌, option_copied};
ghost use Rattle.element_step.specs.Rendering.{is_displayed, is_rendered};

use style_data::{DeclaredSet, Down};
use value_types::{Declared, Display, PropertyId};

/// Whether an element is rendered: neither its own declared `display` is `none` nor that of an ancestor (CSS Display
/// 3, "Box Generation: the none and contents keywords").
pub fn is_rendered(d: &DeclaredSet, parent: Option<&Down>) -> bool
    ensures { result ≡ is_rendered d.now (option_copied parent.entry) }
{
    match parent {
        None => is_displayed(d),
        Some(parent) => parent.rendered && is_displayed(d),
    }
}

fn is_displayed(d: &DeclaredSet) -> bool
    ensures { result ≡ is_displayed d.now }
{
    let winners = d.winners(PropertyId::Display);
    match (winners.important, winners.normal) {
        (Some(Declared::Display(Display::Nothing)), _)
        | (None, Some(Declared::Display(Display::Nothing))) => false,
        _ => true,
    }
}
