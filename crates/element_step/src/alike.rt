//! Elements whose updates give the same.

ghost use Rattle.std.specs.Prelude.{◌≡◌};
ghost use Rattle.std.specs.Bool.{OnTrue};
ghost use Rattle.computed_style.specs.Styles.{inherited_of};
ghost use Rattle.fix_num.specs.declared.units.Fix.{Fix};
ghost use Rattle.style_data.specs.Entries.{no_effects};
ghost use Rattle.element_step.specs.Alike.{TellTheSame};

use style_data::{Entry, Style};
use value_types::PropertyId;

/// Whether both entries tell an update the same. Takes no memory.
pub(crate) fn tell_the_same(a: &Entry, b: &Entry) -> bool
    ensures { OnTrue result (TellTheSame a.now b.now) }
{
    if !were_shown_alike(a, b) || !are_without_effects(a, b) {
        return false;
    }
    a.declared().is_kept_like(b.declared()) && hand_down_alike(a.now(), b.now())
}

/// Whether the elements were styled and rendered alike.
fn were_shown_alike(a: &Entry, b: &Entry) -> bool
    ensures { OnTrue result ((a.now.styled ≡ b.now.styled) × (a.now.rendered ≡ b.now.rendered)) }
{
    a.styled() == b.styled() && a.rendered() == b.rendered()
}

fn are_without_effects(a: &Entry, b: &Entry) -> bool
    ensures { OnTrue result ((a.now.effects ≡ no_effects) × (b.now.effects ≡ no_effects)) }
{
    a.effects().is_none() && b.effects().is_none()
}

/// Whether the styles hand down the same.
fn hand_down_alike(a: &Style, b: &Style) -> bool
    ensures { OnTrue result ((root : Fix) → inherited_of a.now root ≡ inherited_of b.now root) }
{
    a.is_same_at(b, PropertyId::Color)
        && a.is_same_at(b, PropertyId::FontSize)
        && a.is_same_at(b, PropertyId::LetterSpacing)
        && a.is_same_at(b, PropertyId::Visibility)
}
