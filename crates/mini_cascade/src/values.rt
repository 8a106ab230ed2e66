//! Computed values.

ghost use Rattle.std.specs.Prelude.{◌≡◌, [], ◌∷◌, IfSome, Option, option_copied, option_map};
ghost use Rattle.std.specs.Bool.{OnTrue};
ghost use Rattle.std.specs.Option.{ForSome};
ghost use Rattle.value_types.specs.Ranges.{IsSize};
ghost use Rattle.value_types.specs.Table.{initial_value};
ghost use Rattle.value_types.specs.Validity.{IsDeclaredFor, IsValid};
ghost use Rattle.value_types.specs.declared.property.PropertyId.{PropertyId};
ghost use Rattle.computed_style.specs.ByProperty.{kept_for};
ghost use Rattle.computed_style.specs.ComputedStyles.{cascaded_value, computed_font_size, computed_value, declared_value, first_of, font_sizes, inherited_value, parent_size, root_size, style_sources};
ghost use Rattle.computed_style.specs.Styles.{AreGiven, AreValid, pixels_of_length};
ghost use Rattle.computed_style.specs.declared.inherited.InheritedValues.{InheritedValues};
ghost use Rattle.mini_cascade.specs.Sources.{computed_values};

use computed_style::{DeclaredSet, Inherited, Sampling};
use computed_value::absolute;
use fix_num::Fix;
use value_types::{Declared, PropertyId, Value, initial_value, is_inherited};

/// The computed value of font-size, which comes first, since relative lengths of the other properties are of it (CSS
/// Cascade 5, section 6.1 "Cascade Sorting Order").
pub(crate) fn computed_font_size<A: Sampling>(
    d: &DeclaredSet,
    anims: &A,
    transitions: &[(PropertyId, Value)],
    parent: Option<&Inherited>,
) -> Value
    requires { AreGiven transitions.now }
    ensures value { result ≡ computed_font_size (style_sources d.now (A.animated_value anims.now) transitions.now (option_copied parent.entry)) }
    ensures valid { IsValid PropertyId.FontSize result }
{
    let own = parent_size(parent);
    cascaded_value(d, anims, transitions, parent, own, PropertyId::FontSize)
}

/// The computed value of each property, by number, where font-size has this value.
pub(crate) fn computed_values<A: Sampling>(
    d: &DeclaredSet,
    anims: &A,
    transitions: &[(PropertyId, Value)],
    parent: Option<&Inherited>,
    font_size: Value,
) -> [Value; 24]
    requires given { AreGiven transitions.now }
    requires font_size { font_size ≡ computed_font_size (style_sources d.now (A.animated_value anims.now) transitions.now (option_copied parent)) }
    requires valid { IsValid PropertyId.FontSize font_size }
    ensures value { result ≡ computed_values (style_sources d.now (A.animated_value anims.now) transitions.now (option_copied parent.entry)) }
    ensures valid { AreValid result }
{
    let mut values = [Value::Auto; 24];
    for (i, p) in PropertyId::ALL.iter().enumerate() {
        values[i] = value_of_property(d, anims, transitions, parent, font_size, *p);
    }
    values
}

/// Whether the property is seen at once to have its initial value: it isn't inherited, and nothing gives it another.
pub(crate) fn is_initial<A: Sampling>(
    d: &DeclaredSet,
    anims: &A,
    transitions: &[(PropertyId, Value)],
    p: PropertyId,
) -> bool
    ensures { OnTrue result ((parent : Option InheritedValues) → computed_value (style_sources d.now (A.animated_value anims.now) transitions.now parent) p ≡ initial_value p) }
{
    !is_inherited(p) && !d.declares(p) && has_none(transitions) && anims.gives_nothing()
}

/// The value of a property, where font-size has this value.
pub(crate) fn value_of_property<A: Sampling>(
    d: &DeclaredSet,
    anims: &A,
    transitions: &[(PropertyId, Value)],
    parent: Option<&Inherited>,
    font_size: Value,
    p: PropertyId,
) -> Value
    requires given { AreGiven transitions.now }
    requires font_size { font_size ≡ computed_font_size (style_sources d.now (A.animated_value anims.now) transitions.now (option_copied parent)) }
    requires valid { IsValid PropertyId.FontSize font_size }
    ensures value { result ≡ computed_value (style_sources d.now (A.animated_value anims.now) transitions.now (option_copied parent.entry)) p }
    ensures valid { IsValid p result }
{
    // Most properties of most elements are inherited or initial, and that is soon seen.
    if has_none(transitions) && anims.gives_nothing() && !d.declares(p) {
        return inherited_value(parent, p);
    }
    if p == PropertyId::FontSize {
        return font_size;
    }
    let own = pixels_of_length(font_size);
    cascaded_value(d, anims, transitions, parent, own, p)
}

/// The value of a property by the table of precedence, where the element has this font size.
fn cascaded_value<A: Sampling>(
    d: &DeclaredSet,
    anims: &A,
    transitions: &[(PropertyId, Value)],
    parent: Option<&Inherited>,
    own: Fix,
    p: PropertyId,
) -> Value
    requires given { AreGiven transitions.now }
    requires own { IsSize own }
    ensures value { result ≡ cascaded_value (style_sources d.now (A.animated_value anims.now) transitions.now (option_copied parent.entry)) (font_sizes (option_copied parent.entry) own) p }
    ensures valid { IsValid p result }
{
    let winners = d.winners(p);
    if let Some(value) = given_value(transitions, p) {
        return value;
    }
    if let Some(important) = winners.important {
        return declared_value(parent, own, p, important);
    }
    let under = value_or_inherited(winners.normal, parent, own, p);
    let root = root_size(parent, own);
    anims
        .value(p, parent_size(parent), own, root, under)
        .unwrap_or(under)
}

/// The value that a normal declaration gives the property, or else the inherited or the initial one.
fn value_or_inherited(
    normal: Option<Declared>,
    parent: Option<&Inherited>,
    own: Fix,
    p: PropertyId,
) -> Value
    requires declared { ForSome normal (IsDeclaredFor p) }
    requires own { IsSize own }
    ensures value { result ≡ first_of (option_map (declared_value (option_copied parent.entry) (font_sizes (option_copied parent.entry) own) p) normal ∷ []) (inherited_value (option_copied parent.entry) p) }
    ensures valid { IsValid p result }
{
    match normal {
        None => inherited_value(parent, p),
        Some(declared) => declared_value(parent, own, p, declared),
    }
}

/// The computed value of a property that is declared so (CSS Cascade 5, section 7.3 "Explicit Defaulting").
fn declared_value(parent: Option<&Inherited>, own: Fix, p: PropertyId, d: Declared) -> Value
    requires declared { IsDeclaredFor p d }
    requires own { IsSize own }
    ensures value { result ≡ declared_value (option_copied parent.entry) (font_sizes (option_copied parent.entry) own) p d }
    ensures valid { IsValid p result }
{
    match d {
        Declared::Inherit => inherited_value(parent, p),
        Declared::Initial => initial_value(p),
        _ => absolute(p, &d, parent_size(parent), own, root_size(parent, own)),
    }
}

/// What the parent hands down of a property, or else its initial value.
fn inherited_value(parent: Option<&Inherited>, p: PropertyId) -> Value
    ensures value { result ≡ inherited_value (option_copied parent.entry) p }
    ensures valid { IsValid p result }
{
    let Some(parent) = parent else {
        return initial_value(p);
    };
    let values = parent.get();
    match p {
        PropertyId::Color => values.color,
        PropertyId::FontSize => Value::Length {
            px: values.font_size,
            pct: Fix(0),
        },
        PropertyId::LetterSpacing => values.letter_spacing,
        PropertyId::Visibility => values.visibility,
        _ => initial_value(p),
    }
}

/// The parent's font size; of the root the initial one.
fn parent_size(parent: Option<&Inherited>) -> Fix
    ensures value { result ≡ parent_size (option_copied parent.entry) }
    ensures bounds { IsSize result }
{
    match parent {
        None => Fix(16_000_000),
        Some(parent) => parent.get().font_size,
    }
}

/// The root's font size; of the root its own.
fn root_size(parent: Option<&Inherited>, own: Fix) -> Fix
    requires { IsSize own }
    ensures value { result ≡ root_size (option_copied parent.entry) own }
    ensures bounds { IsSize result }
{
    match parent {
        None => own,
        Some(parent) => parent.get().root_size,
    }
}

/// The value that is given to the property: the first, if there are several.
fn given_value(given: &[(PropertyId, Value)], p: PropertyId) -> Option<Value>
    requires { AreGiven given.now }
    ensures value { result ≡ kept_for p given.now }
    ensures valid { IfSome result (IsValid p) }
{
    value_for(given, p)
}

fn value_for(given: &[(PropertyId, Value)], p: PropertyId) -> Option<Value>
    ensures { result ≡ kept_for p given.now }
{
    given
        .iter()
        .find(|item| item.0.number() == p.number())
        .map(|item| item.1)
}

fn has_none(given: &[(PropertyId, Value)]) -> bool
    ensures { OnTrue result (given.now ≡ []) }
{
    given.is_empty()
}

/// The pixels of a length.
fn pixels_of_length(value: Value) -> Fix
    requires { IsValid PropertyId.FontSize value }
    ensures value { result ≡ pixels_of_length value }
    ensures bounds { IsSize result }
{
    match value {
        Value::Length { px, .. } => px,
        _ => Fix(0),
    }
}
