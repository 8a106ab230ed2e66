//! Whether a compound represents an element.

ghost use Rattle.std.specs.Prelude.{◌≡◌, true};
ghost use Rattle.std.specs.Option.{option_map_or};
ghost use Rattle.std.specs.List.{list_all, list_any};
ghost use Rattle.std.specs.Str.{bytes_eq};
ghost use Rattle.std.specs.String.{string_bytes};
ghost use Rattle.selectors_mini.specs.Matching.{has_class, has_id, represents};

use crate::compound::Compound;
use crate::ident::Ident;
use doc_tree::Element;

/// Whether all that the compound names is the element's.
pub(crate) fn represents(compound: &Compound, element: &Element) -> bool
    ensures { result ≡ represents compound.now element.now }
{
    has_type(element, compound.tag())
        && has_ids(element, compound.ids())
        && has_classes(element, compound.classes())
}

/// Whether no type is named, or the element's.
fn has_type(element: &Element, tag: Option<&[u8]>) -> bool
    ensures { result ≡ option_map_or (λ tag. bytes_eq element.now.tag tag.now) tag.entry true }
{
    match tag {
        None => true,
        Some(tag) => element.tag().as_bytes() == tag,
    }
}

fn has_ids(element: &Element, ids: &[Ident]) -> bool
    ensures { result ≡ list_all (has_id element.now) ids.now }
{
    ids.iter().all(|id| has_id(element, id))
}

fn has_id(element: &Element, id: &Ident) -> bool
    ensures { result ≡ has_id element.now id.now }
{
    match element.id() {
        None => false,
        Some(own) => own.as_bytes() == id.as_bytes(),
    }
}

fn has_classes(element: &Element, classes: &[Ident]) -> bool
    ensures { result ≡ list_all (has_class element.now) classes.now }
{
    classes.iter().all(|class| has_class(element, class))
}

fn has_class(element: &Element, class: &Ident) -> bool
    ensures { result ≡ has_class element.now class.now }
{
    is_among(element.classes(), class)
}

fn is_among(names: &[String], class: &Ident) -> bool
    ensures { result ≡ list_any (λ own. bytes_eq (string_bytes own) class.now) names.now }
{
    names.iter().any(|own| is_same(own, class))
}

fn is_same(name: &String, ident: &Ident) -> bool
    ensures { result ≡ bytes_eq (string_bytes name.now) ident.now }
{
    name.as_bytes() == ident.as_bytes()
}
