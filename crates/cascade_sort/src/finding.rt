//! The declarations that apply, by candidates.
ghost use Rattle.std.specs.Prelude.{◌≡◌, flat_map, map, IsTrue};
ghost use Rattle.std.specs.String.{string_bytes};
ghost use Rattle.doc_tree.specs.Element.{inclusive_ancestors, is_in};
ghost use Rattle.sheet_types.specs.Candidates.{ByClass};
ghost use Rattle.cascade_sort.specs.Finding.{found_at, found_in, found_in_sheets, found_under, with_offers};

use crate::precedence::Precedence;
use crate::strongest::Strongest;
use doc_tree::{Element, Tree};
use selectors_mini::{matches, specificity};
use sheet_types::{Rule, SelectorPlace, Sheet};

/// Offers the declarations of the rule of a selector, where the selector matches element `n`.
fn offer_at(
    strongest: &mut Strongest,
    sheet: usize,
    rules: &[Rule],
    place: SelectorPlace,
    tree: &Tree,
    n: u32,
)
    requires { IsTrue (is_in n tree.now.elements) }
    ensures { strongest.new ≡ with_offers strongest.old
        (found_at (inclusive_ancestors tree.now.elements n) sheet rules.now place) }
{
    let Some(rule) = rules.get(place.rule) else {
        return;
    };
    let Some(selector) = rule.selectors.get(place.selector) else {
        return;
    };
    if matches(selector, tree, n) {
        let block = Precedence {
            attached: false,
            specificity: specificity(selector),
            sheet,
            rule: place.rule,
            declaration: 0,
        };
        strongest.offer_block(block, rule.declarations.as_slice());
    }
}

/// Offers what these candidates find.
fn offer_all(
    strongest: &mut Strongest,
    sheet: usize,
    rules: &[Rule],
    places: &[SelectorPlace],
    tree: &Tree,
    n: u32,
)
    requires { IsTrue (is_in n tree.now.elements) }
    ensures { strongest.new ≡ with_offers strongest.old
        (flat_map (found_at (inclusive_ancestors tree.now.elements n) sheet rules.now) places.now) }
{
    for place in places {
        offer_at(strongest, sheet, rules, *place, tree, n);
    }
}

/// Offers what the candidates by the classes find.
fn offer_by_classes(
    strongest: &mut Strongest,
    at: usize,
    sheet: &Sheet,
    classes: &[String],
    tree: &Tree,
    n: u32,
)
    requires { IsTrue (is_in n tree.now.elements) }
    ensures { strongest.new ≡ with_offers strongest.old
        (flat_map (found_under (inclusive_ancestors tree.now.elements n) at sheet.now.rules)
        (map ByClass (map string_bytes classes.now))) }
{
    for class in classes {
        offer_all(
            strongest,
            at,
            sheet.rules(),
            sheet.by_class(class.as_bytes()),
            tree,
            n,
        );
    }
}

/// Offers what a sheet's candidates find.
fn offer_sheet(
    strongest: &mut Strongest,
    at: usize,
    sheet: &Sheet,
    element: &Element,
    tree: &Tree,
    n: u32,
)
    requires { IsTrue (is_in n tree.now.elements) }
    ensures { strongest.new ≡ with_offers strongest.old
        (found_in (inclusive_ancestors tree.now.elements n) at element.now sheet.now.rules) }
{
    let rules = sheet.rules();
    if let Some(id) = element.id() {
        offer_all(strongest, at, rules, sheet.by_id(id.as_bytes()), tree, n);
    }
    offer_by_classes(strongest, at, sheet, element.classes(), tree, n);
    let by_type = sheet.by_type(element.tag().as_bytes());
    offer_all(strongest, at, rules, by_type, tree, n);
    let any = sheet.for_any();
    offer_all(strongest, at, rules, any, tree, n);
}

/// Offers the declarations of the sheets' rules that match element `n`.
pub(crate) fn offer_sheets(
    strongest: &mut Strongest,
    sheets: &[Option<Sheet>],
    element: &Element,
    tree: &Tree,
    n: u32,
)
    requires { IsTrue (is_in n tree.now.elements) }
    ensures { strongest.new ≡ with_offers strongest.old
        (found_in_sheets (inclusive_ancestors tree.now.elements n) element.now sheets.now) }
{
    for (at, sheet) in sheets.iter().enumerate() {
        if let Some(sheet) = sheet {
            offer_sheet(strongest, at, sheet, element, tree, n);
        }
    }
}
