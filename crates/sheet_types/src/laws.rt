//! What holds of sheets by the definitions alone.
ghost use Rattle.std.specs.Prelude.{◌≡◌, ◌↔◌, ◌∷◌, Contains, List, Some};
ghost use Rattle.doc_tree.specs.Element.{Element};
ghost use Rattle.selectors_mini.specs.Compounds.{CompoundSelector};
ghost use Rattle.selectors_mini.specs.Matching.{Matches};
ghost use Rattle.sheet_types.specs.declared.rule.Rule.{Rule};
ghost use Rattle.sheet_types.specs.declared.selector_place.SelectorPlace.{SelectorPlace};
ghost use Rattle.sheet_types.specs.Candidates.{HasKey, IsKeyed, SelectorKey, candidates_of, selector_at};

/// The candidates under a key are the places of exactly those selectors whose last compound has the key.
pub fn candidates_have_the_key()
    ensures { (rules : List Rule) (key : SelectorKey) (place : SelectorPlace)
        → Contains (candidates_of key rules) place ↔ IsKeyed rules key place }
{}

/// No selector that matches an element is missed: it is among the candidates under a key that the element has.
pub fn candidates_miss_none()
    ensures { (rules : List Rule) (place : SelectorPlace) (s : List CompoundSelector) (e : Element) (above : List Element)
        → selector_at rules place ≡ Some s → Matches s (e ∷ above)
        → (key : SelectorKey) × HasKey e key × Contains (candidates_of key rules) place }
{}
