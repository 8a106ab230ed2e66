//! What holds of selectors by the definitions alone.

ghost use Rattle.std.specs.List.{AllZip};
ghost use Rattle.std.specs.Prelude.{◌≡◌, ◌↔◌, ◌+◌, [], ◌∷◌, ◌++◌, List, IsTrue};
ghost use Rattle.doc_tree.specs.Element.{Element};
ghost use Rattle.selectors_mini.specs.Compounds.{CompoundSelector, specificity_of, IsReordered};
ghost use Rattle.selectors_mini.specs.Matching.{HasAtLeast, Matches, Represents, matches_of};
ghost use Rattle.selectors_mini.specs.Parts.{SelectorPart};
ghost use Rattle.selectors_mini.specs.Reading.{selectors_of};
ghost use Rattle.selectors_mini.specs.Spelling.{AreSelectors, IsSelectorAnswer};

/// The parts of a text spell at most one list of selectors.
pub fn one_selector_list()
    ensures { (parts : List SelectorPart) (ss others : List (List CompoundSelector)) → AreSelectors parts ss → AreSelectors parts others → ss ≡ others }
{}

/// The reading of parts is their one list within the bounds, or tells exactly why there is none.
pub fn selector_reading_is_exact()
    ensures { (parts : List SelectorPart) → IsSelectorAnswer parts (selectors_of parts) }
{}

/// The specificity of compounds is that of some of them and that of the others, added up.
pub fn specificity_adds_up()
    ensures { (s t : List CompoundSelector) → specificity_of (s ++ t) ≡ ((specificity_of s).0 + (specificity_of t).0, (specificity_of s).1 + (specificity_of t).1, (specificity_of s).2 + (specificity_of t).2) }
{}

/// The test of matching is true exactly where the selector matches.
pub fn matching_is_exact()
    ensures { (s : List CompoundSelector) (chain : List Element) → IsTrue (matches_of s chain) ↔ Matches s chain }
{}

/// The ids of a compound and its classes may come in any order.
pub fn parts_in_any_order()
    ensures represent { (c d : CompoundSelector) (e : Element) → IsReordered c d → Represents c e → Represents d e }
    ensures specificity { (c d : CompoundSelector) → IsReordered c d → specificity_of (c ∷ []) ≡ specificity_of (d ∷ []) }
{}

/// What a selector matches it still matches where elements have more classes: no selector here has a negation.
pub fn more_classes_lose_nothing()
    ensures { (s : List CompoundSelector) (chain others : List Element) → AllZip HasAtLeast chain others → Matches s chain → Matches s others }
{}
