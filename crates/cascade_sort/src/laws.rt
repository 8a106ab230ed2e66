//! What holds of winners by the definitions alone.
ghost use Rattle.std.specs.Prelude.{◌≡◌, ◌↔◌, ◌⊎◌, ◌∷◌, ◌++◌, ℕ, All, Bool, Contains, IsPermutation, IsTrue, List, None, Option, Some, set};
ghost use Rattle.computed_style.specs.Winners.{Declarations};
ghost use Rattle.doc_tree.specs.Element.{Document, Element, element_of, inclusive_ancestors};
ghost use Rattle.doc_tree.specs.Shape.{IsTree};
ghost use Rattle.selectors_mini.specs.Compounds.{CompoundSelector};
ghost use Rattle.selectors_mini.specs.Matching.{Matches};
ghost use Rattle.sheet_types.specs.Sheets.{SheetRules, sheet_rules};
ghost use Rattle.sheet_types.specs.declared.rule.KeyframesRule.{KeyframesRule};
ghost use Rattle.sheet_types.specs.declared.rule.Rule.{Rule};
ghost use Rattle.shorthand_text.specs.declared.known_name.KnownName.{KnownName};
ghost use Rattle.cascade_sort.specs.declared.precedence.Precedence.{Precedence};
ghost use Rattle.cascade_sort.specs.Alike.{AreAlike, AreSiblingsAlike, are_siblings_alike};
ghost use Rattle.cascade_sort.specs.Applying.{Applied, IsRuleSpecificity, applied_to, matched_specificity, style_declarations, style_text};
ghost use Rattle.cascade_sort.specs.Finding.{all_found, collected, declaration_by, no_offers, with_offers};
ghost use Rattle.cascade_sort.specs.Lexicographic.{is_at_most};
ghost use Rattle.cascade_sort.specs.Precedences.{Specificity, keys_of};
ghost use Rattle.cascade_sort.specs.Winning.{AreApart, AreWinners, HaveSameMembers, HaveSameWinners, IsWinner, all_winners, declared_of};

/// Precedences are in one line.
pub fn precedences_are_in_order()
    ensures itself { (p : Precedence) → IsTrue (is_at_most (keys_of p) (keys_of p)) }
    ensures chained { (p q r : Precedence) → IsTrue (is_at_most (keys_of p) (keys_of q)) → IsTrue (is_at_most (keys_of q) (keys_of r))
        → IsTrue (is_at_most (keys_of p) (keys_of r)) }
    ensures comparable { (p q : Precedence) → IsTrue (is_at_most (keys_of p) (keys_of q)) ⊎ IsTrue (is_at_most (keys_of q) (keys_of p)) }
    ensures equal { (p q : Precedence) → IsTrue (is_at_most (keys_of p) (keys_of q)) → IsTrue (is_at_most (keys_of q) (keys_of p)) → p ≡ q }
{}

/// No two declarations that apply to an element have one precedence.
pub fn precedences_differ()
    ensures { (sheets : List (Option SheetRules)) (es : List Element) (n : ℕ) → AreApart (applied_to sheets es n) }
{}

/// A rule counts with the greatest specificity of those of its selectors that match, and where none matches it has
/// none.
pub fn the_greatest_specificity_counts()
    ensures some { (chain : List Element) (selectors : List (List CompoundSelector)) (g : Specificity)
        → matched_specificity chain selectors ≡ Some g → IsRuleSpecificity chain selectors g }
    ensures none { (chain : List Element) (selectors : List (List CompoundSelector))
        → matched_specificity chain selectors ≡ None → All (λ s. Matches s chain → ⊥) selectors }
{}

/// Of each property and timing list what wins is a declaration that applies and that no other one passes; there is one
/// at most, and nothing wins exactly where none applies.
pub fn winners_are_exact()
    ensures winners { (sheets : List (Option SheetRules)) (es : List Element) (n : ℕ)
        → AreWinners (applied_to sheets es n) (declared_of sheets es n) }
    ensures one { (sheets : List (Option SheetRules)) (es : List Element) (n : ℕ) (target : KnownName) (important : Bool) (a b : Applied)
        → IsWinner (applied_to sheets es n) target important a → IsWinner (applied_to sheets es n) target important b → a ≡ b }
    ensures no_others { (sheets : List (Option SheetRules)) (es : List Element) (n : ℕ) (d : Declarations)
        → AreWinners (applied_to sheets es n) d → HaveSameWinners d (declared_of sheets es n) }
{}

/// The order in which declarations are listed never shows.
pub fn declarations_in_any_order()
    ensures winner { (xs ys : List Applied) (target : KnownName) (important : Bool) (a : Applied)
        → HaveSameMembers xs ys → IsWinner xs target important a → IsWinner ys target important a }
    ensures permuted { (xs ys : List Applied) → AreApart xs → IsPermutation xs ys → all_winners xs ≡ all_winners ys }
{}

/// Nor does the order in which candidates find them, or how often.
pub fn candidates_in_any_order()
    ensures { (sheets : List (Option SheetRules)) (es : List Element) (n : ℕ) (e : Element) (above : List Element) (offers : List Applied)
        → inclusive_ancestors es n ≡ e ∷ above
        → HaveSameMembers (all_found (e ∷ above) e sheets (style_declarations (style_text es n))) offers
        → collected (declaration_by sheets (style_declarations (style_text es n))) (with_offers no_offers offers) ≡ declared_of sheets es n }
{}

/// Wherever a rule is added to a sheet of which no selector matches the element, its winners stay.
pub fn unmatched_rules_change_nothing()
    ensures { (sheets : List (Option SheetRules)) (es : List Element) (n k : ℕ) (before after : List Rule) (r : Rule) (keyframes : List KeyframesRule)
        → All (λ s. Matches s (inclusive_ancestors es n) → ⊥) r.selectors
        → declared_of (set sheets k (Some (sheet_rules (before ++ r ∷ after) keyframes))) es n
        ≡ declared_of (set sheets k (Some (sheet_rules (before ++ after) keyframes))) es n }
{}

/// Siblings alike declare alike.
pub fn siblings_alike_declare_alike()
    ensures elements { (sheets : List (Option SheetRules)) (d : Document) (n m : ℕ) (e f : Element)
        → IsTree d → element_of n d.elements ≡ Some e → element_of m d.elements ≡ Some f → AreAlike e f
        → declared_of sheets d.elements n ≡ declared_of sheets d.elements m }
    ensures tested { (sheets : List (Option SheetRules)) (d : Document) (n m : ℕ)
        → IsTree d → IsTrue (are_siblings_alike n m d.elements) → declared_of sheets d.elements n ≡ declared_of sheets d.elements m }
{
    doc_tree::laws::ancestors_go_by_parents();
}

/// The test of siblings is true exactly where they are alike.
pub fn the_test_of_siblings_is_exact()
    ensures { (n m : ℕ) (es : List Element) → IsTrue (are_siblings_alike n m es) ↔ AreSiblingsAlike n m es }
{}
