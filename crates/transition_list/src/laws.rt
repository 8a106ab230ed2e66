//! What holds of matches by the definitions alone.
ghost use Rattle.std.specs.Prelude.{◌≡◌, ◌↔◌, ◌++◌, ◌∷◌, [], List, length, Option, Some, IsTrue};
ghost use Rattle.transition_list.specs.declared.matched.MatchedItem.{MatchedItem};
ghost use Rattle.value_types.specs.TransitionLists.{TransitionValues};
ghost use Rattle.value_types.specs.declared.property.PropertyId.{PropertyId};
ghost use Rattle.value_types.specs.declared.shorthand.PropertyItem.{PropertyItem};
ghost use Rattle.transition_list.specs.Matching.{IsMatchOf, last_named, match_of, names};

/// The match as a relation and as a function are one.
pub fn one_match()
    ensures { (lists : TransitionValues) (p : PropertyId) (m : Option MatchedItem) → IsMatchOf lists p m ↔ (m ≡ match_of lists p) }
{}

/// An item that names the property matches it where it stands last.
pub fn last_item_wins()
    ensures { (p : PropertyId) (items : List PropertyItem) (x : PropertyItem) → IsTrue (names x p)
        → last_named p (items ++ x ∷ []) ≡ Some (length items) }
{}
