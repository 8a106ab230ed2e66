//! What holds of every document that is a tree, and of every add, by their definitions alone.

ghost use Rattle.std.specs.Prelude.{◌≡◌, ℕ, ◌==◌, not, true, false, List, [], ◌∷◌, ◌++◌, length, IsTrue, ◌≢◌, ◌↔◌, Result, Option, Some, None};
ghost use Rattle.std.specs.List.{filter, list_any};
ghost use Rattle.std.specs.Option.{option_map_or};
ghost use Rattle.doc_tree.specs.Change.{without, IsAdded, IsCut, IsInserted};
ghost use Rattle.doc_tree.specs.Children.{children_of, first_child_of, next_sibling_of};
ghost use Rattle.doc_tree.specs.Element.{Document, Element, is_in, is_used, inclusive_ancestors, is_inclusive_descendant, position_of, subtree_of};
ghost use Rattle.doc_tree.specs.Fault.{Answers};
ghost use Rattle.doc_tree.specs.Shape.{IsTree};
ghost use Rattle.doc_tree.specs.declared.fault.TreeFault.{TreeFault};
ghost use Rattle.doc_tree.specs.declared.fault.TreeFault.TheVariants.{NoMemory};

/// The inclusive ancestors of an element are itself and then those of its parent; the root's are itself alone.
pub fn ancestors_go_by_parents()
    ensures { (d : Document) (before after : List Element) (e : Element)
        → IsTree d → d.elements ≡ before ++ e ∷ after
        → inclusive_ancestors d.elements e.number ≡ e ∷ option_map_or (inclusive_ancestors d.elements) e.parent [] }
{}

/// No two elements have one number.
pub fn numbers_differ()
    ensures { (d : Document) (before after : List Element) (e : Element)
        → IsTree d → d.elements ≡ before ++ e ∷ after
        → is_in e.number (before ++ after) ≡ false }
{}

/// A parent stands before its child.
pub fn parents_stand_before()
    ensures { (d : Document) (before after : List Element) (e : Element) (p : ℕ)
        → IsTree d → d.elements ≡ before ++ e ∷ after
        → e.parent ≡ Some p → IsTrue (is_in p before) }
{}

/// An element with no parent is the first: there is one root at most.
pub fn one_root()
    ensures { (d : Document) (before after : List Element) (e : Element)
        → IsTree d → d.elements ≡ before ++ e ∷ after
        → e.parent ≡ None → before ≡ [] }
{}

/// A subtree stands together: after the first element that has left it, none is in it.
pub fn subtrees_stand_together()
    ensures { (d : Document) (before after : List Element) (e : Element) (a : ℕ)
        → IsTree d → d.elements ≡ before ++ e ∷ after
        → IsTrue (is_in a before) → is_inclusive_descendant d.elements a e.number ≡ false
        → list_any (λ later. is_inclusive_descendant d.elements a later.number) after ≡ false }
{}

/// The first child of an element is the first of its children.
pub fn first_children_lead()
    ensures child { (es : List Element) (n : ℕ) (first : Element) (others : List Element)
        → children_of es n ≡ first ∷ others → first_child_of n es ≡ Some first.number }
    ensures none { (es : List Element) (n : ℕ) → children_of es n ≡ [] → first_child_of n es ≡ None }
{}

/// The next sibling of each child is the child after it, and the last child has none: they go over all children.
pub fn next_siblings_go_over_children()
    ensures next { (d : Document) (n : ℕ) (before after : List Element) (child sibling : Element)
        → IsTree d → children_of d.elements n ≡ before ++ child ∷ sibling ∷ after
        → next_sibling_of child.number d.elements ≡ Some sibling.number }
    ensures last { (d : Document) (n : ℕ) (before : List Element) (child : Element)
        → IsTree d → children_of d.elements n ≡ before ++ child ∷ []
        → next_sibling_of child.number d.elements ≡ None }
{}

/// An add has one outcome.
pub fn one_last_place()
    ensures { (old first second : Document) (child : Element)
        → IsAdded old first child → IsAdded old second child → first ≡ second }
{}

/// The new element's position is the number of elements before its place.
pub fn added_position()
    ensures { (old new : Document) (child : Element) (added : IsAdded old new child) → IsTree new
        → position_of child.number new ≡ Some (length added.before) }
{}

/// All other elements are the old ones in their order.
pub fn others_keep_order()
    ensures { (old new : Document) (child : Element) → IsAdded old new child → IsTree new
        → filter (λ e. not (e.number == child.number)) new.elements ≡ old.elements }
{}

/// The same of an insert.
pub fn others_keep_order_beside()
    ensures { (old new : Document) (n sibling : ℕ) (tag : List ℕ) → IsInserted old new n sibling tag → IsTree new
        → filter (λ e. not (e.number == n)) new.elements ≡ old.elements }
{}

/// An add leaves the inclusive ancestors of all elements that were there.
pub fn adds_keep_ancestors()
    ensures { (old new : Document) (child : Element) (m : ℕ) → IsTree old → IsTree new → IsAdded old new child
        → IsTrue (is_in m old.elements) → inclusive_ancestors new.elements m ≡ inclusive_ancestors old.elements m }
{}

/// So does an insert.
pub fn inserts_keep_ancestors()
    ensures { (old new : Document) (n sibling : ℕ) (tag : List ℕ) (m : ℕ) → IsTree old → IsTree new → IsInserted old new n sibling tag
        → IsTrue (is_in m old.elements) → inclusive_ancestors new.elements m ≡ inclusive_ancestors old.elements m }
{}

/// What is removed with an element is one unbroken stretch of the elements in tree order.
pub fn removed_elements_stand_together()
    ensures { (d : Document) (n : ℕ) → IsTree d → IsTrue (is_in n d.elements) → IsCut d (without d n) (subtree_of d.elements n) }
{}

/// A removal leaves the inclusive ancestors of all elements that are left.
pub fn removals_keep_ancestors()
    ensures { (d : Document) (n m : ℕ) → IsTree d → IsTrue (is_in n d.elements) → IsTrue (is_in m (without d n).elements)
        → inclusive_ancestors (without d n).elements m ≡ inclusive_ancestors d.elements m }
{}

/// The number of a removed element stays used, so that no other gets it.
pub fn removed_numbers_stay_used()
    ensures { (d : Document) (n m : ℕ) → IsTree d → IsTrue (is_in m d.elements) → IsTrue (is_used m (without d n)) }
{}

/// A used number stays used.
pub fn used_stays_used()
    ensures { (old new : Document) (child : Element) (n : ℕ)
        → IsAdded old new child → IsTrue (is_used n old) → IsTrue (is_used n new) }
{}

/// An edit answers a fault other than `NoMemory` exactly where it has that fault.
pub fn faults_are_exact()
    ensures { (fault : Option TreeFault) (result : Result (Unit {0}) TreeFault) (e : TreeFault)
        → Answers fault result → e ≢ NoMemory → ((fault ≡ Some e) ↔ (result ≡ Err e)) }
{}
