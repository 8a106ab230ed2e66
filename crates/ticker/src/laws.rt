//! What holds of ticks by their definitions alone.
ghost use Rattle.std.specs.Prelude.{◌≡◌, ◌⊎◌, ℕ, ℤ, ◌≤ℤ◌, AllPairs, List, [], length, take};
ghost use Rattle.doc_tree.specs.Element.{Document};
ghost use Rattle.style_data.specs.Entries.{AreAscending, EffectLists, EntryParts};
ghost use Rattle.style_data.specs.TransitionSets.{AreTransitions, TransitionSet, completed_of, running_of};
ghost use Rattle.style_data.specs.Transitions.{IsTransition};
ghost use Rattle.style_data.specs.declared.gone.Gone.{Gone};
ghost use Rattle.style_data.specs.declared.transition.Transition.{Transition};
ghost use Rattle.value_types.specs.declared.property.PropertyId.{PropertyId};
ghost use Rattle.ticker.specs.Courses.{NeverFall, told_over, whole_course};
ghost use Rattle.ticker.specs.Distinct.{AreDistinct, ItemsDiffer, KeysDiffer};
ghost use Rattle.ticker.specs.Ticks.{cancel_events, completed_after, effect_events, running_after, tick_events, ticked_effects, ticked_transitions};

use style_data::Phase;

/// Over any ticks at times that never fall, what is told of a transition is that it is created, that it starts and that it ends, each
/// once, in this order, and nothing before what comes before it.
pub fn events_in_turn()
    ensures { (r : Transition) (ts : List ℤ) → NeverFall ts → (n : ℕ) × (told_over r Phase.Idle ts ≡ take n (whole_course r)) }
{}

/// Over such ticks the scheduled event times of a transition never fall.
pub fn scheduled_in_turn()
    ensures { (r : Transition) (ts : List ℤ) → IsTransition r → NeverFall ts → AllPairs (λ a b. a.time.0 ≤ℤ b.time.0) (told_over r Phase.Idle ts) }
{}

/// The cancel of what no tick has seen, or of what had ended, is not told; any other is, once.
pub fn seen_cancels_are_told()
    ensures unseen { (element : ℕ) (g : Gone) → g.seen ≡ Phase.Idle → cancel_events element g ≡ [] }
    ensures ended { (element : ℕ) (g : Gone) → g.seen ≡ Phase.After → cancel_events element g ≡ [] }
    ensures once { (element : ℕ) (g : Gone) → (g.seen ≡ Phase.Before) ⊎ (g.seen ≡ Phase.Active) → length (cancel_events element g) ≡ 1 }
{}

/// A second tick at the same time tells nothing.
pub fn second_tick_tells_nothing()
    ensures { (element position : ℕ) (t : ℤ) (e : EffectLists) → effect_events element position t (ticked_effects t e) ≡ [] }
{}

/// Of each property a tick decides alone.
pub fn ticked_property_by_property()
    ensures running { (t : ℤ) (ts : TransitionSet) (p : PropertyId) → running_of (ticked_transitions t ts) p ≡ running_after t ts p }
    ensures completed { (t : ℤ) (ts : TransitionSet) (p : PropertyId) → completed_of (ticked_transitions t ts) p ≡ completed_after t ts p }
{}

/// The events of an element have different keys, where its cancelled items differ in what they were created with.
pub fn keys_of_an_element_differ()
    ensures { (element position : ℕ) (t : ℤ) (e : EffectLists) → AreTransitions e.transitions → AreAscending e.animations → AllPairs ItemsDiffer e.gone
        → AllPairs KeysDiffer (effect_events element position t e) }
{}

/// So have all events of a tick, where the entries are of different elements and no two cancelled items were created alike.
pub fn keys_of_a_tick_differ()
    ensures { (tree : Document) (t : ℤ) (entries : List (ℕ × EntryParts)) (departed : List (ℕ × Gone)) → AreDistinct tree entries departed
        → AllPairs KeysDiffer (tick_events tree t entries departed) }
{}
