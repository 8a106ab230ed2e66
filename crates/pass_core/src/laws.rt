//! What holds of every pass by the definitions alone.

ghost use Rattle.std.specs.Prelude.{◌≡◌, ◌≢◌, ℕ, [], ◌∷◌, List, IsTrue};
ghost use Rattle.pass_core.specs.Plans.{is_proper};
ghost use Rattle.pass_core.specs.Passes.{after_events, are_allowed, are_distinct, event_element, have_entries, update_all, IsResult, LeaveSame, PassState};
ghost use Rattle.pass_core.specs.Work.{Meaning};
ghost use Rattle.pass_core.specs.declared.event.CoreEvent.{CoreEvent};
ghost use Rattle.pass_core.specs.declared.plan.Place.{Place};
ghost use Rattle.pass_core.specs.declared.step.Step.{Step};

/// A place has at most one result.
pub fn one_result<E, D>()
    ensures { (m : Meaning E D) (places : List Place) (opening : List (ℕ × E)) (p : Place) (s t : Step E D) → IsResult m places opening p s → IsResult m places opening p t → s ≡ t }
{}

/// Two events of different elements, each of which may come first, leave the same entries and hand down the same,
/// whichever comes first.
pub fn events_commute<E, D>()
    ensures { (m : Meaning E D) (places : List Place) (st : PassState E D) (a b : CoreEvent) → event_element a ≢ event_element b → IsTrue (are_allowed m places st (a ∷ b ∷ [])) → IsTrue (are_allowed m places st (b ∷ a ∷ [])) → LeaveSame (after_events m places st (a ∷ b ∷ [])) (after_events m places st (b ∷ a ∷ [])) }
{}

/// Any two schedules that update the whole plan leave the same entries.
pub fn schedules_agree<E, D>()
    ensures { (m : Meaning E D) (places : List Place) (st : PassState E D) (events others : List CoreEvent) → IsTrue (is_proper places) → IsTrue (have_entries places st.entries) → IsTrue (are_distinct st.entries) → st.done ≡ [] → IsTrue (are_allowed m places st events) → IsTrue (are_allowed m places st others) → IsTrue (update_all places events) → IsTrue (update_all places others) → (after_events m places st events).entries ≡ (after_events m places st others).entries }
{}
