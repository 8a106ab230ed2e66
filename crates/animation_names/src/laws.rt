//! What holds of the animations after an event by the definitions alone.
ghost use Rattle.std.specs.Prelude.{◌≡◌, ◌≢◌, ◌↔◌, ℕ, ◌+◌, List, [], ◌∷◌, ◌++◌, All, Option, None, Some, IsSome, is_some, length, ℤ};
ghost use Rattle.sheet_types.specs.Sheets.{SheetRules, sheet_rules};
ghost use Rattle.sheet_types.specs.declared.rule.KeyframesRule.{KeyframesRule};
ghost use Rattle.sheet_types.specs.declared.rule.Rule.{Rule};
ghost use Rattle.style_data.specs.declared.animation.AnimationState.{AnimationState};
ghost use Rattle.style_data.specs.declared.gone.Gone.{Gone};
ghost use Rattle.animation_names.specs.Continuing.{is_paused_at, timing_at};
ghost use Rattle.animation_names.specs.NameLists.{NamesUpdate, name_at, old_name_at};
ghost use Rattle.animation_names.specs.Numbered.{given_below};
ghost use Rattle.animation_names.specs.Pairings.{IsPairing};
ghost use Rattle.animation_names.specs.Samples.{HasNoRule, frames_named, samples_of};
ghost use Rattle.animation_names.specs.Updates.{AreAnimationsOf, AreUpdated, animation_at, animations_after, gone_after, kept_at};

/// There is exactly one pairing of a list of names with old animations, and so one list of animations after an event and one of those that
/// it cancels: those of the functions.
pub fn one_pairing()
    ensures some { (u : NamesUpdate) → (takes : ℕ → Option ℕ) × IsPairing (name_at u) (old_name_at u) takes }
    ensures only { (u : NamesUpdate) (takes other : ℕ → Option ℕ) → IsPairing (name_at u) (old_name_at u) takes
        → IsPairing (name_at u) (old_name_at u) other → (i : ℕ) → takes i ≡ other i }
    ensures lists { (u : NamesUpdate) (animations : List AnimationState) (gone : List Gone)
        → AreUpdated u animations gone ↔ ((animations ≡ animations_after u) × (gone ≡ gone_after u)) }
{}

/// The animations that places take, and those that are cancelled, are together as many as there were.
pub fn kept_or_gone()
    ensures { (u : NamesUpdate) (takes : ℕ → Option ℕ) → IsPairing (name_at u) (old_name_at u) takes
        → length (given_below takes (length u.lists.names)) + length (gone_after u) ≡ length u.old }
{}

/// Lists that stay the same, with the same sheets, leave the animations as they are, and cancel none. Each event leaves animations
/// of its lists, so that the same lists change nothing after it.
pub fn unchanged_lists_change_nothing()
    ensures same { (u : NamesUpdate) → AreAnimationsOf u.lists u.sheets u.old → (animations_after u ≡ u.old) × (gone_after u ≡ []) }
    ensures after { (u : NamesUpdate) → AreAnimationsOf u.lists u.sheets (animations_after u) }
{}

/// An animation that goes on without pausing or running again is the same but for its place and its timing: it keeps its start.
pub fn start_is_kept()
    ensures { (u : NamesUpdate) (i : ℕ) (name : List ℕ) (a : AnimationState) → name_at u i ≡ Some name
        → kept_at u.old u.lists.names i name ≡ Some a → is_some a.hold ≡ is_paused_at u.lists i
        → animation_at u i ≡ Some (record a { place = i; timing = timing_at u.lists i }) }
{}

/// A name stands for no frames exactly where no sheet has a keyframes rule of it, and else for those of the last such rule of the last sheet
/// that has one.
pub fn last_rule_counts()
    ensures none { (name : List ℕ) (sheets : List (Option SheetRules)) → (frames_named name sheets ≡ None) ↔ All (HasNoRule name) sheets }
    ensures last { (name : List ℕ) (before after : List (Option SheetRules)) (rules : List Rule) (earlier later : List KeyframesRule) (rule : KeyframesRule)
        → rule.name ≡ name → All (λ other. other.name ≢ name) later → All (HasNoRule name) after
        → frames_named name (before ++ Some (sheet_rules rules (earlier ++ rule ∷ later)) ∷ after) ≡ Some rule.frames }
{}

/// Animations that are all paused are sampled alike at any time.
pub fn paused_samples_stay()
    ensures { (animations : List AnimationState) (sheets : List (Option SheetRules)) (t later : ℤ) → All (λ a. IsSome a.hold) animations
        → samples_of animations sheets later ≡ samples_of animations sheets t }
{}
