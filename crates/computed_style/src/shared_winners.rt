//! Winning declarations as they are shared.

ghost use Rattle.std.specs.Prelude.{◌≡◌, IfOk, unwrap_or};
ghost use Rattle.timing_types.specs.TimingLists.{initial_animations};
ghost use Rattle.value_types.specs.TransitionLists.{initial_transitions};
ghost use Rattle.computed_style.specs.ComputedStyles.{animation_lists_of, transition_lists_of};

use crate::declared_set::Winning;
use crate::lists::{animation_lists, transition_lists};
use std::alloc::{AllocError, Global};
use std::marker::Model;
use timing_types::AnimationLists;
use value_types::{Shared, TransitionLists};

/// Winning declarations with the timing lists that they give, which are built once for all who share them. Contracts
/// see them as the declarations.
#[derive(Drop)]
pub(crate) struct SharedWinners {
    winning: Winning,
    /// None where no list that times transitions is declared.
    transitions: Option<Shared<TransitionLists>>,
    /// None where no list that times animations is declared.
    animations: Option<Shared<AnimationLists>>,
}

impl Model for SharedWinners {
    ghost use Rattle.computed_style.specs.Winners.{Declarations};

    ghost Value = { Declarations };

    ghost use Rattle.std.specs.Prelude.{◌≡◌, unwrap_or};
    ghost use Rattle.timing_types.specs.TimingLists.{initial_animations};
    ghost use Rattle.value_types.specs.TransitionLists.{initial_transitions};
    ghost use Rattle.computed_style.specs.ComputedStyles.{animation_lists_of, transition_lists_of};

    ghost view = { λ s. s.winning };

    ghost invariant = { λ s. (unwrap_or s.transitions initial_transitions ≡ transition_lists_of s.winning) × (unwrap_or s.animations initial_animations ≡ animation_lists_of s.winning) };
}

impl SharedWinners {
    /// These declarations, with what is found of them.
    pub(crate) fn new(alloc: Global, winning: Winning) -> Result<SharedWinners, AllocError>
        ensures { IfOk result (λ s. s ≡ winning) }
    {
        let transitions = transition_lists(alloc, &winning)?;
        let animations = animation_lists(alloc, &winning)?;
        Ok(SharedWinners {
            winning,
            transitions,
            animations,
        })
    }

    pub(crate) fn winning(&self) -> &Winning
        ensures { result.now ≡ self.now }
    {
        &self.winning
    }

    pub(crate) fn transition_lists(&self) -> Result<Option<Shared<TransitionLists>>, AllocError>
        ensures { IfOk result (λ lists. unwrap_or lists initial_transitions ≡ transition_lists_of self.now) }
    {
        match &self.transitions {
            None => Ok(None),
            Some(lists) => Ok(Some(lists.copy()?)),
        }
    }

    pub(crate) fn animation_lists(&self) -> Result<Option<Shared<AnimationLists>>, AllocError>
        ensures { IfOk result (λ lists. unwrap_or lists initial_animations ≡ animation_lists_of self.now) }
    {
        match &self.animations {
            None => Ok(None),
            Some(lists) => Ok(Some(lists.copy()?)),
        }
    }
}
