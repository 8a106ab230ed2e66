//! The strongest declarations so far.
ghost use Rattle.std.specs.Prelude.{◌≡◌, ◌<◌, length};
ghost use Rattle.cascade_sort.specs.Applying.{applied_from};
ghost use Rattle.cascade_sort.specs.Finding.{no_offers, stronger_of, with_offer, with_offers};

use crate::precedence::Precedence;
use crate::slot::{SLOTS, slot_of};
use sheet_types::Declaration;
use std::marker::Model;

/// The precedence of the strongest declaration so far, by slot. Contracts see it as their list.
#[derive(Drop)]
pub(crate) struct Strongest {
    slots: [Option<Precedence>; SLOTS],
}

impl Model for Strongest {
    ghost use Rattle.std.specs.Prelude.{◌≡◌, List, Option, length};
    ghost use Rattle.cascade_sort.specs.declared.precedence.Precedence.{Precedence as Seen};

    ghost Value = { List (Option Seen) };

    ghost view = { λ s. s.slots };

    ghost invariant = { λ s. length s.slots ≡ 72 };
}

impl Strongest {
    /// No declaration yet.
    pub(crate) fn none() -> Strongest
        ensures { result ≡ no_offers }
    {
        Strongest {
            slots: [None; SLOTS],
        }
    }

    /// What stands in the slots.
    pub(crate) fn slots(&self) -> &[Option<Precedence>]
        ensures value { result.now ≡ self.now }
        ensures count { length result.now ≡ SLOTS }
    {
        self.slots.as_slice()
    }

    /// Keeps the declaration in its slot, unless a stronger one is there.
    fn offer(&mut self, slot: usize, precedence: Precedence)
        requires { slot < SLOTS }
        ensures { self.new ≡ with_offer self.old slot precedence }
    {
        self.slots[slot] = Some(stronger_of(&self.slots[slot], precedence));
    }

    /// Keeps the strongest declarations of a block, whose precedences differ from this one in their places.
    pub(crate) fn offer_block(&mut self, block: Precedence, declarations: &[Declaration])
        ensures { self.new ≡ with_offers self.old (applied_from block 0 declarations.now) }
    {
        for (at, declaration) in declarations.iter().enumerate() {
            let parts = declaration.get();
            let slot = slot_of(&parts.longhand, parts.important);
            self.offer(
                slot,
                Precedence {
                    declaration: at,
                    ..block
                },
            );
        }
    }
}

fn stronger_of(best: &Option<Precedence>, precedence: Precedence) -> Precedence
    ensures { result ≡ stronger_of best.now precedence }
{
    match best {
        None => precedence,
        Some(best) => {
            if best.is_at_most(&precedence) {
                precedence
            } else {
                *best
            }
        }
    }
}
