//! What is handed down in a pass in tree order.

ghost use Rattle.std.specs.Prelude.{◌≡◌, [], IfOk, IsSome, OnOk, Some, option_copied};
ghost use Rattle.pass_core.specs.Downs.{is_leaf, down_at, down_for, last_down, with_down};

use crate::plan::Place;
use std::alloc::{AllocError, Global};
use std::marker::Model;

/// What is handed down at the top of a plan, and by each of its places so far that is no leaf. What a leaf would hand down
/// isn't kept: no place has it for its parent.
#[derive(Drop)]
pub(crate) struct Downs<D> {
    top: D,
    /// The index in `kept` of what the place hands down. A leaf has that of the next place that is none.
    seats: Vec<usize>,
    kept: Vec<D>,
}

impl<D> Model for Downs<D> {
    ghost use Rattle.pass_core.specs.Downs.{KeptDowns};

    ghost Value = { KeptDowns D };

    ghost view = { λ s. record { top = s.top; seats = s.seats.items; kept = s.kept.items } };
}

impl<D: Copy> Downs<D> {
    /// Nothing but what is handed down at the top, with room for what so many places hand down.
    pub(crate) fn begin(alloc: Global, top: D, places: usize) -> Result<Downs<D>, AllocError>
        ensures { IfOk result (λ s. s ≡ record { top = top; seats = []; kept = [] }) }
    {
        Ok(Downs {
            top,
            seats: Vec::with_capacity(alloc, places)?,
            kept: Vec::with_capacity(alloc, places)?,
        })
    }

    /// Whether the place, which comes next, is a leaf of the plan.
    pub(crate) fn is_leaf(&self, place: Place) -> bool
        ensures { result ≡ is_leaf self.now place }
    {
        place.end as usize == self.seats.len() + 1
    }

    /// What is handed down to the place, whose parent's place is done.
    pub(crate) fn down_for(&self, place: Place) -> &D
        requires { IsSome (down_for self.now place) }
        ensures { down_for self.now place ≡ Some result.now }
    {
        match place.parent {
            None => &self.top,
            Some(parent) => self.down_at(parent as usize).unwrap(),
        }
    }

    /// What the place that came last hands down; `None` of a leaf.
    pub(crate) fn last(&self) -> Option<&D>
        ensures { option_copied result ≡ last_down self.now }
    {
        let seat = self.seats.last()?;
        self.kept.get(*seat)
    }

    /// What the place at the index hands down, where it is kept.
    fn down_at(&self, index: usize) -> Option<&D>
        ensures { option_copied result ≡ down_at self.now index }
    {
        let seat = self.seats.get(index)?;
        self.kept.get(*seat)
    }

    /// Notes what the next place hands down; `None` of a leaf.
    pub(crate) fn push(&mut self, down: Option<D>) -> Result<(), AllocError>
        ensures { OnOk result (self.new ≡ with_down self.old down) }
    {
        self.seats.push(self.kept.len())?;
        if let Some(down) = down {
            self.kept.push(down)?;
        }
        Ok(())
    }
}
