//! The sheets of a document.
ghost use Rattle.std.specs.Prelude.{◌≡◌, ◌≤◌, ◌-◌, length, None, replicate, set, slice_index_or, IfOk, option_copied};
ghost use Rattle.sheet_types.specs.Sheets.{keyframes_in, later_keyframes, no_sheets, sheet_at_place};

use crate::rule::KeyframesRule;
use crate::sheet::Sheet;
use std::alloc::AllocError;
use std::marker::Model;

/// The sheets of a document, at 16 places of which a later one wins. Contracts see them as their list.
#[derive(Drop)]
pub struct Sheets {
    places: [Option<Sheet>; 16],
}

impl Model for Sheets {
    ghost use Rattle.std.specs.Prelude.{◌≡◌, List, Option, length};
    ghost use Rattle.sheet_types.specs.Sheets.{SheetRules};

    ghost Value = { List (Option SheetRules) };

    ghost view = { λ s. s.places };

    ghost invariant = { λ s. length s.places ≡ 16 };
}

impl Sheets {
    /// No sheet at any place.
    pub fn empty() -> Sheets
        ensures { result ≡ no_sheets }
    {
        Sheets {
            places: [
                None, None, None, None, None, None, None, None, None, None, None, None, None, None,
                None, None,
            ],
        }
    }

    /// Puts a sheet, or none, at place `k` from 1. Takes no memory.
    pub fn put(&mut self, k: u32, sheet: Option<Sheet>)
        requires low { 1 ≤ k }
        requires high { k ≤ 16 }
        ensures { self.new ≡ set self.old (k - 1) sheet }
    {
        self.places[k as usize - 1] = sheet;
    }

    /// The sheet at place `k` from 1; `None` where none is there.
    pub fn get(&self, k: u32) -> Option<&Sheet>
        requires low { 1 ≤ k }
        requires high { k ≤ 16 }
        ensures { option_copied result ≡ sheet_at_place self.now k }
    {
        self.places[k as usize - 1].as_ref()
    }

    /// What stands at the places, in their order.
    pub fn as_slice(&self) -> &[Option<Sheet>]
        ensures value { result.now ≡ self.now }
        ensures count { length result.now ≡ 16 }
    {
        self.places.as_slice()
    }

    /// The keyframes rule that an animation of this name runs: the last one of the last sheet with one (CSS Animations
    /// 1, section 3); `None` exactly where no sheet has one.
    pub fn keyframes_named(&self, name: &[u8]) -> Option<&KeyframesRule>
        ensures { option_copied result ≡ keyframes_in name.now self.now }
    {
        let mut found = None;
        for sheet in self.as_slice() {
            found = later_keyframes(name, found, sheet);
        }
        found
    }

    /// The same sheets, which are shared. Takes no memory: it fails only where a sheet has 2^63 copies already.
    pub fn copy(&self) -> Result<Sheets, AllocError>
        ensures { IfOk result (λ sheets. sheets ≡ self.now) }
    {
        let mut copies = Sheets::empty();
        for (at, sheet) in self.as_slice().iter().enumerate() {
            copies.put(at as u32 + 1, copy_of(sheet)?);
        }
        Ok(copies)
    }
}

fn later_keyframes<'a>(
    name: &[u8],
    found: Option<&'a KeyframesRule>,
    sheet: &'a Option<Sheet>,
) -> Option<&'a KeyframesRule>
    ensures { option_copied result ≡ later_keyframes name.now (option_copied found.entry) sheet.now }
{
    match sheet {
        None => found,
        Some(sheet) => sheet.keyframes_named(name).or(found),
    }
}

fn copy_of(sheet: &Option<Sheet>) -> Result<Option<Sheet>, AllocError>
    ensures { IfOk result (λ copy. copy ≡ sheet.now) }
{
    match sheet {
        None => Ok(None),
        Some(sheet) => Ok(Some(sheet.copy()?)),
    }
}
