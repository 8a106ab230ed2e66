//! Items of timing lists.
ghost use Rattle.std.specs.Prelude.{◌≡◌, pos, Bool, List, Option, map, true, IfOk, option_map};
ghost use Rattle.token_parts.specs.Keywords.{look_up};
ghost use Rattle.token_parts.specs.Parts.{TokenPart, token_part};
ghost use Rattle.value_types.specs.declared.list_value.ListName.{ListName};
ghost use Rattle.list_text.specs.Lists.{direction_words, fill_words, state_words, shorthand_words, name_of_word, property_of_word};
ghost use Rattle.list_text.specs.Numbers.{clamped_nearest};
ghost use Rattle.list_text.specs.Reading.{easing_of, easing_within, natural, word_of};
ghost use Rattle.list_text.specs.ItemReading.{count_of, count_within, count_word, has_sign, micros_of, micros_within, time_of, time_with, word_item};

use crate::easing;
use crate::number::{clamped, natural};
use fix_num::limits::{MAX_NUMBER, MAX_TIME};
use fix_num::{Fix, Micros};
use std::alloc::{AllocError, Global};
use timing_types::{
    Count, Direction, Easing, Fill, Name, PlayState, is_animation_name, is_reserved,
};
use token_parts::{Part, is_keyword, look_up};
use value_types::{ListName, PropertyId, PropertyItem, Shorthand};

const LONGEST: i64 = MAX_TIME as i64;

const MOST: i64 = MAX_NUMBER as i64;

/// What stands between the commas of a list.
pub trait Item: Drop + Sized {
    /// The item of the list that the parts spell, with its numbers clamped.
    ghost item_of: { ListName → List TokenPart → Option Self };

    ghost within: { Self → Bool };

    /// The item of the list that the parts spell, where its numbers may be just past their limits; `None` where they
    /// spell none.
    fn read(alloc: Global, name: ListName, parts: &[Part]) -> Result<Option<Self>, AllocError>
        ensures { IfOk result (λ o. o ≡ item_of name (map token_part parts.now)) };

    /// Whether its numbers are within their limits.
    fn is_within(&self) -> bool
        ensures { result ≡ within self.now };
}

impl Item for PropertyItem {
    ghost item_of = { λ name parts. word_item property_of_word parts };

    ghost within = { λ x. true };

    fn read(_alloc: Global, _name: ListName, parts: &[Part]) -> Result<Option<Self>, AllocError> {
        Ok(property_item(parts))
    }

    fn is_within(&self) -> bool {
        true
    }
}

impl Item for Option<Name> {
    ghost item_of = { λ name parts. word_item name_of_word parts };

    ghost within = { λ x. true };

    fn read(alloc: Global, _name: ListName, parts: &[Part]) -> Result<Option<Self>, AllocError> {
        let Some(word) = word_of(parts) else {
            return Ok(None);
        };
        if is_keyword(word, b"none") {
            return Ok(Some(None));
        }
        if !is_animation_name(word) {
            return Ok(None);
        }
        Ok(Some(Some(Name::from_bytes(alloc, word)?)))
    }

    fn is_within(&self) -> bool {
        true
    }
}

impl Item for Micros {
    ghost item_of = { λ name parts. micros_of clamped_nearest (has_sign name) parts };

    ghost within = { λ x. micros_within x };

    fn read(_alloc: Global, name: ListName, parts: &[Part]) -> Result<Option<Self>, AllocError> {
        Ok(micros_of(has_sign(name), parts))
    }

    fn is_within(&self) -> bool {
        self.0.unsigned_abs() <= MAX_TIME
    }
}

impl Item for Easing {
    ghost item_of = { λ name parts. easing_of clamped_nearest parts };

    ghost within = { λ x. easing_within x };

    fn read(_alloc: Global, _name: ListName, parts: &[Part]) -> Result<Option<Self>, AllocError> {
        Ok(easing::easing_of(parts))
    }

    fn is_within(&self) -> bool {
        easing::is_within(self)
    }
}

impl Item for Count {
    ghost item_of = { λ name parts. count_of clamped_nearest parts };

    ghost within = { λ x. count_within x };

    fn read(_alloc: Global, _name: ListName, parts: &[Part]) -> Result<Option<Self>, AllocError> {
        Ok(count_of(parts))
    }

    fn is_within(&self) -> bool {
        match *self {
            Count::Times(number) => number.0.unsigned_abs() <= MAX_NUMBER,
            Count::Infinite => true,
        }
    }
}

impl Item for Direction {
    ghost item_of = { λ name parts. word_item (look_up direction_words) parts };

    ghost within = { λ x. true };

    fn read(_alloc: Global, _name: ListName, parts: &[Part]) -> Result<Option<Self>, AllocError> {
        Ok(direction(parts))
    }

    fn is_within(&self) -> bool {
        true
    }
}

impl Item for Fill {
    ghost item_of = { λ name parts. word_item (look_up fill_words) parts };

    ghost within = { λ x. true };

    fn read(_alloc: Global, _name: ListName, parts: &[Part]) -> Result<Option<Self>, AllocError> {
        Ok(fill(parts))
    }

    fn is_within(&self) -> bool {
        true
    }
}

impl Item for PlayState {
    ghost item_of = { λ name parts. word_item (look_up state_words) parts };

    ghost within = { λ x. true };

    fn read(_alloc: Global, _name: ListName, parts: &[Part]) -> Result<Option<Self>, AllocError> {
        Ok(state(parts))
    }

    fn is_within(&self) -> bool {
        true
    }
}

/// The only word.
fn word_of<'a>(parts: &[Part<'a>]) -> Option<&'a [u8]>
    ensures { option_map (λ word. word.now) result ≡ word_of (map token_part parts.now) }
{
    match parts {
        [Part::Ident(word)] => Some(word),
        _ => None,
    }
}

fn property_item(parts: &[Part]) -> Option<PropertyItem>
    ensures { result ≡ word_item property_of_word (map token_part parts.now) }
{
    property_of_word(word_of(parts)?)
}

fn property_of_word(word: &[u8]) -> Option<PropertyItem>
    ensures { result ≡ property_of_word word.now }
{
    if is_reserved(word) {
        return None;
    }
    if is_keyword(word, b"all") {
        return Some(PropertyItem::All);
    }
    if let Some(property) = PropertyId::by_bytes(word) {
        return Some(PropertyItem::Property(property));
    }
    match shorthand(word) {
        Some(shorthand) => Some(PropertyItem::Short(shorthand)),
        None => Some(PropertyItem::Unknown),
    }
}

fn shorthand(word: &[u8]) -> Option<Shorthand>
    ensures { result ≡ look_up shorthand_words word.now }
{
    look_up(
        &[
            ("background", Shorthand::Background),
            ("inset", Shorthand::Inset),
            ("margin", Shorthand::Margin),
            ("padding", Shorthand::Padding),
        ],
        word,
    )
}

/// Whether an item of the list may be negative.
fn has_sign(name: ListName) -> bool
    ensures { result ≡ has_sign name }
{
    !matches!(
        name,
        ListName::TransitionDuration | ListName::AnimationDuration
    )
}

#[tactic(auto, unfolding(crate::specs::ItemReading::micros_of))]
fn micros_of(signed: bool, parts: &[Part]) -> Option<Micros>
    ensures { result ≡ micros_of clamped_nearest signed (map token_part parts.now) }
{
    let time = time_of(parts)?;
    if !signed && time < 0 {
        return None;
    }
    Some(Micros(time))
}

fn time_of(parts: &[Part]) -> Option<i64>
    ensures { result ≡ time_of clamped_nearest (map token_part parts.now) }
{
    match parts {
        [Part::Dimension { number, unit }] => time_with(number, unit),
        _ => None,
    }
}

/// The time in microseconds.
#[tactic(auto, unfolding(crate::specs::ItemReading::time_with))]
fn time_with(number: &[u8], unit: &[u8]) -> Option<i64>
    ensures { result ≡ time_with clamped_nearest number.now unit.now }
{
    if is_keyword(unit, b"s") {
        clamped(number, 6, LONGEST)
    } else if is_keyword(unit, b"ms") {
        clamped(number, 3, LONGEST)
    } else {
        None
    }
}

fn count_of(parts: &[Part]) -> Option<Count>
    ensures { result ≡ count_of clamped_nearest (map token_part parts.now) }
{
    match parts {
        [Part::Ident(word)] => count_word(word),
        [Part::Number(number)] => count_number(number),
        _ => None,
    }
}

fn count_word(word: &[u8]) -> Option<Count>
    ensures { result ≡ count_word word.now }
{
    if is_keyword(word, b"infinite") {
        return Some(Count::Infinite);
    }
    None
}

fn count_number(number: &[u8]) -> Option<Count>
    ensures { result ≡ option_map (λ k. Count.Times (record { 0 = pos k })) (natural clamped_nearest 6 MAX_NUMBER number.now) }
{
    let count = natural(number, 6, MOST)?;
    Some(Count::Times(Fix(count as i64)))
}

fn direction(parts: &[Part]) -> Option<Direction>
    ensures { result ≡ word_item (look_up direction_words) (map token_part parts.now) }
{
    look_up(
        &[
            ("normal", Direction::Normal),
            ("reverse", Direction::Reverse),
            ("alternate", Direction::Alternate),
            ("alternate-reverse", Direction::AlternateReverse),
        ],
        word_of(parts)?,
    )
}

fn fill(parts: &[Part]) -> Option<Fill>
    ensures { result ≡ word_item (look_up fill_words) (map token_part parts.now) }
{
    look_up(
        &[
            ("none", Fill::Nothing),
            ("forwards", Fill::Forwards),
            ("backwards", Fill::Backwards),
            ("both", Fill::Both),
        ],
        word_of(parts)?,
    )
}

fn state(parts: &[Part]) -> Option<PlayState>
    ensures { result ≡ word_item (look_up state_words) (map token_part parts.now) }
{
    look_up(
        &[
            ("running", PlayState::Running),
            ("paused", PlayState::Paused),
        ],
        word_of(parts)?,
    )
}
