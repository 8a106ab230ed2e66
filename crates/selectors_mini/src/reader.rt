//! The reader of one selector.

ghost use Rattle.std.specs.Prelude.{◌≡◌, ◌++◌, All, OnOk, option_map, option_to_list};
ghost use Rattle.css_token.specs.TokenLists.{LiesWithin};
ghost use Rattle.selectors_mini.specs.Parts.{SelectorPart, part_of_code, parts_of};
ghost use Rattle.selectors_mini.specs.Reading.{Tells, begin, compounds_of, ending, is_greater, is_space, stay, step_below, step_from, step_inside, step_spaced, step_start, step_to_name};

use crate::combinator::Combinator;
use crate::compound::Compound;
use crate::part::{Part, part_of};
use crate::reading::SelectorFault;
use css_token::Token;
use std::alloc::{AllocError, Global};

/// Where the reader of a selector stands.
#[derive(Clone, Copy)]
pub(crate) enum Place {
    /// Before the first compound.
    Start,
    /// Directly after a part of a compound.
    Inside,
    /// After the `.` of a class.
    Point,
    /// After a compound and spaces.
    Spaced,
    /// After a compound and `>`, with spaces or not.
    Below,
}

/// Where a part leads: the compound that it ends, the one that is being read, and where the reader stands.
#[derive(Drop)]
pub(crate) struct Advance {
    ended: Option<Compound>,
    compound: Compound,
    place: Place,
}

/// The compounds of the selector that the tokens spell, from the left.
pub(crate) fn compounds_of(
    alloc: Global,
    text: &[u8],
    tokens: &[Token],
) -> Result<Vec<Compound>, SelectorFault>
    requires { All (LiesWithin text.now) tokens.now }
    ensures { Tells (λ v. v.items) result (compounds_of (parts_of text.now tokens.now)) }
{
    let mut ended = Vec::new(alloc);
    let mut compound = Compound::any_element(alloc);
    let mut place = Place::Start;
    for token in tokens {
        let part = part_of(text, token);
        let next = match step_from(alloc, place, compound, &part) {
            Ok(next) => next,
            Err(fault) => return Err(fault),
        };
        let Ok(()) = push_some(&mut ended, next.ended) else {
            return Err(SelectorFault::NoMemory);
        };
        compound = next.compound;
        place = next.place;
    }
    finished(ended, compound, place)
}

/// The compounds with the last one, if a selector may end there.
fn finished(
    ended: Vec<Compound>,
    compound: Compound,
    place: Place,
) -> Result<Vec<Compound>, SelectorFault>
    ensures { Tells (λ v. v.items) result (option_map (λ cs. ended.items ++ cs) (ending place compound)) }
{
    match place {
        Place::Inside | Place::Spaced => {
            let mut compounds = ended;
            match compounds.push(compound) {
                Ok(()) => Ok(compounds),
                Err(_) => Err(SelectorFault::NoMemory),
            }
        }
        Place::Start | Place::Point | Place::Below => Err(SelectorFault::Unsupported),
    }
}

fn push_some(compounds: &mut Vec<Compound>, compound: Option<Compound>) -> Result<(), AllocError>
    ensures { OnOk result (compounds.new.items ≡ compounds.old.items ++ option_to_list compound) }
{
    if let Some(compound) = compound {
        compounds.push(compound)?;
    }
    Ok(())
}

/// Where the part leads.
fn step_from(
    alloc: Global,
    place: Place,
    compound: Compound,
    part: &Part,
) -> Result<Advance, SelectorFault>
    ensures { Tells (λ s. s) result (step_from place compound (part_of_code part.now)) }
{
    match place {
        Place::Start => step_start(alloc, compound, part),
        Place::Inside => step_inside(alloc, compound, part),
        Place::Point => step_to_name(alloc, compound, part),
        Place::Spaced => step_spaced(alloc, compound, part),
        Place::Below => step_below(alloc, compound, part),
    }
}

fn step_start(alloc: Global, compound: Compound, part: &Part) -> Result<Advance, SelectorFault>
    ensures { Tells (λ s. s) result (step_start compound (part_of_code part.now)) }
{
    if is_space(part) {
        Ok(stay(Place::Start, compound))
    } else {
        begin(alloc, None, part)
    }
}

fn step_inside(alloc: Global, compound: Compound, part: &Part) -> Result<Advance, SelectorFault>
    ensures { Tells (λ s. s) result (step_inside compound (part_of_code part.now)) }
{
    match part {
        Part::Hash(name) => compound_with_id(alloc, compound, name),
        Part::Dot => Ok(stay(Place::Point, compound)),
        Part::Greater => Ok(stay(Place::Below, compound)),
        Part::Space => Ok(stay(Place::Spaced, compound)),
        Part::Word(_) | Part::Star | Part::Comma | Part::Other => Err(SelectorFault::Unsupported),
    }
}

fn step_to_name(alloc: Global, compound: Compound, part: &Part) -> Result<Advance, SelectorFault>
    ensures { Tells (λ s. s) result (step_to_name compound (part_of_code part.now)) }
{
    match part {
        Part::Word(name) => compound_with_class(alloc, compound, name),
        Part::Hash(_)
        | Part::Dot
        | Part::Star
        | Part::Greater
        | Part::Comma
        | Part::Space
        | Part::Other => Err(SelectorFault::Unsupported),
    }
}

fn step_spaced(alloc: Global, compound: Compound, part: &Part) -> Result<Advance, SelectorFault>
    ensures { Tells (λ s. s) result (step_spaced compound (part_of_code part.now)) }
{
    if is_space(part) {
        Ok(stay(Place::Spaced, compound))
    } else if is_greater(part) {
        Ok(stay(Place::Below, compound))
    } else {
        begin(
            alloc,
            Some(compound.followed_by(Combinator::Descendant)),
            part,
        )
    }
}

fn step_below(alloc: Global, compound: Compound, part: &Part) -> Result<Advance, SelectorFault>
    ensures { Tells (λ s. s) result (step_below compound (part_of_code part.now)) }
{
    if is_space(part) {
        Ok(stay(Place::Below, compound))
    } else {
        begin(alloc, Some(compound.followed_by(Combinator::Child)), part)
    }
}

/// A compound begins with the part, which ends another.
fn begin(alloc: Global, ended: Option<Compound>, part: &Part) -> Result<Advance, SelectorFault>
    ensures { Tells (λ s. s) result (begin ended (part_of_code part.now)) }
{
    match part {
        Part::Word(name) => of_type(alloc, ended, name),
        Part::Hash(name) => of_id(alloc, ended, name),
        Part::Dot => Ok(Advance {
            ended,
            compound: Compound::any_element(alloc),
            place: Place::Point,
        }),
        Part::Star => Ok(Advance {
            ended,
            compound: Compound::any_element(alloc),
            place: Place::Inside,
        }),
        Part::Greater | Part::Comma | Part::Space | Part::Other => Err(SelectorFault::Unsupported),
    }
}

/// On with the same compound.
fn stay(place: Place, compound: Compound) -> Advance
    ensures { result ≡ stay place compound }
{
    Advance {
        ended: None,
        compound,
        place,
    }
}

fn of_type(alloc: Global, ended: Option<Compound>, name: &[u8]) -> Result<Advance, SelectorFault>
    ensures { Tells (λ s. s) result (begin ended (SelectorPart.Word name.now)) }
{
    let Ok(compound) = Compound::of_type(alloc, name) else {
        return Err(SelectorFault::NoMemory);
    };
    Ok(Advance {
        ended,
        compound,
        place: Place::Inside,
    })
}

fn of_id(alloc: Global, ended: Option<Compound>, name: &[u8]) -> Result<Advance, SelectorFault>
    ensures { Tells (λ s. s) result (begin ended (SelectorPart.Hash name.now)) }
{
    let mut compound = Compound::any_element(alloc);
    let Ok(()) = compound.add_id(alloc, name) else {
        return Err(SelectorFault::NoMemory);
    };
    Ok(Advance {
        ended,
        compound,
        place: Place::Inside,
    })
}

fn compound_with_id(
    alloc: Global,
    compound: Compound,
    name: &[u8],
) -> Result<Advance, SelectorFault>
    ensures { Tells (λ s. s) result (step_inside compound (SelectorPart.Hash name.now)) }
{
    let mut longer = compound;
    match longer.add_id(alloc, name) {
        Ok(()) => Ok(stay(Place::Inside, longer)),
        Err(_) => Err(SelectorFault::NoMemory),
    }
}

fn compound_with_class(
    alloc: Global,
    compound: Compound,
    name: &[u8],
) -> Result<Advance, SelectorFault>
    ensures { Tells (λ s. s) result (step_to_name compound (SelectorPart.Word name.now)) }
{
    let mut longer = compound;
    match longer.add_class(alloc, name) {
        Ok(()) => Ok(stay(Place::Inside, longer)),
        Err(_) => Err(SelectorFault::NoMemory),
    }
}

fn is_space(part: &Part) -> bool
    ensures { result ≡ is_space (part_of_code part.now) }
{
    matches!(part, Part::Space)
}

fn is_greater(part: &Part) -> bool
    ensures { result ≡ is_greater (part_of_code part.now) }
{
    matches!(part, Part::Greater)
}
