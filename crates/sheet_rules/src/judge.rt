//! The values of declarations, judged where their ends are reached.
ghost use Rattle.std.specs.Prelude.{◌≡◌, ◌++◌, All, IfOk, OnOk, map};
ghost use Rattle.css_token.specs.TokenLists.{LiesWithin, bytes_of};
ghost use Rattle.shorthand_text.specs.Longhands.{IsLonghand};
ghost use Rattle.shorthand_text.specs.declared.known_name.KnownName.TheVariants.{Property};
ghost use Rattle.sheet_rules.specs.Declarations.{IsLastSolid, IsMarkAt, declaration_of, ends_important, fault_at, is_animatable, is_dropped, is_important, is_mark, judged, judged_as, read_as, solid, unmarked};
ghost use Rattle.sheet_rules.specs.Faults.{GivesMore};

use crate::block_kind::BlockKind;
use crate::fault::{BoundName, CssFault};
use crate::scan::{front, is_space};
use css_token::{Kind, Token};
use sheet_types::{Declaration, DeclarationParts};
use shorthand_text::{KnownName, Longhand, read_longhands};
use std::alloc::{AllocError, Global};
use token_parts::{ValueFault, is_keyword};
use value_text::read_value;
use value_types::{ListName, PropertyId, Shorthand};

/// The bytes of a token of the text.
pub(crate) fn bytes_of<'a>(text: &'a [u8], token: &Token) -> &'a [u8]
    requires { LiesWithin text.now token.now }
    ensures { result.now ≡ bytes_of text.now token.now }
{
    &text[token.from as usize..token.to as usize]
}

/// The tokens but for spaces.
pub(crate) fn solid(alloc: Global, tokens: &[Token]) -> Result<Vec<Token>, AllocError>
    ensures { IfOk result (λ v. v.items ≡ solid tokens.now) }
{
    let mut found = Vec::with_capacity(alloc, tokens.len())?;
    for token in tokens {
        if !is_space(token) {
            found.push(*token)?;
        }
    }
    Ok(found)
}

fn is_mark(text: &[u8], token: &Token) -> bool
    requires { LiesWithin text.now token.now }
    ensures { result ≡ is_mark text.now token.now }
{
    matches!(token.kind, Kind::Delim) && is_keyword(bytes_of(text, token), b"!")
}

fn is_important(text: &[u8], token: &Token) -> bool
    requires { LiesWithin text.now token.now }
    ensures { result ≡ is_important text.now token.now }
{
    matches!(token.kind, Kind::Ident) && is_keyword(bytes_of(text, token), b"important")
}

/// Where the last solid token stands; `None` where all are spaces.
fn last_solid(tokens: &[Token]) -> Option<usize>
    ensures { IsLastSolid tokens.now result }
{
    let mut count = tokens.len();
    while count > 0 {
        count -= 1;
        if !is_space(&tokens[count]) {
            return Some(count);
        }
    }
    None
}

/// Where an `!important` at the end of the tokens begins.
fn mark_at(text: &[u8], tokens: &[Token]) -> Option<usize>
    requires { All (LiesWithin text.now) tokens.now }
    ensures { IsMarkAt text.now tokens.now result }
{
    let Some(last) = last_solid(tokens) else {
        return None;
    };
    if !is_important(text, &tokens[last]) {
        return None;
    }
    let before = front(tokens, last);
    let Some(mark) = last_solid(before) else {
        return None;
    };
    if is_mark(text, &before[mark]) {
        Some(mark)
    } else {
        None
    }
}

/// Whether the tokens end with `!important`, and those before it.
fn importance<'a>(text: &[u8], tokens: &'a [Token]) -> (bool, &'a [Token])
    requires { All (LiesWithin text.now) tokens.now }
    ensures important { result.0 ≡ ends_important text.now (solid tokens.now) }
    ensures value { solid result.1.now ≡ unmarked text.now (solid tokens.now) }
    ensures within { All (LiesWithin text.now) result.1.now }
{
    match mark_at(text, tokens) {
        Some(count) => (true, front(tokens, count)),
        None => (false, tokens),
    }
}

fn is_animatable(name: KnownName) -> bool
    ensures { result ≡ is_animatable name }
{
    match name {
        KnownName::Property(p) => !matches!(p, PropertyId::Display),
        KnownName::List(list) => matches!(list, ListName::AnimationEasing),
        KnownName::Short(shorthand) => !matches!(shorthand, Shorthand::All),
        KnownName::Transition | KnownName::Animation => false,
    }
}

fn is_dropped(block: BlockKind, name: KnownName, important: bool) -> bool
    ensures { result ≡ is_dropped block name important }
{
    match block {
        BlockKind::Attribute | BlockKind::Style => false,
        BlockKind::Keyframe => important || !is_animatable(name),
    }
}

fn fault_at(name: KnownName, at: u32, fault: ValueFault) -> CssFault
    ensures { result ≡ fault_at name at fault }
{
    match fault {
        ValueFault::Unsupported => CssFault::UnsupportedValue { name, at },
        ValueFault::BoundItems => CssFault::Bound {
            what: BoundName::Items,
            at,
        },
        ValueFault::Bound => CssFault::Bound {
            what: BoundName::Value,
            at,
        },
        ValueFault::NoMemory => CssFault::NoMemory,
    }
}

/// Declares all longhands with one importance at one place.
fn append(
    found: &mut Vec<Declaration>,
    longhands: Vec<Longhand>,
    important: bool,
    place: u32,
) -> Result<(), AllocError>
    requires { All IsLonghand longhands.items }
    ensures { OnOk result (found.new.items ≡ found.old.items ++ map (declaration_of place important) longhands.items) }
{
    for longhand in longhands {
        found.push(Declaration::new(DeclarationParts {
            longhand,
            important,
            place,
        }))?;
    }
    Ok(())
}

/// Appends what the tokens declare of the property.
#[tactic(auto, unfolding(shorthand_text::specs::Declaring::declared_of))]
fn read_property(
    alloc: Global,
    found: &mut Vec<Declaration>,
    place: u32,
    at: u32,
    important: bool,
    text: &str,
    tokens: &[Token],
    p: PropertyId,
) -> Result<(), CssFault>
    requires { All (LiesWithin text.now) tokens.now }
    ensures { GivesMore found.old.items found.new.items result (read_as place at important text.now tokens.now (Property p)) }
{
    match read_value(alloc, p, text, tokens) {
        Err(fault) => Err(fault_at(KnownName::Property(p), at, fault)),
        Ok(declared) => {
            let declaration = Declaration::new(DeclarationParts {
                longhand: Longhand::Property(p, declared),
                important,
                place,
            });
            let Ok(()) = found.push(declaration) else {
                return Err(CssFault::NoMemory);
            };
            Ok(())
        }
    }
}

/// Appends what the tokens declare of the name.
fn read_name(
    alloc: Global,
    found: &mut Vec<Declaration>,
    place: u32,
    at: u32,
    important: bool,
    text: &str,
    tokens: &[Token],
    name: KnownName,
) -> Result<(), CssFault>
    requires { All (LiesWithin text.now) tokens.now }
    ensures { GivesMore found.old.items found.new.items result (read_as place at important text.now tokens.now name) }
{
    match read_longhands(alloc, name, text, tokens) {
        Err(fault) => Err(fault_at(name, at, fault)),
        Ok(longhands) => {
            let Ok(()) = append(found, longhands, important, place) else {
                return Err(CssFault::NoMemory);
            };
            Ok(())
        }
    }
}

/// Appends what a declaration of the name with this value gives the block; `at` is where the name stands.
fn judge_as(
    alloc: Global,
    found: &mut Vec<Declaration>,
    block: BlockKind,
    place: u32,
    at: u32,
    text: &str,
    tokens: &[Token],
    name: KnownName,
) -> Result<(), CssFault>
    requires { All (LiesWithin text.now) tokens.now }
    ensures { GivesMore found.old.items found.new.items result (judged_as block place at text.now (solid tokens.now) name) }
{
    let (important, value) = importance(text.as_bytes(), tokens);
    if is_dropped(block, name, important) {
        return Ok(());
    }
    match name {
        KnownName::Property(p) => {
            read_property(alloc, found, place, at, important, text, value, p)
        }
        _ => read_name(alloc, found, place, at, important, text, value, name),
    }
}

/// Appends what a declaration gives the block; one of an unknown name gives nothing.
#[tactic(auto, unfolding(crate::specs::Declarations::judged))]
pub(crate) fn judge(
    alloc: Global,
    found: &mut Vec<Declaration>,
    block: BlockKind,
    place: u32,
    at: u32,
    text: &str,
    tokens: &[Token],
    name: Option<KnownName>,
) -> Result<(), CssFault>
    requires { All (LiesWithin text.now) tokens.now }
    ensures { GivesMore found.old.items found.new.items result (judged block place at text.now (solid tokens.now) name) }
{
    match name {
        None => Ok(()),
        Some(name) => judge_as(alloc, found, block, place, at, text, tokens, name),
    }
}
