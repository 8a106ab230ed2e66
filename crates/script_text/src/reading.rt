//! The reading of a line.
ghost use Rattle.std.specs.Prelude.{◌≡◌, IsTrue, MatchResult, false};
ghost use Rattle.std.specs.Str.{IsUtf8, is_utf8};
ghost use Rattle.script_text.specs.Forms.{is_script_name};
ghost use Rattle.script_text.specs.Words.{begins_with_space};
ghost use Rattle.script_text.specs.Reading.{AnswersReading, AnswersNames, names_of, add_said, at_said, class_said, command_of, get_said, id_said, insert_said, judged_statement, list_said, otherwise_said_by, remove_said, said_by, sheet_said, style_said};

use crate::command::Command;
use crate::forms::{is_numeral, is_parent_word, is_script_name};
use crate::number::{SYNTAX, node_number, parent_number, sheet_number, time};
use crate::refusal::ReadCommandFault;
use crate::script_name::ScriptName;
use crate::script_text::ScriptText;
use crate::words::{split_word, trimmed};
use std::alloc::Global;
use timing_types::Items;
use value_types::PropertyId;

/// The name of these bytes.
fn owned_name(alloc: Global, bytes: &[u8]) -> Result<ScriptName, ReadCommandFault>
    requires { IsTrue (is_script_name bytes.now) }
    ensures { MatchResult result (λ name. name ≡ bytes.now) (λ fault. fault ≡ ReadCommandFault.NoMemory) }
{
    match ScriptName::from_bytes(alloc, bytes) {
        Ok(name) => Ok(name),
        Err(_) => Err(ReadCommandFault::NoMemory),
    }
}

/// `N P TAG`
fn read_add(alloc: Global, number: &[u8], rest: &[u8]) -> Result<Command, ReadCommandFault>
    ensures { AnswersReading (judged_statement (add_said number.now rest.now)) result }
{
    let (above, tag) = split_word(rest);
    if !is_numeral(number) || !is_parent_word(above) || !is_script_name(tag) {
        return Err(SYNTAX);
    }
    let node = node_number(number)?;
    let parent = parent_number(above)?;
    let tag = owned_name(alloc, tag)?;
    Ok(Command::Add { node, parent, tag })
}

/// `N B TAG`
fn read_insert(alloc: Global, number: &[u8], rest: &[u8]) -> Result<Command, ReadCommandFault>
    ensures { AnswersReading (judged_statement (insert_said number.now rest.now)) result }
{
    let (next, tag) = split_word(rest);
    if !is_numeral(number) || !is_numeral(next) || !is_script_name(tag) {
        return Err(SYNTAX);
    }
    let node = node_number(number)?;
    let sibling = node_number(next)?;
    let tag = owned_name(alloc, tag)?;
    Ok(Command::Insert { node, sibling, tag })
}

/// `N`
fn read_remove(number: &[u8], rest: &[u8]) -> Result<Command, ReadCommandFault>
    ensures { AnswersReading (judged_statement (remove_said number.now rest.now)) result }
{
    if !is_numeral(number) || !rest.is_empty() {
        return Err(SYNTAX);
    }
    Ok(Command::Remove(node_number(number)?))
}

/// `N NAME` or `N`
fn read_id(alloc: Global, number: &[u8], rest: &[u8]) -> Result<Command, ReadCommandFault>
    ensures { AnswersReading (judged_statement (id_said number.now rest.now)) result }
{
    if rest.is_empty() {
        if !is_numeral(number) {
            return Err(SYNTAX);
        }
        let node = node_number(number)?;
        return Ok(Command::Id { node, name: None });
    }
    if !is_numeral(number) || !is_script_name(rest) {
        return Err(SYNTAX);
    }
    let node = node_number(number)?;
    let name = Some(owned_name(alloc, rest)?);
    Ok(Command::Id { node, name })
}

/// The words of a text that begins with no space, as names.
fn names(alloc: Global, text: &[u8]) -> Result<Items<ScriptName>, ReadCommandFault>
    requires { begins_with_space text.now ≡ false }
    ensures { AnswersNames (names_of text.now) result }
{
    let mut names = Vec::new(alloc);
    let mut rest = text;
    'words: while !rest.is_empty() {
        let (word, others) = split_word(rest);
        if !is_script_name(word) {
            return Err(SYNTAX);
        }
        let name = owned_name(alloc, word)?;
        let Ok(()) = names.push(name) else {
            return Err(ReadCommandFault::NoMemory);
        };
        rest = others;
    }
    Ok(Items::from_vec(names))
}

/// `N NAME NAME`, with none or more names
fn read_class(alloc: Global, number: &[u8], rest: &[u8]) -> Result<Command, ReadCommandFault>
    requires { begins_with_space rest.now ≡ false }
    ensures { AnswersReading (judged_statement (class_said number.now rest.now)) result }
{
    if !is_numeral(number) {
        return Err(SYNTAX);
    }
    let names = names(alloc, rest)?;
    let node = node_number(number)?;
    Ok(Command::Class { node, names })
}

/// The text of these bytes.
fn owned_text(alloc: Global, bytes: &[u8]) -> Result<ScriptText, ReadCommandFault>
    requires { IsUtf8 bytes.now }
    ensures { MatchResult result (λ text. text ≡ bytes.now) (λ fault. fault ≡ ReadCommandFault.NoMemory) }
{
    let Ok(lent) = str::from_utf8(bytes) else {
        unreachable!()
    };
    match ScriptText::from_str(alloc, lent) {
        Ok(text) => Ok(text),
        Err(_) => Err(ReadCommandFault::NoMemory),
    }
}

/// `N TEXT`
fn read_style(alloc: Global, number: &[u8], rest: &[u8]) -> Result<Command, ReadCommandFault>
    requires { IsUtf8 rest.now }
    ensures { AnswersReading (judged_statement (style_said number.now rest.now)) result }
{
    if !is_numeral(number) {
        return Err(SYNTAX);
    }
    let node = node_number(number)?;
    let text = owned_text(alloc, rest)?;
    Ok(Command::Style { node, text })
}

/// `K TEXT`
fn read_sheet(alloc: Global, number: &[u8], rest: &[u8]) -> Result<Command, ReadCommandFault>
    requires { IsUtf8 rest.now }
    ensures { AnswersReading (judged_statement (sheet_said number.now rest.now)) result }
{
    if !is_numeral(number) {
        return Err(SYNTAX);
    }
    let number = sheet_number(number)?;
    let text = owned_text(alloc, rest)?;
    Ok(Command::Sheet { number, text })
}

/// `T`
fn read_at(word: &[u8], rest: &[u8]) -> Result<Command, ReadCommandFault>
    ensures { AnswersReading (judged_statement (at_said word.now rest.now)) result }
{
    if !rest.is_empty() {
        return Err(SYNTAX);
    }
    match time(word) {
        Ok(time) => Ok(Command::At(time)),
        Err(fault) => Err(fault),
    }
}

/// `N PROPERTY`
fn read_get(number: &[u8], rest: &[u8]) -> Result<Command, ReadCommandFault>
    ensures { AnswersReading (judged_statement (get_said number.now rest.now)) result }
{
    let Some(property) = PropertyId::by_bytes(rest) else {
        return Err(SYNTAX);
    };
    if !is_numeral(number) {
        return Err(SYNTAX);
    }
    let node = node_number(number)?;
    Ok(Command::Get { node, property })
}

/// `N`
fn read_list(number: &[u8], rest: &[u8]) -> Result<Command, ReadCommandFault>
    ensures { AnswersReading (judged_statement (list_said number.now rest.now)) result }
{
    if !is_numeral(number) || !rest.is_empty() {
        return Err(SYNTAX);
    }
    Ok(Command::List(node_number(number)?))
}

/// A line that edits no tree, by its words.
#[tactic(auto, unfolding(crate::specs::Reading::otherwise_said_by))]
fn read_otherwise(
    alloc: Global,
    word: &[u8],
    second: &[u8],
    rest: &[u8],
) -> Result<Command, ReadCommandFault>
    requires { IsUtf8 rest.now }
    ensures { AnswersReading (judged_statement (otherwise_said_by word.now second.now rest.now)) result }
{
    if word == b"style".as_slice() {
        return read_style(alloc, second, rest);
    }
    if word == b"sheet".as_slice() {
        return read_sheet(alloc, second, rest);
    }
    if word == b"at".as_slice() {
        return read_at(second, rest);
    }
    if word == b"frame".as_slice() {
        if second.is_empty() {
            return Ok(Command::Frame);
        }
        return Err(SYNTAX);
    }
    if word == b"get".as_slice() {
        return read_get(second, rest);
    }
    if word == b"list".as_slice() {
        return read_list(second, rest);
    }
    Err(SYNTAX)
}

/// A line by its first word, its second, and what follows that.
#[tactic(auto, unfolding(crate::specs::Reading::said_by))]
fn read_words(
    alloc: Global,
    word: &[u8],
    second: &[u8],
    rest: &[u8],
) -> Result<Command, ReadCommandFault>
    requires utf8 { IsUtf8 rest.now }
    requires solid { begins_with_space rest.now ≡ false }
    ensures { AnswersReading (judged_statement (said_by word.now second.now rest.now)) result }
{
    if word == b"add".as_slice() {
        return read_add(alloc, second, rest);
    }
    if word == b"insert".as_slice() {
        return read_insert(alloc, second, rest);
    }
    if word == b"remove".as_slice() {
        return read_remove(second, rest);
    }
    if word == b"id".as_slice() {
        return read_id(alloc, second, rest);
    }
    if word == b"class".as_slice() {
        return read_class(alloc, second, rest);
    }
    read_otherwise(alloc, word, second, rest)
}

fn is_utf8(bytes: &[u8]) -> bool
    ensures { result ≡ is_utf8 bytes.now }
{
    match str::from_utf8(bytes) {
        Ok(_) => true,
        Err(_) => false,
    }
}

/// The command that a line is; `Syntax` where the line isn't in the grammar, and `BoundNumber` where it is and one of its
/// numbers is out of its bounds.
#[tactic(auto, unfolding(crate::specs::Reading::statement_of))]
pub fn read_command(alloc: Global, line: &[u8]) -> Result<Command, ReadCommandFault>
    ensures { AnswersReading (command_of line.now) result }
{
    let body = trimmed(line);
    if body.is_empty() || body[0] == b'#' {
        return Ok(Command::Blank);
    }
    if !is_utf8(line) {
        return Err(SYNTAX);
    }
    let (word, others) = split_word(body);
    let (second, rest) = split_word(others);
    read_words(alloc, word, second, rest)
}
