//! The next line at the front of a buffer, read from a source.
ghost use Rattle.std.specs.Prelude.{◌≡◌, ◌↔◌, ℕ, ◌+◌, ◌-◌, ◌≤◌, ◌<◌, ◌++◌, [], List, take, drop, length, slice_range, slice_index, Some, None, Err, IfNone, IfOk, OnOk, OnErr, MatchOption, if◌then◌else◌, ◌==◌, IsSome, IfSome};
ghost use Rattle.std.specs.Io.BufRead.{strip_last};
ghost use Rattle.std.specs.Io.KnownBytes.{IsAtEnd, prepend_known};
ghost use Rattle.text_io.specs.Causes.{Rose, HasCause};
ghost use Rattle.text_io.specs.Lines.{HasNoFeed, limited_text};
ghost use Rattle.text_io.specs.Reader.{IsTaken, TakesLine};
ghost use Rattle.text_io.specs.Told.{Told};
ghost use Rattle.text_io.specs.Buffer.{pending_of, IsFirstFeed, Fills, line_of_cut, IsWithin};

use crate::buffer::{Buffer, CAPACITY};
use crate::cut::{Cut, Span};
use crate::fault::{Failed, LineFault};
use crate::limits::{CARRIAGE_RETURN, LINE_FEED, MAX_INPUT, MAX_LINE};
use crate::source::Source;

/// Where the text of a line ends: before a carriage return at the line's end.
pub(crate) fn text_end(bytes: &[u8], from: usize, to: usize) -> usize
    requires ordered { from ≤ to }
    requires within { to ≤ length bytes.now }
    ensures low { from ≤ result }
    ensures high { result ≤ to }
    ensures text { slice_range bytes.now from result
        ≡ strip_last CARRIAGE_RETURN (slice_range bytes.now from to) }
{
    if from < to && bytes[to - 1] == CARRIAGE_RETURN {
        to - 1
    } else {
        to
    }
}

/// Cuts off the line whose line feed stands at this place.
fn cut_line(buffer: &mut Buffer, at: usize) -> Cut
    requires { IsFirstFeed (pending_of buffer.old) at }
    ensures line { line_of_cut buffer.new.bytes.items result ≡ Some (limited_text (take at (pending_of buffer.old))
        (strip_last CARRIAGE_RETURN (take at (pending_of buffer.old)))) }
    ensures rest { pending_of buffer.new ≡ drop (at + 1) (pending_of buffer.old) }
    ensures within { IsWithin result }
    ensures taken { buffer.new.taken ≡ buffer.old.taken }
{
    let from = buffer.start;
    let to = text_end(&buffer.bytes, from, from + at);
    buffer.consume(at + 1);
    if at > MAX_LINE {
        return Cut::Long;
    }
    Cut::Text(Span { from, to })
}

/// Cuts off all, where no line feed is left.
fn cut_rest(buffer: &mut Buffer) -> Cut
    ensures line { line_of_cut buffer.new.bytes.items result ≡ (if length (pending_of buffer.old) == 0 then None
        else Some (limited_text (pending_of buffer.old) (pending_of buffer.old))) }
    ensures rest { pending_of buffer.new ≡ [] }
    ensures within { IsWithin result }
    ensures taken { buffer.new.taken ≡ buffer.old.taken }
{
    let (from, to) = (buffer.start, buffer.end);
    buffer.consume(to - from);
    if from == to {
        return Cut::End;
    }
    if to - from > MAX_LINE {
        return Cut::Long;
    }
    let span = Span { from, to };
    Cut::Text(span)
}

/// Reads once more, where all bytes were searched: how many of them stay in front, or None where the source is at its end.
fn read_more<S: Source>(buffer: &mut Buffer, source: &mut S) -> Result<Option<usize>, LineFault>
    requires clear { HasNoFeed (pending_of buffer.old) }
    requires limited { buffer.old.taken ≤ MAX_INPUT }
    ensures given { (given : List ℕ)
        × Fills (pending_of buffer.old) (pending_of buffer.new) buffer.old.taken buffer.new.taken
        (S.left source.old) (S.left source.new) given
        × IfOk result (λ kept. MatchOption kept (HasNoFeed (pending_of buffer.new))
        (λ n. (0 < length given) × (n ≤ length (pending_of buffer.new))
        × HasNoFeed (take n (pending_of buffer.new)) × (drop n (pending_of buffer.new) ≡ given))) }
    ensures end { IfOk result (λ kept. MatchOption kept (IsAtEnd (S.left source.new)) (λ _. buffer.new.taken ≤ MAX_INPUT)) }
    ensures limit { OnOk result (buffer.new.taken ≤ MAX_INPUT) }
    ensures too_much { (result ≡ Err LineFault.TooMuch) ↔ (MAX_INPUT < buffer.new.taken) }
    ensures last { result ≡ Err LineFault.TooMuch → buffer.old.taken ≡ MAX_INPUT }
    ensures faults { S.faults source.old ≤ S.faults source.new }
    ensures read_fault { result ≡ Err LineFault.ReadFault → Rose (S.faults source.old) (S.faults source.new) }
{
    buffer.trim();
    let kept = buffer.len();
    match buffer.read_from(source) {
        Ok(0) => Ok(None),
        Ok(_) => {
            if buffer.taken > MAX_INPUT {
                return Err(LineFault::TooMuch);
            }
            Ok(Some(kept))
        }
        Err(Failed) => Err(LineFault::ReadFault),
    }
}

/// Reads until a line feed is there, and answers its place, or None where the source is at its end before one.
fn fill_line<S: Source>(buffer: &mut Buffer, source: &mut S) -> Result<Option<usize>, LineFault>
    requires { buffer.old.taken ≤ MAX_INPUT }
    ensures given { (given : List ℕ)
        × Fills (pending_of buffer.old) (pending_of buffer.new) buffer.old.taken buffer.new.taken
        (S.left source.old) (S.left source.new) given
        × (result ≡ Err LineFault.TooMuch → HasNoFeed (pending_of buffer.old ++ take (MAX_INPUT - buffer.old.taken) given)) }
    ensures found { IfOk result (λ found. MatchOption found
        (HasNoFeed (pending_of buffer.new) × IsAtEnd (S.left source.new))
        (IsFirstFeed (pending_of buffer.new))) }
    ensures limit { OnOk result (buffer.new.taken ≤ MAX_INPUT) }
    ensures too_much { (result ≡ Err LineFault.TooMuch) ↔ (MAX_INPUT < buffer.new.taken) }
    ensures faults { S.faults source.old ≤ S.faults source.new }
    ensures read_fault { result ≡ Err LineFault.ReadFault → Rose (S.faults source.old) (S.faults source.new) }
{
    let mut searched = 0;
    'reads: loop {
        if let Some(at) = buffer.line_feed_from(searched) {
            return Ok(Some(at));
        }
        match read_more(buffer, source) {
            Ok(Some(kept)) => searched = kept,
            Ok(None) => return Ok(None),
            Err(fault) => return Err(fault),
        }
    }
}

/// Cuts the next line off, and reads as far as that takes.
pub(crate) fn next_cut<S: Source>(buffer: &mut Buffer, source: &mut S) -> Result<Cut, LineFault>
    requires { buffer.old.taken ≤ MAX_INPUT }
    ensures line { IfOk result (λ cut. IfSome (line_of_cut buffer.new.bytes.items cut) (λ line. Told (S.left source.old) (S.left source.new)
        (TakesLine line (pending_of buffer.old) (pending_of buffer.new) buffer.old.taken buffer.new.taken))) }
    ensures end { IfOk result (λ cut. IfNone (line_of_cut buffer.new.bytes.items cut)
        (Told (prepend_known (pending_of buffer.old) (S.left source.old)) (prepend_known (pending_of buffer.new) (S.left source.new))
        (λ before after. (before ≡ []) × (after ≡ [])))) }
    ensures within { IfOk result IsWithin }
    ensures shrinks { IfOk result (λ cut. IsSome (line_of_cut buffer.new.bytes.items cut)
        → length (pending_of buffer.new) + buffer.old.taken < length (pending_of buffer.old) + buffer.new.taken) }
    ensures taken { Told (S.left source.old) (S.left source.new) (IsTaken buffer.old.taken buffer.new.taken) }
    ensures later { buffer.old.taken ≤ buffer.new.taken }
    ensures no_line { result ≡ Err LineFault.TooMuch → IfSome (S.left source.old) (λ left.
        HasNoFeed (pending_of buffer.old ++ take (MAX_INPUT - buffer.old.taken) left)) }
    ensures limit { OnOk result (buffer.new.taken ≤ MAX_INPUT) }
    ensures too_much { (result ≡ Err LineFault.TooMuch) ↔ (MAX_INPUT < buffer.new.taken) }
    ensures faults { S.faults source.old ≤ S.faults source.new }
    ensures read_fault { result ≡ Err LineFault.ReadFault → Rose (S.faults source.old) (S.faults source.new) }
{
    match fill_line(buffer, source) {
        Ok(Some(at)) => Ok(cut_line(buffer, at)),
        Ok(None) => Ok(cut_rest(buffer)),
        Err(fault) => Err(fault),
    }
}
