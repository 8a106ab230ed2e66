//! The buffer of a reader of lines: the bytes from `start` to `end` are in no line yet.
ghost use Rattle.std.specs.Prelude.{◌≡◌, ℕ, ◌+◌, ◌≤◌, ◌<◌, ◌++◌, [], List, take, drop, length, slice_range, vec_len, IfOk, OnErr, MatchOption};
ghost use Rattle.std.specs.Io.KnownBytes.{Consumes, Keeps, IsAtEnd};
ghost use Rattle.text_io.specs.Causes.{HasCause};
ghost use Rattle.text_io.specs.declared.limits.TheConstants.{MAX_INPUT};
ghost use Rattle.text_io.specs.declared.buffer.TheConstants.{CAPACITY};
ghost use Rattle.text_io.specs.Lines.{HasNoFeed};

use crate::fault::Failed;
use crate::limits::{LINE_FEED, MAX_INPUT, MAX_LINE};
use crate::source::Source;
use memchr::memchr;
use std::alloc::{AllocError, Global};

/// A read asks for so many bytes.
const READ_BYTES: usize = 65_536;

/// A line at the limit, one byte more, and a read.
pub(crate) const CAPACITY: usize = MAX_LINE + 1 + READ_BYTES;

/// The bytes that were read, and how many the source gave in all.
#[derive(Drop)]
pub(crate) struct Buffer {
    pub(crate) bytes: Vec<u8>,
    pub(crate) start: usize,
    pub(crate) end: usize,
    pub(crate) taken: usize,
    ghost whole: { vec_len bytes ≡ CAPACITY },
    ghost ordered: { start ≤ end },
    ghost within: { end ≤ CAPACITY },
    ghost limited: { taken ≤ MAX_INPUT + 1 },
}

/// Reads at most `count` bytes to the place `from` of these.
fn read_to<S: Source>(
    source: &mut S,
    bytes: &mut [u8],
    from: usize,
    count: usize,
) -> Result<usize, Failed>
    requires { from + count ≤ length bytes.old }
    ensures kept { take from bytes.new ≡ take from bytes.old }
    ensures given { IfOk result (λ n. (given : List ℕ) × (length given ≡ n)
        × (take (from + n) bytes.new ≡ take from bytes.old ++ given)
        × Consumes (S.left source.old) (S.left source.new) given) }
    ensures bound { IfOk result (λ n. n ≤ count) }
    ensures end { IfOk result (λ n. n ≡ 0 → 0 < count → IsAtEnd (S.left source.new)) }
    ensures err { OnErr result (Keeps (S.left source.old) (S.left source.new)) }
    ensures cause { HasCause (S.faults source.old) (S.faults source.new) result }
{
    source.read(&mut bytes[from..from + count])
}

impl Buffer {
    ghost use Rattle.text_io.specs.Buffer.{pending_of, IsFirstFeed};

    pub(crate) fn new(alloc: Global) -> Result<Buffer, AllocError>
        ensures pending { IfOk result (λ buffer. pending_of buffer ≡ []) }
        ensures taken { IfOk result (λ buffer. buffer.taken ≡ 0) }
    {
        let bytes = vec![in alloc; 0; CAPACITY]?;
        Ok(Buffer {
            bytes,
            start: 0,
            end: 0,
            taken: 0,
        })
    }

    /// The bytes that are in no line yet.
    pub(crate) fn pending(&self) -> &[u8]
        ensures value { result.now ≡ pending_of self.now }
        ensures len { length result.now ≤ CAPACITY }
    {
        &self.bytes[self.start..self.end]
    }

    /// How many bytes are in no line yet.
    pub(crate) fn len(&self) -> usize
        ensures { result ≡ length (pending_of self.now) }
    {
        self.end - self.start
    }

    /// The place of the first line feed from `from` on, among the bytes that are in no line yet.
    pub(crate) fn line_feed_from(&self, from: usize) -> Option<usize>
        requires within { from ≤ length (pending_of self.now) }
        requires clear { HasNoFeed (take from (pending_of self.now)) }
        ensures { MatchOption result (HasNoFeed (pending_of self.now)) (IsFirstFeed (pending_of self.now)) }
    {
        match memchr(LINE_FEED, &self.pending()[from..]) {
            Some(at) => Some(from + at),
            None => None,
        }
    }

    /// Forgets the first `count` bytes, which stay where they are.
    pub(crate) fn consume(&mut self, count: usize)
        requires { count ≤ length (pending_of self.old) }
        ensures pending { pending_of self.new ≡ drop count (pending_of self.old) }
        ensures bytes { self.new.bytes ≡ self.old.bytes }
        ensures start { self.new.start ≡ self.old.start + count }
        ensures taken { self.new.taken ≡ self.old.taken }
    {
        self.start += count;
    }

    /// Keeps no more than one byte over a line's limit, which is enough to see that the line is too long.
    pub(crate) fn trim(&mut self)
        ensures pending { (n : ℕ) × (MAX_LINE < n) × (pending_of self.new ≡ take n (pending_of self.old)) }
        ensures short { length (pending_of self.new) ≤ MAX_LINE + 1 }
        ensures taken { self.new.taken ≡ self.old.taken }
    {
        if self.end - self.start > MAX_LINE {
            self.end = self.start + MAX_LINE + 1;
        }
    }

    /// Moves the bytes to the front where a read would find too little room after them.
    fn make_room(&mut self)
        requires { length (pending_of self.old) ≤ MAX_LINE + 1 }
        ensures pending { pending_of self.new ≡ pending_of self.old }
        ensures room { self.new.end + READ_BYTES ≤ CAPACITY }
        ensures taken { self.new.taken ≡ self.old.taken }
    {
        if CAPACITY - self.end < READ_BYTES {
            let (start, end) = (self.start, self.end);
            self.bytes.copy_within(start..end, 0);
            self.start = 0;
            self.end = end - start;
        }
    }

    /// Reads once: up to the limit of the input, and one byte where that was reached.
    pub(crate) fn read_from<S: Source>(&mut self, source: &mut S) -> Result<usize, Failed>
        requires room { length (pending_of self.old) ≤ MAX_LINE + 1 }
        requires limited { self.old.taken ≤ MAX_INPUT }
        ensures given { IfOk result (λ n. (given : List ℕ) × (length given ≡ n)
            × (pending_of self.new ≡ pending_of self.old ++ given)
            × Consumes (S.left source.old) (S.left source.new) given) }
        ensures taken { IfOk result (λ n. self.new.taken ≡ self.old.taken + n) }
        ensures limit { self.old.taken < MAX_INPUT → self.new.taken ≤ MAX_INPUT }
        ensures end { IfOk result (λ n. n ≡ 0 → IsAtEnd (S.left source.new)) }
        ensures err { OnErr result ((pending_of self.new ≡ pending_of self.old)
            × (self.new.taken ≡ self.old.taken) × Keeps (S.left source.old) (S.left source.new)) }
        ensures cause { HasCause (S.faults source.old) (S.faults source.new) result }
    {
        self.make_room();
        let count = READ_BYTES.min((MAX_INPUT - self.taken).max(1));
        let end = self.end;
        match read_to(source, &mut self.bytes, end, count) {
            Ok(read) => {
                self.end += read;
                self.taken += read;
                Ok(read)
            }
            Err(Failed) => Err(Failed),
        }
    }
}
