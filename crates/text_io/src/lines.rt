//! The lines of the bytes that a source gives.
ghost use Rattle.std.specs.Prelude.{◌≡◌, length, ◌≢◌, ◌↔◌, ◌⊎◌, ◌+◌, ◌-◌, ◌≤◌, ◌<◌, ◌++◌, [], Some, None, Ok, Err, take, IsOk, IsSome, IfSome, IsSomeAnd, IfOk};
ghost use Rattle.std.specs.Result.{result_err};
ghost use Rattle.text_io.specs.Causes.{Rose};
ghost use Rattle.text_io.specs.Told.{Told};
ghost use Rattle.text_io.specs.Lines.{HasNoFeed};
ghost use Rattle.text_io.specs.Reader.{stream_of, IsTaken, TakesLine, steps_left};

use crate::buffer::Buffer;
use crate::cut::{Cut, Span};
use crate::cutter::next_cut;
use crate::fault::LineFault;
use crate::limits::{MAX_INPUT, MAX_LINE};
use crate::source::Source;
use std::alloc::{AllocError, Global};
use std::marker::Model;

/// What a reader of lines found.
#[derive(Clone, Copy, Debug, PartialEq, Eq)]
pub enum Line {
    /// A line, whose text `Lines::text` lends.
    Text,
    /// A line over the limit, which was read to its line feed.
    Long,
    /// No line is left.
    End,
}

/// How the last call left a reader.
#[derive(Clone, Copy)]
enum State {
    Ready,
    Lent(Span),
    Failed(LineFault),
}

/// A reader of lines.
#[derive(Drop)]
pub struct Lines {
    buffer: Buffer,
    state: State,
}

impl Model for Lines {
    ghost use Rattle.text_io.specs.Reader.{Reader};

    ghost Value = { Reader };

    ghost use Rattle.text_io.specs.Buffer.{pending_of};
    ghost use Rattle.text_io.specs.View.{fault_of, text_in, IsReaderState};

    ghost view = { λ lines. record {
      pending = pending_of lines.buffer;
      taken = lines.buffer.taken;
      fault = fault_of lines.state;
      text = text_in lines.buffer.bytes.items lines.state;
    } };

    ghost invariant = { λ lines. IsReaderState lines.buffer.taken lines.state };
}

impl Lines {
    /// A reader of lines. It takes no memory later.
    pub fn new(alloc: Global) -> Result<Lines, AllocError>
        ensures { IfOk result (λ lines. lines ≡ record { pending = []; taken = 0; fault = None; text = None }) }
    {
        Ok(Lines {
            buffer: Buffer::new(alloc)?,
            state: State::Ready,
        })
    }

    /// Finds the next line, and reads as far as that takes. The first fault is answered again without reading.
    pub fn next_line<S: Source>(&mut self, source: &mut S) -> Result<Line, LineFault>
        // The lines of the bytes before are the line that was found, and then the lines of the bytes now.
        ensures text { result ≡ Ok Line.Text → IsSomeAnd self.new.text (λ text.
            Told (S.left source.old) (S.left source.new)
            (TakesLine (Some text) self.old.pending self.new.pending self.old.taken self.new.taken)) }
        ensures long { result ≡ Ok Line.Long → Told (S.left source.old) (S.left source.new)
            (TakesLine None self.old.pending self.new.pending self.old.taken self.new.taken) }
        ensures end { result ≡ Ok Line.End →
            Told (stream_of self.old (S.left source.old)) (stream_of self.new (S.left source.new))
            (λ before after. (before ≡ []) × (after ≡ [])) }
        ensures lent { IsSome self.new.text ↔ (result ≡ Ok Line.Text) }

        // What the source gave is counted, and each line is a step towards an end.
        ensures taken { Told (S.left source.old) (S.left source.new) (IsTaken self.old.taken self.new.taken) }
        ensures later { self.old.taken ≤ self.new.taken }
        ensures limit { self.new.taken ≤ MAX_INPUT + 1 }
        ensures shrinks { IfOk result (λ line. line ≢ Line.End → steps_left self.new < steps_left self.old) }

        // The first fault stays.
        ensures again { IfSome self.old.fault (λ fault. (result ≡ Err fault)
            × (source.new ≡ source.old) × (self.new ≡ self.old)) }
        ensures kept { self.new.fault ≡ result_err result }

        // A fault has a cause.
        ensures faults { S.faults source.old ≤ S.faults source.new }
        ensures read_fault { result ≡ Err LineFault.ReadFault → (self.old.fault ≡ Some LineFault.ReadFault)
            ⊎ Rose (S.faults source.old) (S.faults source.new) }
        ensures too_much { (result ≡ Err LineFault.TooMuch) ↔ ((self.old.fault ≡ Some LineFault.TooMuch)
            ⊎ ((self.old.fault ≡ None) × (MAX_INPUT < self.new.taken))) }
        ensures no_line { self.old.fault ≡ None → result ≡ Err LineFault.TooMuch → IfSome (S.left source.old) (λ left.
            HasNoFeed (self.old.pending ++ take (MAX_INPUT - self.old.taken) left)) }
        ensures ok { self.old.fault ≡ None → S.faults source.new ≡ S.faults source.old
            → self.new.taken ≤ MAX_INPUT → IsOk result }
    {
        if let State::Failed(fault) = self.state {
            return Err(fault);
        }
        match next_cut(&mut self.buffer, source) {
            Ok(Cut::Text(span)) => {
                self.state = State::Lent(span);
                Ok(Line::Text)
            }
            Ok(Cut::Long) => {
                self.state = State::Ready;
                Ok(Line::Long)
            }
            Ok(Cut::End) => {
                self.state = State::Ready;
                Ok(Line::End)
            }
            Err(fault) => {
                self.state = State::Failed(fault);
                Err(fault)
            }
        }
    }

    /// The text of the last line, where the last call of `next_line` answered `Text`: without its line feed, and without a
    /// carriage return directly before that.
    pub fn text(&self) -> &[u8]
        requires { IsSome self.now.text }
        ensures text { self.now.text ≡ Some result.now }
        ensures limit { length result.now ≤ MAX_LINE }
    {
        match self.state {
            State::Lent(span) => &self.buffer.bytes[span.from..span.to],
            _ => unreachable!(),
        }
    }
}
