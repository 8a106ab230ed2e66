//! The events of a transcript, counted.
ghost use Rattle.std.specs.Prelude.{◌≡◌, ◌+◌, ◌-◌, ◌^◌, ◌<◌, ◌≤◌, ◌==◌, ◌∷◌, codes, cond, length};
ghost use Rattle.std.specs.List.{position_or_len};
ghost use Rattle.text_io.specs.Lines.{cuts_of};
ghost use Rattle.transcript_cli.specs.Demo.{after_space, before_space, event_count, event_count_of, tells_event, tells_event_of};

use text_io::LINE_FEED;

/// How many lines of a transcript tell an event, and how many of these that a transition was cancelled and that one ended.
#[derive(Clone, Copy)]
pub(crate) struct Tally {
    pub(crate) events: u64,
    pub(crate) cancels: u64,
    pub(crate) ends: u64,
}

impl Tally {
    /// Counts the lines of a transcript.
    pub(crate) fn of(transcript: &[u8]) -> Tally
        ensures events { result.events ≡ event_count transcript.now }
        ensures cancels { result.cancels ≡ event_count_of (codes "transitioncancel") transcript.now }
        ensures ends { result.ends ≡ event_count_of (codes "transitionend") transcript.now }
    {
        let mut tally = Tally {
            events: 0,
            cancels: 0,
            ends: 0,
        };
        let mut rest = transcript;
        'lines: while !rest.is_empty() {
            let (line, others) = first_line(rest);
            tally = tally.with_line(line);
            rest = others;
        }
        tally
    }

    fn with_line(self, line: &[u8]) -> Tally
        requires events { self.events < 2 ^ 64 - 1 }
        requires cancels { self.cancels < 2 ^ 64 - 1 }
        requires ends { self.ends < 2 ^ 64 - 1 }
        ensures events { result.events ≡ self.events + cond (tells_event line.now) 1 0 }
        ensures cancels { result.cancels ≡ self.cancels + cond (tells_event_of (codes "transitioncancel") line.now) 1 0 }
        ensures ends { result.ends ≡ self.ends + cond (tells_event_of (codes "transitionend") line.now) 1 0 }
    {
        Tally {
            events: self.events + u64::from(tells_event(line)),
            cancels: self.cancels + u64::from(tells_event_of("transitioncancel", line)),
            ends: self.ends + u64::from(tells_event_of("transitionend", line)),
        }
    }
}

/// The first line of some bytes, and what follows it.
fn first_line(bytes: &[u8]) -> (&[u8], &[u8])
    requires { 0 < length bytes.now }
    ensures cuts { cuts_of bytes.now ≡ result.0.now ∷ cuts_of result.1.now }
    ensures shorter { length result.1.now < length bytes.now }
{
    let end = place_of(LINE_FEED, bytes);
    bytes.split_at((end + 1).min(bytes.len()))
}

fn tells_event(line: &[u8]) -> bool
    ensures { result ≡ tells_event line.now }
{
    before_space(line) == b"event".as_slice()
}

fn tells_event_of(kind: &str, line: &[u8]) -> bool
    ensures { result ≡ tells_event_of kind.now line.now }
{
    tells_event(line) && before_space(after_space(after_space(line))) == kind.as_bytes()
}

fn before_space(line: &[u8]) -> &[u8]
    ensures { result.now ≡ before_space line.now }
{
    &line[..place_of(b' ', line)]
}

fn after_space(line: &[u8]) -> &[u8]
    ensures { result.now ≡ after_space line.now }
{
    &line[(place_of(b' ', line) + 1).min(line.len())..]
}

/// The place of the first such byte, or how many bytes there are.
fn place_of(byte: u8, bytes: &[u8]) -> usize
    ensures value { result ≡ position_or_len (λ b. b == byte) bytes.now }
    ensures within { result ≤ length bytes.now }
{
    bytes.iter().take_while(|b| **b != byte).count()
}
