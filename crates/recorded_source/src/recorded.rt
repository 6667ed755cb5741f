//! Reading a source with a recorded trace in pieces: its script is lexed as it arrives, and its trace is stored only once.

ghost use Rattle.std.specs.Prelude.{◌≡◌, ◌≤◌, ◌<◌, ◌+◌, ◌-◌, ◌==◌, ◌++◌, ℕ, List, [], Some, IsTrue, false, length, take, IfErr, IfOk, IfSome, OnOk};
ghost use Rattle.text_io.specs.Streams.{IsCauseOfReading, TakesAtMost};
ghost use Rattle.trace_judge.specs.Recordings.{is_divider};
ghost use Rattle.text_lines.specs.Lines.{first_line};
ghost use Rattle.recorded_source.specs.Recorded.{Divides, IsDivided, IsFed, has_feed, opened};

use script_source::ScriptText;
use std::alloc::{AllocError, Global};
use std::marker::Model;
use text_io::{Failed, Source, TextFault, line_feeds};
use text_lines::split_line;
use trace_judge::is_divider;

/// Where the next byte of a source belongs.
#[derive(Clone, Copy, Debug, PartialEq, Eq)]
pub enum Place {
    /// To a line of which the script has no byte yet: it may turn out to be the line `trace`.
    Line,
    /// To a line of which the script already has the first bytes.
    WithinLine,
    /// To the recorded trace, after the line `trace`.
    Trace,
}

/// The first bytes of a line are held back while it may turn out to be the line `trace`, which has at most seven with its line ending.
const MOST_HELD: usize = 7;

/// A script followed by a recorded trace, as they arrive in pieces.
#[derive(Drop)]
pub struct RecordedText {
    script: ScriptText,
    begun: Vec<u8>,
    place: Place,
    trace: Vec<u8>,
}

impl Model for RecordedText {
    ghost use Rattle.recorded_source.specs.Recorded.{Divided};

    ghost Value = { Divided };

    ghost view = { λ it. record {
      script = it.script;
      begun = it.begun.items;
      place = it.place;
      trace = it.trace.items;
    } };
}

impl RecordedText {
    fn new(alloc: Global) -> RecordedText
        ensures { result ≡ opened }
    {
        RecordedText {
            script: ScriptText::new(alloc),
            begun: Vec::new(alloc),
            place: Place::Line,
            trace: Vec::new(alloc),
        }
    }

    fn place(&self) -> Place
        ensures { result ≡ self.now.place }
    {
        self.place
    }

    // Whether the line held back is complete.
    fn is_ended(&self) -> bool
        ensures { result ≡ has_feed self.now.begun }
    {
        self.begun.iter().any(|byte| *byte == b'\n')
    }

    // Whether the line held back is the line `trace`.
    fn is_divider(&self) -> bool
        ensures { result ≡ is_divider self.now.begun }
    {
        is_divider(&self.begun)
    }

    // Whether more bytes are held back than the line `trace` has.
    fn is_long(&self) -> bool
        ensures { IsTrue result → 7 < length self.now.begun }
    {
        self.begun.len() > MOST_HELD
    }

    // Holds back a further part of a line.
    fn hold(&mut self, part: &[u8]) -> Result<(), AllocError>
        ensures { OnOk result (self.new ≡ record self.old { begun = self.old.begun ++ part.now }) }
    {
        self.begun.extend_from_slice(part)
    }

    // Moves the bytes held back to the script, and sets where the next byte belongs.
    fn give_to_script(&mut self, place: Place) -> Result<(), AllocError>
        ensures { OnOk result (self.new ≡ record {
          script = take 16777217 (self.old.script ++ self.old.begun);
          begun = [];
          place = place;
          trace = self.old.trace;
        }) }
    {
        self.script.feed(&self.begun)?;
        self.begun.clear();
        self.place = place;
        Ok(())
    }

    // Moves the bytes held back to the trace.
    fn give_to_trace(&mut self) -> Result<(), AllocError>
        ensures { OnOk result (self.new ≡ record self.old { begun = []; trace = self.old.trace ++ self.old.begun }) }
    {
        self.trace.extend_from_slice(&self.begun)?;
        self.begun.clear();
        Ok(())
    }

    // Drops the line `trace`, which is held back, and continues with the trace.
    fn begin_trace(&mut self)
        ensures { self.new ≡ record self.old { begun = []; place = Place.Trace } }
    {
        self.begun.clear();
        self.place = Place::Trace;
    }

    // Moves the bytes held back to the script, unless they are the line `trace` or the line is so short that it may still become that.
    fn settle_line(&mut self) -> Result<(), AllocError>
        requires line { first_line self.old.begun ≡ self.old.begun }
        requires place { self.old.place ≡ Place.Line }
        ensures divides { (bytes : List ℕ) → Divides bytes self.old → OnOk result (Divides bytes self.new) }
        ensures held { OnOk result (has_feed self.new.begun ≡ false) }
    {
        if self.is_ended() {
            if self.is_divider() {
                self.begin_trace();
                Ok(())
            } else {
                self.give_to_script(Place::Line)
            }
        } else if self.is_long() {
            self.give_to_script(Place::WithinLine)
        } else {
            Ok(())
        }
    }

    // Moves the bytes held back to the script, which already has the first bytes of their line.
    fn settle_within(&mut self) -> Result<(), AllocError>
        requires line { first_line self.old.begun ≡ self.old.begun }
        requires place { self.old.place ≡ Place.WithinLine }
        ensures divides { (bytes : List ℕ) → Divides bytes self.old → OnOk result (Divides bytes self.new) }
        ensures held { OnOk result (has_feed self.new.begun ≡ false) }
    {
        if self.is_ended() {
            self.give_to_script(Place::Line)
        } else {
            self.give_to_script(Place::WithinLine)
        }
    }

    // Moves the bytes held back to where they belong. They are of one line, which may be incomplete.
    fn settle(&mut self) -> Result<(), AllocError>
        requires { first_line self.old.begun ≡ self.old.begun }
        ensures divides { (bytes : List ℕ) → Divides bytes self.old → OnOk result (Divides bytes self.new) }
        ensures held { OnOk result (has_feed self.new.begun ≡ false) }
    {
        match self.place() {
            Place::Line => self.settle_line(),
            Place::WithinLine => self.settle_within(),
            Place::Trace => self.give_to_trace(),
        }
    }

    // Takes the next part of a line.
    fn feed_part(&mut self, part: &[u8]) -> Result<(), AllocError>
        requires line { first_line part.now ≡ part.now }
        requires held { has_feed self.old.begun ≡ false }
        ensures divides { (bytes : List ℕ) → Divides bytes self.old → OnOk result (Divides (bytes ++ part.now) self.new) }
        ensures held { OnOk result (has_feed self.new.begun ≡ false) }
    {
        self.hold(part)?;
        self.settle()
    }

    fn is_behind(&self) -> bool
        ensures { IsTrue result → self.now.place ≡ Place.Trace }
    {
        matches!(self.place, Place::Trace)
    }

    // Takes more of the recorded trace.
    fn feed_trace(&mut self, part: &[u8]) -> Result<(), AllocError>
        requires { self.old.place ≡ Place.Trace }
        ensures divides { (bytes : List ℕ) → Divides bytes self.old → OnOk result (Divides (bytes ++ part.now) self.new) }
        ensures held { OnOk result (has_feed self.new.begun ≡ false) }
    {
        self.hold(part)?;
        self.give_to_trace()
    }

    // Takes the next piece.
    fn feed(&mut self, piece: &[u8]) -> Result<(), AllocError>
        requires { has_feed self.old.begun ≡ false }
        ensures divides { (bytes : List ℕ) → Divides bytes self.old → OnOk result (Divides (bytes ++ piece.now) self.new) }
        ensures held { OnOk result (has_feed self.new.begun ≡ false) }
    {
        let mut rest = piece;
        'lines: while !rest.is_empty() {
            if self.is_behind() {
                return self.feed_trace(rest);
            }
            let (part, behind) = split_line(rest);
            self.feed_part(part)?;
            rest = behind;
        }
        Ok(())
    }

    // Moves the bytes held back of the last line to where they belong. It may be the line `trace` without a line feed.
    fn end_line(&mut self) -> Result<(), AllocError>
        requires held { has_feed self.old.begun ≡ false }
        requires place { self.old.place ≡ Place.Line }
        ensures { (bytes : List ℕ) → Divides bytes self.old → OnOk result (IsDivided bytes self.new) }
    {
        if self.is_divider() {
            Ok(())
        } else {
            self.give_to_script(Place::Line)
        }
    }

    // Moves the bytes held back to where they belong at the end of the source.
    fn end(&mut self) -> Result<(), AllocError>
        requires { has_feed self.old.begun ≡ false }
        ensures { (bytes : List ℕ) → Divides bytes self.old → OnOk result (IsDivided bytes self.new) }
    {
        match self.place() {
            Place::Line => self.end_line(),
            Place::WithinLine => self.give_to_script(Place::Line),
            Place::Trace => self.give_to_trace(),
        }
    }

    /// Returns the script's bytes that are looked at, and the recorded trace.
    pub fn into_parts(self) -> (ScriptText, Vec<u8>)
        ensures script { result.0 ≡ self.script }
        ensures trace { result.1.items ≡ self.trace }
    {
        (self.script, self.trace)
    }
}

/// The most bytes that a source with a recorded trace may have.
const MOST_RECORDED: usize = 67_108_864;

// The most bytes per read.
const PIECE: usize = 4096;

/// What was consumed of a source, with the number of its bytes and line feeds, whatever the bytes are.
#[derive(Drop)]
pub struct Taken {
    recorded: RecordedText,
    bytes: usize,
    // The line feeds among the bytes within the limit.
    feeds: u32,
}

impl Model for Taken {
    ghost use Rattle.std.specs.Prelude.{◌≤◌};
    ghost use Rattle.recorded_source.specs.Recorded.{TakenBytes};

    ghost Value = { TakenBytes };

    ghost view = { λ it. record { divided = it.recorded; bytes = it.bytes; feeds = it.feeds } };

    ghost invariant = { λ it. (it.bytes ≤ 67108865) × (it.feeds ≤ it.bytes) };
}

impl Taken {
    fn new(alloc: Global) -> Taken
        ensures { result ≡ record { divided = opened; bytes = 0; feeds = 0 } }
    {
        Taken {
            recorded: RecordedText::new(alloc),
            bytes: 0,
            feeds: 0,
        }
    }

    fn room(&self) -> usize
        ensures { result ≡ 67108865 - self.now.bytes }
    {
        MOST_RECORDED + 1 - self.bytes
    }

    // Takes the next piece.
    fn take(&mut self, piece: &[u8]) -> Result<(), AllocError>
        requires more { self.old.bytes < 67108865 }
        requires room { length piece.now ≤ 67108865 - self.old.bytes }
        requires held { has_feed self.old.divided.begun ≡ false }
        ensures counted { OnOk result (self.new.bytes ≡ self.old.bytes + length piece.now) }
        ensures within { OnOk result (self.new.bytes ≤ 67108865) }
        ensures held { OnOk result (has_feed self.new.divided.begun ≡ false) }
        ensures fed { (bytes : List ℕ) → IsFed bytes self.old → OnOk result (IsFed (bytes ++ piece.now) self.new) }
    {
        let within = (MOST_RECORDED - self.bytes).min(piece.len());
        let feeds = line_feeds(&piece[..within]);
        self.recorded.feed(piece)?;
        self.feeds += feeds;
        self.bytes += piece.len();
        Ok(())
    }

    fn feeds(&self) -> u32
        ensures { result ≡ self.now.feeds }
    {
        self.feeds
    }

    fn into_recorded(self) -> RecordedText
        ensures { result ≡ self.divided }
    {
        self.recorded
    }
}

// Reads all the bytes that the source has left.
fn read_pieces<S: Source>(alloc: Global, source: &mut S) -> Result<RecordedText, TextFault>
    ensures divided { IfOk result (λ it. IfSome (S.left source.old) (λ bytes. Divides bytes it)) }
    ensures held { IfOk result (λ it. has_feed it.begun ≡ false) }
    ensures end { OnOk result (IfSome (S.left source.old) (λ bytes. (length bytes ≤ 67108864) × (S.left source.new ≡ Some []))) }
    ensures fault { IfErr result (λ fault. IsCauseOfReading fault (S.left source.old) (S.left source.new) 67108864
        (S.faults source.old) (S.faults source.new)) }
    ensures only_by_failing { OnOk result (S.faults source.new ≡ S.faults source.old) }
    ensures at_most { TakesAtMost (S.left source.old) (S.left source.new) 67108865 }
{
    let mut it = Taken::new(alloc);
    let mut buffer = [0u8; PIECE];
    'pieces: while it.room() > 0 {
        let room = it.room().min(PIECE);
        match source.read(&mut buffer[..room]) {
            Err(Failed) => return Err(TextFault::ReadFault),
            Ok(0) => return Ok(it.into_recorded()),
            Ok(given) => {
                let Ok(()) = it.take(&buffer[..given]) else {
                    return Err(TextFault::Memory);
                };
            }
        }
    }
    Err(TextFault::TooLong { feeds: it.feeds() })
}

/// Reads a source with a recorded trace: the bytes of its script that are looked at, and the trace.
///
/// # Errors
/// - `ReadFault` only where the source's fault count rose in this call.
/// - `TooLong` only where the source had more than 67,108,864 bytes left: that many and one more were consumed then.
/// - `Memory` if an allocation fails. No other fault.
pub fn read_recorded<S: Source>(alloc: Global, source: &mut S) -> Result<RecordedText, TextFault>
    ensures divided { IfOk result (λ it. IfSome (S.left source.old) (λ bytes. IsDivided bytes it)) }
    ensures end { OnOk result (IfSome (S.left source.old) (λ bytes. (length bytes ≤ 67108864) × (S.left source.new ≡ Some []))) }
    ensures fault { IfErr result (λ fault. IsCauseOfReading fault (S.left source.old) (S.left source.new) 67108864
        (S.faults source.old) (S.faults source.new)) }
    ensures only_by_failing { OnOk result (S.faults source.new ≡ S.faults source.old) }
    ensures at_most { TakesAtMost (S.left source.old) (S.left source.new) 67108865 }
{
    let mut recorded = read_pieces(alloc, source)?;
    match recorded.end() {
        Ok(()) => Ok(recorded),
        Err(_) => Err(TextFault::Memory),
    }
}
