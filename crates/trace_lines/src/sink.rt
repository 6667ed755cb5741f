//! A sink that keeps the lines of a trace as values.

ghost use Rattle.std.specs.Prelude.{◌≡◌, ◌<◌, ◌≤◌, ◌++◌, length, map, [], Some, IfOk, OnOk, OnErr};
ghost use Rattle.std.specs.Io.KnownBytes.{WriteAppends};
ghost use Rattle.text_io.specs.Memory.{next_count};
ghost use Rattle.text_io.specs.Streams.{Rose};
ghost use Rattle.text_lines.specs.Lines.{first_line};
ghost use Rattle.trace_text.specs.Seen.{seen_line};

use crate::reading::take_front;
use std::alloc::Global;
use std::marker::Model;
use std::mem;
use text_io::{Failed, Sink};
use text_lines::split_line;
use trace_text::TraceLine;

/// A sink that reads each line of a trace as it is written, and keeps it as a value, for a host that wants values and not
/// bytes. A contract sees the lines, the bytes behind the last whole one, and the number of failed writes.
#[derive(Drop)]
pub struct LineSink {
    alloc: Global,
    lines: Vec<TraceLine>,
    rest: Vec<u8>,
    faults: u64,
}

impl Model for LineSink {
    ghost use Rattle.trace_lines.specs.Kept.{Kept};

    ghost Value = { Kept };

    ghost use Rattle.std.specs.Prelude.{map};
    ghost use Rattle.trace_text.specs.Seen.{seen_line};
    ghost use Rattle.trace_lines.specs.Kept.{IsKept};

    ghost view = { λ s. record { lines = map seen_line s.lines.items; rest = s.rest.items; faults = s.faults } };

    ghost invariant = { λ s. IsKept (record { lines = map seen_line s.lines.items; rest = s.rest.items; faults = s.faults }) };
}

impl LineSink {
    ghost use Rattle.trace_lines.specs.Kept.{IsKept};

    /// Creates a sink without lines; allocates nothing.
    pub fn new(alloc: Global) -> LineSink
        ensures { result ≡ record { lines = []; rest = []; faults = 0 } }
    {
        LineSink {
            alloc,
            lines: Vec::new(alloc),
            rest: Vec::new(alloc),
            faults: 0,
        }
    }

    /// Returns the lines so far. With the bytes behind the last whole line they are exactly what was taken since the sink was
    /// made or last emptied (`taken`).
    pub fn lines(&self) -> &[TraceLine]
        ensures value { map seen_line result.now ≡ self.now.lines }
        ensures kept { IsKept self.now }
    {
        self.lines.as_slice()
    }

    /// Takes the lines so far out of the sink, as those of one tick. What stands behind the last whole line is kept.
    pub fn take_lines(&mut self) -> Vec<TraceLine>
        ensures value { map seen_line result.items ≡ self.old.lines }
        ensures emptied { self.new ≡ record self.old { lines = [] } }
    {
        mem::replace(&mut self.lines, Vec::new(self.alloc))
    }
}

impl Sink for LineSink {
    ghost use Rattle.trace_lines.specs.Kept.{text_of};

    ghost taken = { λ s. Some (text_of s) };

    ghost faults = { λ s. s.faults };

    /// Takes the piece up to its first line feed, and reads the line that ends there. Fails only if that isn't a line of a
    /// trace, or an allocation fails; the fault count, which saturates at 2^64 - 1, rises only then.
    fn write(&mut self, piece: &[u8]) -> Result<usize, Failed>
        requires { 0 < length piece.now }
        ensures front { IfOk result (λ n. n ≡ length (first_line piece.now)) }
        ensures refuses { OnErr result (self.new ≡ record self.old { faults = next_count self.old.faults }) }
        ensures some { IfOk result (λ n. 0 < n) }
        ensures within { IfOk result (λ n. n ≤ length piece.now) }
        ensures bytes { WriteAppends (Some (text_of self.old)) (Some (text_of self.new)) result piece.now }
        ensures failed { OnErr result (Rose self.old.faults self.new.faults) }
        ensures only_by_failing { OnOk result (self.new.faults ≡ self.old.faults) }
        ensures never_falls { self.old.faults ≤ self.new.faults }
    {
        let (front, _) = split_line(piece);
        match take_front(&mut self.lines, &mut self.rest, front) {
            Ok(()) => Ok(front.len()),
            Err(Failed) => {
                self.faults = self.faults.saturating_add(1);
                Err(Failed)
            }
        }
    }
}
