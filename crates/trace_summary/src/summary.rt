//! Counting the lines of a trace.

ghost use Rattle.std.specs.Io.KnownBytes.{Appends};
ghost use Rattle.std.specs.Prelude.{◌≡◌, ◌++◌, ℕ, length, List, [], ◌∷◌, flat_map, map, take, Err, IfOk, OnOk, OnErr};
ghost use Rattle.script_model.specs.TraceLines.{TraceLine as LineModel};
ghost use Rattle.script_model.specs.TraceText.{line_text};
ghost use Rattle.trace_text.specs.Ranges.{IsLine};
ghost use Rattle.trace_text.specs.Seen.{seen_line};
ghost use Rattle.trace_runs.specs.Writes.{Wrote};
ghost use Rattle.trace_summary.specs.Counting.{HasRoom, with_line};
ghost use Rattle.trace_summary.specs.Counts.{IsTrace, summary_of, row_text, rows_of, rows_text, text_of};

use std::alloc::{AllocError, Global};
use text_io::Sink;
use text_lines::split_line;
use trace_runs::{RunFault, write_text};
use trace_text::{TraceFault, TraceLine, line_ends_once, read_line};
use word_model::push_decimal;

/// How many lines of each kind a trace has.
#[derive(Clone, Copy, Debug, PartialEq, Eq)]
pub struct Summary {
    pub tick: u64,
    pub timer: u64,
    pub frame: u64,
    pub task: u64,
    pub event: u64,
    pub resize: u64,
    pub round: u64,
    pub intersect: u64,
    pub take: u64,
    pub say: u64,
    pub read: u64,
    pub throw: u64,
    pub limit: u64,
    pub syntax: u64,
}

const NO_LINES: Summary = Summary {
    tick: 0,
    timer: 0,
    frame: 0,
    task: 0,
    event: 0,
    resize: 0,
    round: 0,
    intersect: 0,
    take: 0,
    say: 0,
    read: 0,
    throw: 0,
    limit: 0,
    syntax: 0,
};

#[tactic(auto, using(crate::proofs::Rows::row_pushed))]
fn row(alloc: Global, kind: &str, count: u64) -> Result<Vec<u8>, AllocError>
    ensures { IfOk result (λ text. text.items ≡ row_text kind.now count) }
{
    let mut text = Vec::from_slice(alloc, kind.as_bytes())?;
    text.push(b' ')?;
    push_decimal(&mut text, count as u128)?;
    text.push(b'\n')?;
    Ok(text)
}

fn write_row<K: Sink>(alloc: Global, kind: &str, count: u64, sink: &mut K) -> Result<(), RunFault>
    ensures wrote { Wrote result (K.taken sink.old) (K.taken sink.new) (K.faults sink.old) (K.faults sink.new) (row_text kind.now count) }
    ensures memory { result ≡ Err RunFault.Memory → sink.new ≡ sink.old }
{
    match row(alloc, kind, count) {
        Ok(text) => write_text(sink, &text),
        Err(_) => Err(RunFault::Memory),
    }
}

impl Summary {
    /// Summarizes the trace with this text. Allocates nothing.
    ///
    /// # Errors
    /// `NotALine` exactly where the text isn't a sequence of lines that `read_line` accepts.
    pub fn of(trace: &[u8]) -> Result<Summary, TraceFault>
        ensures ok { IfOk result (λ summary. (lines : List LineModel) × IsTrace trace.now lines × (summary ≡ summary_of lines)) }
        ensures err { OnErr result ((lines : List LineModel) → IsTrace trace.now lines → ⊥) }
    {
        // the law by which lines end at line feeds and nowhere else
        line_ends_once();
        let mut summary = NO_LINES;
        let mut rest = trace;
        while !rest.is_empty() {
            let (line, behind) = split_line(rest);
            if let Err(fault) = summary.count(line) {
                return Err(fault);
            }
            rest = behind;
        }
        Ok(summary)
    }

    // Counts the line with this text.
    fn count(&mut self, text: &[u8]) -> Result<(), TraceFault>
        requires { HasRoom self.old }
        ensures ok { OnOk result ((line : LineModel) × IsLine line × (line_text line ≡ text.now) × (self.new ≡ with_line line self.old)) }
        ensures err { OnErr result ((line : LineModel) → IsLine line → line_text line ≡ text.now → ⊥) }
    {
        match read_line(text) {
            Ok(line) => {
                self.add(&line);
                Ok(())
            }
            Err(fault) => Err(fault),
        }
    }

    // Counts a line.
    fn add(&mut self, line: &TraceLine)
        requires { HasRoom self.old }
        ensures { self.new ≡ with_line (seen_line line.now) self.old }
    {
        match line {
            TraceLine::Tick(..) => self.tick += 1,
            TraceLine::Timer(..) => self.timer += 1,
            TraceLine::Frame(..) => self.frame += 1,
            TraceLine::Task(..) => self.task += 1,
            TraceLine::Event(..) => self.event += 1,
            TraceLine::Resize { .. } => self.resize += 1,
            TraceLine::Round(..) => self.round += 1,
            TraceLine::Intersect { .. } => self.intersect += 1,
            TraceLine::Take(..) => self.take += 1,
            TraceLine::Say(..) => self.say += 1,
            TraceLine::Read { .. } => self.read += 1,
            TraceLine::Throw(..) => self.throw += 1,
            TraceLine::Limit(..) => self.limit += 1,
            TraceLine::Syntax(..) => self.syntax += 1,
        }
    }

    fn rows(&self) -> [(&'static str, u64); 14]
        ensures rows { map (λ r. (r.0.now, r.1)) result ≡ rows_of self.now }
        ensures text { flat_map (λ r. row_text r.0.now r.1) result ≡ rows_text self.now }
        ensures count { length result ≡ 14 }
    {
        [
            ("tick", self.tick),
            ("timer", self.timer),
            ("frame", self.frame),
            ("task", self.task),
            ("event", self.event),
            ("resize", self.resize),
            ("round", self.round),
            ("intersect", self.intersect),
            ("take", self.take),
            ("say", self.say),
            ("read", self.read),
            ("throw", self.throw),
            ("limit", self.limit),
            ("syntax", self.syntax),
        ]
    }

    /// Writes a line for each kind, with its count, in the order of the kinds. Each line is passed to the sink separately.
    ///
    /// # Errors
    /// - `WriteFault` only where the sink's fault count rose in this call; a prefix of the text was written then.
    /// - `Memory` if an allocation fails; the lines of the first kinds were written then, each of them whole. No other fault.
    pub fn write_to<K: Sink>(&self, alloc: Global, sink: &mut K) -> Result<(), RunFault>
        ensures wrote { Wrote result (K.taken sink.old) (K.taken sink.new) (K.faults sink.old) (K.faults sink.new) (rows_text self.now) }
        ensures whole_rows { result ≡ Err RunFault.Memory →
            (count : ℕ) × Appends (K.taken sink.old) (K.taken sink.new) (text_of (take count (rows_of self.now))) }
    {
        let rows = self.rows();
        for row in &rows {
            if let Err(fault) = write_row(alloc, row.0, row.1, sink) {
                return Err(fault);
            }
        }
        Ok(())
    }
}
