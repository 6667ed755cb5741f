//! The judgement of a recorded trace, and the line that it is written as.

ghost use Rattle.std.specs.Prelude.{◌≡◌, ◌++◌, IfOk, OnOk};
ghost use Rattle.trace_runs.specs.Writes.{Wrote};
ghost use Rattle.trace_judge.specs.Texts.{how_text, judgement_text};

use std::alloc::{AllocError, Global};
use text_io::{Sink, write_all};
use trace_runs::RunFault;
use word_model::push_decimal;

/// How a recorded trace differs from the expected one, at the first line where it does.
#[derive(Clone, Copy, Debug, PartialEq, Eq)]
pub enum How {
    /// There is a line, although the expected trace has ended.
    Extra,
    /// The recorded trace has ended, although the expected one continues.
    Missing,
    /// The recorded text there isn't a line of a trace.
    NotALine,
    /// There is another line. The column, from 1, is that of the first byte where the two differ.
    Text(u32),
}

/// The result of comparing a recorded trace with the expected one.
#[derive(Clone, Copy, Debug, PartialEq, Eq)]
pub enum Judgement {
    /// Both have the same bytes, which make up this number of lines.
    Equal { lines: u64 },
    /// They differ, first at this line, from 1.
    Differs { line: u64, how: How },
}

#[tactic(auto, using(crate::proofs::Texts::column_pushed), unfolding(crate::specs::Texts::how_text))]
fn push_how(text: &mut Vec<u8>, how: How) -> Result<(), AllocError>
    ensures { OnOk result (text.new.items ≡ text.old.items ++ how_text how) }
{
    match how {
        How::Extra => text.extend_from_slice(b"extra"),
        How::Missing => text.extend_from_slice(b"missing"),
        How::NotALine => text.extend_from_slice(b"not-a-line"),
        How::Text(column) => {
            text.extend_from_slice(b"text ")?;
            push_decimal(text, column as u128)
        }
    }
}

#[tactic(auto, using(crate::proofs::Texts::equal_pushed))]
fn equal_text(alloc: Global, lines: u64) -> Result<Vec<u8>, AllocError>
    ensures { IfOk result (λ text. text.items ≡ judgement_text (Judgement.Equal lines)) }
{
    let mut text = Vec::from_slice(alloc, b"equal ")?;
    push_decimal(&mut text, lines as u128)?;
    text.push(b'\n')?;
    Ok(text)
}

#[tactic(auto, using(crate::proofs::Texts::differs_pushed))]
fn differs_text(alloc: Global, line: u64, how: How) -> Result<Vec<u8>, AllocError>
    ensures { IfOk result (λ text. text.items ≡ judgement_text (Judgement.Differs line how)) }
{
    let mut text = Vec::from_slice(alloc, b"differs ")?;
    push_decimal(&mut text, line as u128)?;
    text.push(b' ')?;
    push_how(&mut text, how)?;
    text.push(b'\n')?;
    Ok(text)
}

impl Judgement {
    fn text(&self, alloc: Global) -> Result<Vec<u8>, AllocError>
        ensures { IfOk result (λ text. text.items ≡ judgement_text self.now) }
    {
        match self {
            Judgement::Equal { lines } => equal_text(alloc, *lines),
            Judgement::Differs { line, how } => differs_text(alloc, *line, *how),
        }
    }

    /// Writes the judgement as a line: `equal N`, or `differs K` with `extra`, `missing`, `not-a-line` or `text COLUMN`.
    ///
    /// # Errors
    /// - `WriteFault` only where the sink's fault count rose in this call; a prefix of the line was written then.
    /// - `Memory` if an allocation fails; nothing was written then. No other fault.
    pub fn write_to<K: Sink>(&self, alloc: Global, sink: &mut K) -> Result<(), RunFault>
        ensures wrote { Wrote result (K.taken sink.old) (K.taken sink.new) (K.faults sink.old) (K.faults sink.new) (judgement_text self.now) }
        ensures memory { result ≡ Err RunFault.Memory → sink.new ≡ sink.old }
    {
        let Ok(text) = self.text(alloc) else {
            return Err(RunFault::Memory);
        };
        match write_all(sink, &text) {
            Ok(()) => Ok(()),
            Err(_) => Err(RunFault::WriteFault),
        }
    }
}
