//! Parsing a text's lines and words as a script.

ghost use Rattle.std.specs.Prelude.{◌≡◌, ◌≤◌, map, length, count_by, ◌==◌, IfOk, IfErr};
ghost use Rattle.std.specs.List.{All};
ghost use Rattle.text_io.specs.declared.kinds.LimitKind.TheVariants as limits;
ghost use Rattle.text_io.specs.Limits.{common_limit};
ghost use Rattle.script_lexer.specs.Texts.{text_seen, line_seen, ending_seen, LineFits};
ghost use Rattle.script_model.specs.Lexing.{lexed};
ghost use Rattle.script_model.specs.Reading as model;
ghost use Rattle.script_model.specs.Reading.{reading, read_lexed, refused_at, nothing_read};
ghost use Rattle.script_syntax.specs.Allowed.{ItemAllowed};
ghost use Rattle.script_syntax.specs.Parsing.{Parses, Answers, HasCommonLimit, IsRefused, EndsSoon};
ghost use Rattle.script_syntax.specs.Seen.{item_of};

use crate::builder::Builder;
use crate::commands::Item;
use crate::faults::{LineFault, ParseFault};
use crate::script::Script;
use crate::statements::{read_statement, version};
use crate::words::Words;
use script_lexer::{LexFault, Line, Text};
use std::alloc::Global;
use text_io::{LimitKind, Version};

/// Parses a text, which must have been lexed with lines of at most 4,096 bytes, as a script.
///
/// # Errors
/// `Syntax` and `ScriptLimit` where the text isn't a script; it is the first fault or limit of the text. The limit `Script` is
/// met before any line is looked at, if the text has more than 16,777,216 bytes; its line is 1 more than the number of line
/// feeds in that many bytes. `Memory` if an allocation fails.
#[tactic(auto, unfolding(script_model::specs::Reading::reading), using(crate::proofs::Finishes::ends_soon))]
pub fn parse(alloc: Global, text: &Text) -> Result<Script, ParseFault>
    requires { text_seen text.now ≡ lexed text.now.bytes }
    ensures value { Parses result (reading text.now.bytes) }
    ensures limit { IfErr result HasCommonLimit }
{
    let bytes = text.bytes();
    if bytes.len() as u64 > LimitKind::Script.common() {
        return Err(ParseFault::ScriptLimit {
            kind: LimitKind::Script,
            line: last_line(bytes),
        });
    }
    let (version, items) = match read_text(alloc, text) {
        Ok(read) => read,
        Err(stop) => return Err(stop),
    };
    let script = Script::make(alloc, version, items)?;
    Ok(script)
}

/// Returns the line of the first byte beyond the limit of a text.
#[tactic(auto, unfolding(script_model::specs::Reading::last_line))]
fn last_line(bytes: &[u8]) -> u32
    requires { common_limit limits.Script ≤ length bytes.now }
    ensures { result ≡ model.last_line (common_limit limits.Script) bytes.now }
{
    let most = LimitKind::Script.common() as usize;
    let feeds = feeds(&bytes[..most]);
    1 + feeds as u32
}

/// Returns the number of line feeds among the bytes.
fn feeds(bytes: &[u8]) -> usize
    requires { length bytes.now ≤ 16777216 }
    ensures value { result ≡ count_by (λ byte. byte == 10) bytes.now }
    ensures within { result ≤ 16777216 }
{
    bytes.iter().filter(|byte| **byte == b'\n').count()
}

/// Parses the version and the items of a text with at most 16,777,216 bytes.
#[tactic(auto, unfolding(script_model::specs::Reading::read_lexed))]
fn read_text(alloc: Global, text: &Text) -> Result<(Version, Vec<Item>), ParseFault>
    requires short { length text.now.bytes ≤ 16777216 }
    requires ends { EndsSoon text.now }
    ensures value { Answers (λ read. record { version = read.0; items = map item_of read.1.items }) result (read_lexed (text_seen text.now)) }
    ensures allowed { IfOk result (λ read. All ItemAllowed read.1.items) }
{
    let [first, rest @ ..] = text.lines() else {
        return Err(refusal(text));
    };
    let mut words = Words::of(text, first);
    let version = match version(&mut words) {
        Ok(version) => version,
        Err(LineFault::At { column }) => {
            return Err(ParseFault::Syntax {
                line: first.number,
                column,
            });
        }
        Err(LineFault::Memory) => return Err(ParseFault::Memory),
    };
    let builder = match read_lines(alloc, version, text, rest) {
        Ok(builder) => builder,
        Err(stop) => return Err(stop),
    };
    finish(text, builder)
}

/// Parses the lines after the first one.
#[tactic(auto, unfolding(script_model::specs::Reading::steps))]
fn read_lines(
    alloc: Global,
    version: Version,
    text: &Text,
    lines: &[Line],
) -> Result<Builder, ParseFault>
    requires short { length text.now.bytes ≤ 16777216 }
    requires fit { All (LineFits text.now.bytes text.now.words) lines.now }
    ensures { Answers (λ builder. builder) result (model.steps (nothing_read version) (map (line_seen text.now.bytes text.now.words) lines.now)) }
{
    let mut builder = Builder::new(alloc, version);
    for line in lines {
        if let Err(stop) = read_line(alloc, text, line, &mut builder) {
            return Err(stop);
        }
    }
    Ok(builder)
}

/// Parses a line, and applies it to the state.
#[tactic(auto, unfolding(script_model::specs::Reading::step))]
fn read_line(
    alloc: Global,
    text: &Text,
    line: &Line,
    builder: &mut Builder,
) -> Result<(), ParseFault>
    requires short { length text.now.bytes ≤ 16777216 }
    requires fits { LineFits text.now.bytes text.now.words line.now }
    ensures { Answers (λ done. builder.new) result (model.step builder.old (line_seen text.now.bytes text.now.words line.now)) }
{
    let mut words = Words::of(text, line);
    let version = builder.version();
    let outside = builder.is_outside();
    match read_statement(alloc, version, outside, builder.handlers(), &mut words) {
        Ok(statement) => builder.place(line.number, statement),
        Err(LineFault::At { column }) => Err(ParseFault::Syntax {
            line: line.number,
            column,
        }),
        Err(LineFault::Memory) => Err(ParseFault::Memory),
    }
}

/// Returns the version and the items, if nothing is open and the text ended without a fault.
#[tactic(auto, using(crate::proofs::Finishes::finished_whole, crate::proofs::Finishes::finished_open, crate::proofs::Finishes::finished_fault))]
fn finish(text: &Text, builder: Builder) -> Result<(Version, Vec<Item>), ParseFault>
    requires { EndsSoon text.now }
    ensures value { Answers (λ read. record { version = read.0; items = map item_of read.1.items }) result (model.finished builder.version builder.frames builder.items (ending_seen text.now.fault text.now.line_count)) }
    ensures allowed { IfOk result (λ read. All ItemAllowed read.1.items) }
{
    if !builder.is_outside() {
        return Err(refusal(text));
    }
    if text.fault().is_some() {
        return Err(refusal(text));
    }
    let version = builder.version();
    Ok((version, builder.into_items()))
}

/// Returns why a text isn't a script, if all its lines up to the ending were accepted.
fn refusal(text: &Text) -> ParseFault
    requires { EndsSoon text.now }
    ensures { IsRefused result (refused_at (ending_seen text.now.fault text.now.line_count)) }
{
    match text.fault() {
        None => ParseFault::Syntax {
            line: text.line_count() + 1,
            column: 1,
        },
        Some(LexFault::BadByte { line, column }) => ParseFault::Syntax { line, column },
        Some(LexFault::LineTooLong { line }) => ParseFault::ScriptLimit {
            kind: LimitKind::Line,
            line,
        },
    }
}
