//! Reading the text of a script in pieces.

ghost use Rattle.std.specs.Prelude.{◌≡◌, ◌++◌, ◌-◌, [], length, take, IfErr, IfOk, OnErr, OnOk};
ghost use Rattle.text_io.specs.Streams.{TakesAtMost};
ghost use Rattle.script_model.specs.Reading.{reading};
ghost use Rattle.script_syntax.specs.Parsing.{HasCommonLimit, Parses};
ghost use Rattle.script_source.specs.Sources.{IsUnread, ReadTo};

use crate::faults::SourceFault;
use script_lexer::Lexer;
use script_syntax::{ParseFault, Script, parse};
use std::alloc::{AllocError, Global};
use std::marker::Model;
use text_io::{Failed, Source};

/// How many bytes of a script are looked at: one more than it may have, so that a longer one is detected.
const LOOKED_AT: usize = 16_777_217;

/// The most bytes that a line may have.
const MOST_LINE: usize = 4096;

// The most bytes per read.
const PIECE: usize = 4096;

/// The text of a script, as it arrives in pieces. Of a text that is longer than a script may be, only the bytes that are looked at.
#[derive(Drop)]
pub struct ScriptText {
    lexer: Lexer,
    taken: usize,
}

impl Model for ScriptText {
    ghost use Rattle.std.specs.Prelude.{◌≡◌, ◌≤◌, ℕ, List, length};

    ghost Value = { List ℕ };

    ghost view = { λ text. text.lexer.text };

    ghost invariant = { λ text. (text.lexer.most_line ≡ 4096) × (text.taken ≡ length text.lexer.text) × (text.taken ≤ 16777217) };
}

impl ScriptText {
    /// Creates an empty text; allocates nothing.
    pub fn new(alloc: Global) -> ScriptText
        ensures { result ≡ [] }
    {
        ScriptText {
            lexer: Lexer::new(alloc, MOST_LINE),
            taken: 0,
        }
    }

    /// Returns how many further bytes will be looked at.
    pub fn room(&self) -> usize
        ensures { result ≡ 16777217 - length self.now }
    {
        LOOKED_AT - self.taken
    }

    /// Appends the next piece, as far as it is looked at. If an allocation fails, nothing of it is taken.
    pub fn feed(&mut self, piece: &[u8]) -> Result<(), AllocError>
        ensures ok { OnOk result (self.new ≡ take 16777217 (self.old ++ piece.now)) }
        ensures err { OnErr result (self.new ≡ self.old) }
    {
        let looked_at = &piece[..piece.len().min(LOOKED_AT - self.taken)];
        self.lexer.feed(looked_at)?;
        self.taken += looked_at.len();
        Ok(())
    }

    /// Parses the text as a script.
    ///
    /// # Errors
    /// `Syntax` or `ScriptLimit` with the first fault or limit of the bytes that were fed; `Memory` if an allocation fails.
    pub fn parse(self, alloc: Global) -> Result<Script, ParseFault>
        ensures value { Parses result (reading self) }
        ensures limit { IfErr result HasCommonLimit }
    {
        let Ok(text) = self.lexer.finish() else {
            return Err(ParseFault::Memory);
        };
        parse(alloc, &text)
    }
}

/// Reads the text of a script from the source: all bytes that it has left, or the first 16,777,217 of them.
///
/// # Errors
/// `ReadFault` only where the source's fault count rose in this call, `Memory` if an allocation fails. At most 16,777,217 bytes
/// were consumed then.
pub fn read_script<S: Source>(alloc: Global, source: &mut S) -> Result<ScriptText, SourceFault>
    ensures read { IfOk result (λ script. ReadTo 16777217 (S.left source.old) (S.left source.new) script) }
    ensures cause { IfErr result (λ fault. IsUnread fault (S.faults source.old) (S.faults source.new)) }
    ensures only_by_failing { OnOk result (S.faults source.new ≡ S.faults source.old) }
    ensures at_most { TakesAtMost (S.left source.old) (S.left source.new) 16777217 }
{
    let mut script = ScriptText::new(alloc);
    let mut buffer = [0u8; PIECE];
    'pieces: while script.room() > 0 {
        let room = script.room().min(PIECE);
        match source.read(&mut buffer[..room]) {
            Err(Failed) => return Err(SourceFault::ReadFault),
            Ok(0) => return Ok(script),
            Ok(given) => {
                let Ok(()) = script.feed(&buffer[..given]) else {
                    return Err(SourceFault::Memory);
                };
            }
        }
    }
    Ok(script)
}
