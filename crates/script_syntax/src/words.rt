//! The words of a line, consumed from left to right.

ghost use Rattle.std.specs.Prelude.{◌≡◌, ◌≤◌, length, IfOk, IfErr};
ghost use Rattle.script_lexer.specs.Texts.{line_seen, LineFits};
ghost use Rattle.script_model.specs.Forms.{next_of, none_left, ends_margin as ends_margin_at};
ghost use Rattle.script_syntax.specs.Lines.{Gives, Popped, NextBefore, taken_in, rest_of};

use crate::faults::LineFault;
use script_lexer::{Line, Span, Text};
use std::marker::Model;
use text_io::Version;

/// A word with its column, from 1.
#[derive(Clone, Copy)]
pub struct Word<'a> {
    pub column: u32,
    pub text: &'a [u8],
}

impl Word<'_> {
    /// Returns the fault that this is the first word that doesn't fit.
    pub fn fault(&self) -> LineFault
        ensures { result ≡ LineFault.At self.now.column }
    {
        LineFault::At {
            column: self.column,
        }
    }
}

/// Whether a margin ends before this word in scripts of this version.
fn ends_margin(version: Version, word: &[u8]) -> bool
    ensures { result ≡ ends_margin_at version word.now }
{
    match version {
        Version::First => word == b"threshold".as_slice(),
        Version::Second => word == b"threshold".as_slice() || word == b"scroll".as_slice(),
    }
}

/// The remaining words of a line. A contract sees the definition's row.
#[derive(Drop)]
pub struct Words<'a> {
    bytes: &'a [u8],
    // The offset where the line begins.
    start: usize,
    left: &'a [Span],
    // The column after the line's last word.
    after: u32,
    // The line's bytes up to that column.
    line: &'a [u8],
}

impl<'a> Model for Words<'a> {
    ghost use Rattle.script_model.specs.Lexing.{Row};

    ghost Value = { Row };

    ghost use Rattle.script_syntax.specs.Lines.{row_at, RowFits};

    ghost view = { λ words. row_at words.bytes.now words.start words.left.now words.after words.line.now };

    ghost invariant = { λ words. RowFits words.bytes.now words.start words.left.now words.line.now };
}

impl<'a> Words<'a> {
    ghost use Rattle.script_syntax.specs.Words.{word_of};

    /// Returns the words of one of a text's lines.
    #[tactic(auto, using(crate::proofs::LastWords::after_last, crate::proofs::LastWords::last_inside))]
    pub fn of(text: &'a Text, line: &Line) -> Words<'a>
        requires short { length text.now.bytes ≤ 16777216 }
        requires fits { LineFits text.now.bytes text.now.words line.now }
        ensures { result ≡ (line_seen text.now.bytes text.now.words line.now).row }
    {
        let bytes = text.bytes();
        let start = line.start;
        let left = text.words(line);
        let [.., last] = left else {
            return Words {
                bytes,
                start,
                left,
                after: 1,
                line: &[],
            };
        };
        Words {
            bytes,
            start,
            left,
            after: (last.to - start + 1) as u32,
            line: &bytes[start..last.to],
        }
    }

    /// Takes the next word. Fails if there is none.
    #[tactic(auto, using(crate::proofs::NextWords::next_taken, crate::proofs::NextWords::next_missing))]
    pub fn next(&mut self) -> Result<Word<'a>, LineFault>
        ensures { Gives (λ word. (word_of word, self.new)) result (next_of self.old) }
    {
        let missing = LineFault::At { column: self.after };
        self.pop().ok_or(missing)
    }

    /// Checks that no word is left. The fault is at the first one that is.
    #[tactic(auto, unfolding(script_model::specs::Forms::none_left))]
    pub fn end(&mut self) -> Result<(), LineFault>
        ensures { Gives (λ end. tt) result (none_left self.old) }
    {
        match self.left {
            [] => Ok(()),
            [span, ..] => Err(LineFault::At {
                column: (span.from - self.start + 1) as u32,
            }),
        }
    }

    /// Takes the next word, if there is one.
    pub fn pop(&mut self) -> Option<Word<'a>>
        ensures { Popped result self.old self.new }
    {
        let [span, rest @ ..] = self.left else {
            return None;
        };
        self.left = rest;
        Some(Word {
            column: (span.from - self.start + 1) as u32,
            text: &self.bytes[span.from..span.to],
        })
    }

    /// Takes the next word, if there is one and it belongs to a margin.
    #[tactic(auto, unfolding(script_model::specs::Forms::words_before, script_model::specs::Forms::words_from))]
    pub fn next_of_margin(&mut self, version: Version) -> Option<&'a [u8]>
        ensures { NextBefore (ends_margin_at version) result self.old self.new }
    {
        let [span, rest @ ..] = self.left else {
            return None;
        };
        let text = &self.bytes[span.from..span.to];
        if ends_margin(version, text) {
            return None;
        }
        self.left = rest;
        Some(text)
    }

    /// Takes the next word if it is this one, and returns whether it was.
    pub fn take_if(&mut self, word: &[u8]) -> bool
        ensures { taken_in word.now self.old.left self.old ≡ (result, self.new) }
    {
        let [span, rest @ ..] = self.left else {
            return false;
        };
        if &self.bytes[span.from..span.to] == word {
            self.left = rest;
            return true;
        }
        false
    }

    /// Takes all remaining words: returns the line's text from the next word to the end of the last one, with the column of
    /// the next word. If no word is left, the error is the column after the line's last word.
    pub fn rest(&mut self) -> Result<Word<'a>, u32>
        ensures ok { IfOk result (λ rest. rest_of self.old ≡ Ok (rest.column, rest.text.now, self.new)) }
        ensures err { IfErr result (λ column. rest_of self.old ≡ Err column) }
        ensures place { IfOk result (λ rest. rest.column ≤ 16777216) }
        ensures short { IfOk result (λ rest. length rest.text.now ≤ 16777216) }
    {
        let [span, ..] = self.left else {
            return Err(self.after);
        };
        let from = span.from - self.start;
        self.left = &[];
        Ok(Word {
            column: (from + 1) as u32,
            text: &self.line[from.min(self.line.len())..],
        })
    }
}
