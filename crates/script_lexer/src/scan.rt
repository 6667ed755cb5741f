ghost use Rattle.std.specs.Prelude.{◌≡◌, ◌<◌, ◌≤◌, ◌+◌, ◌-◌, ◌^◌, None, length, drop, IfOk, OnOk, OnErr};
ghost use Rattle.std.specs.List.{All};
ghost use Rattle.word_model.specs.Numbers.{begins_with};
ghost use Rattle.script_model.specs.Lexing.{BadByte as BadByteAt};
ghost use Rattle.script_lexer.specs.Texts.{fault_seen, LineFits};
ghost use Rattle.script_lexer.specs.Places.{closed, line_kept, next_line_at, begun, no_places, settled, Looked, IsRead, Grown, Scanned, lines_up_to};

use crate::class::{ByteClass, class_of};
use crate::places::{LexFault, Line, Span};
use crate::text::Text;
use std::alloc::{AllocError, Global};
use std::marker::Model;

/// The line that is being scanned.
#[derive(Clone, Copy)]
struct OpenLine {
    // How many lines ended before it.
    ended: u32,
    // The offset where it begins.
    start: usize,
    // The index of its first word.
    first: usize,
    // The offset where the word being scanned begins, if there is one.
    word: Option<usize>,
    in_comment: bool,
}

/// The lines and words found so far, and the line and the word that are being scanned.
#[derive(Drop)]
pub struct Scanner {
    lines: Vec<Line>,
    words: Vec<Span>,
    line: OpenLine,
}

impl Model for Scanner {
    ghost use Rattle.script_lexer.specs.Places.{Places};

    ghost Value = { Places };

    ghost view = { λ s. record {
      lines = s.lines.items;
      words = s.words.items;
      ended = s.line.ended;
      start = s.line.start;
      first = s.line.first;
      open_word = s.line.word;
      in_comment = s.line.in_comment;
    } };
}

impl Scanner {
    /// Creates a scanner that hasn't looked at any byte; allocates nothing.
    pub fn new(alloc: Global) -> Scanner
        ensures { result ≡ no_places }
    {
        Scanner {
            lines: Vec::new(alloc),
            words: Vec::new(alloc),
            line: OpenLine {
                ended: 0,
                start: 0,
                first: 0,
                word: None,
                in_comment: false,
            },
        }
    }

    /// Ends the word being scanned, if there is one, before this offset.
    fn close_word(&mut self, at: usize) -> Result<(), AllocError>
        ensures closed { OnOk result (self.new ≡ closed at self.old) }
        ensures grown { Grown self.old self.new }
    {
        if let Some(from) = self.line.word {
            self.words.push(Span { from, to: at })?;
            self.line.word = None;
        }
        Ok(())
    }

    /// Records the line being scanned, if it has a word.
    fn keep_line(&mut self) -> Result<(), AllocError>
        requires first { self.old.first ≤ length self.old.words }
        requires number { self.old.first < length self.old.words → self.old.ended + 1 < 2 ^ 32 }
        ensures kept { OnOk result (self.new ≡ line_kept self.old) }
        ensures grown { Grown self.old self.new }
    {
        if self.line.first == self.words.len() {
            return Ok(());
        }
        self.lines.push(Line {
            number: self.line.ended + 1,
            start: self.line.start,
            first: self.line.first,
            count: self.words.len() - self.line.first,
        })?;
        Ok(())
    }

    /// Ends the line being scanned, whose line feed is at this offset, and begins the next one.
    fn end_line(&mut self, at: usize) -> Result<(), AllocError>
        requires first { self.old.first ≤ length self.old.words }
        requires number { self.old.ended + 1 < 2 ^ 32 }
        requires place { at + 1 < 2 ^ 32 }
        ensures ended { OnOk result (self.new ≡ next_line_at at (line_kept (closed at self.old))) }
        ensures grown { Grown self.old self.new }
    {
        self.close_word(at)?;
        self.keep_line()?;
        self.line.ended += 1;
        self.line.start = at + 1;
        self.line.first = self.words.len();
        self.line.in_comment = false;
        Ok(())
    }

    /// Takes the byte at this offset into a word or a comment, beginning one if none is open. A `#` at the start of a word begins
    /// a comment instead.
    fn word_byte(&mut self, byte: u8, at: usize)
        ensures { self.new ≡ begun byte at self.old }
    {
        if self.line.in_comment {
            return;
        }
        if self.line.word.is_some() {
            return;
        }
        if byte == b'#' {
            self.line.in_comment = true;
        } else {
            self.line.word = Some(at);
        }
    }

    fn bad_byte(&self, at: usize) -> LexFault
        requires start { self.now.start ≤ at }
        requires ended { self.now.ended ≤ self.now.start }
        requires place { at + 1 < 2 ^ 32 }
        ensures { fault_seen result ≡ BadByteAt (self.now.ended + 1) (at - self.now.start + 1) }
    {
        LexFault::BadByte {
            line: self.line.ended + 1,
            column: (at - self.line.start + 1) as u32,
        }
    }

    /// Scans the byte at this offset. Each byte is scanned once.
    fn look(
        &mut self,
        bytes: &[u8],
        at: usize,
        most_line: usize,
    ) -> Result<Option<LexFault>, AllocError>
        requires inside { at < length bytes.now }
        requires size { length bytes.now < 2 ^ 32 }
        requires start { self.old.start ≤ at }
        requires ended { self.old.ended ≤ self.old.start }
        requires first { self.old.first ≤ length self.old.words }
        ensures looked { IfOk result (Looked most_line bytes.now at self.old self.new) }
        ensures grown { Grown self.old self.new }
    {
        let byte = bytes[at];
        let column = at - self.line.start + 1;
        match class_of(byte, feed_at(bytes, at + 1), column, most_line) {
            ByteClass::LineFeed => {
                self.end_line(at)?;
                Ok(None)
            }
            ByteClass::Long => Ok(Some(LexFault::LineTooLong {
                line: self.line.ended + 1,
            })),
            ByteClass::Space => {
                self.close_word(at)?;
                Ok(None)
            }
            ByteClass::Word => {
                self.word_byte(byte, at);
                Ok(None)
            }
            ByteClass::Bad => Ok(Some(self.bad_byte(at))),
        }
    }

    /// Scans the bytes from one offset up to another, up to the first fault; none if there already was a fault.
    fn look_on(
        &mut self,
        bytes: &[u8],
        from: usize,
        to: usize,
        most_line: usize,
        fault: Option<LexFault>,
    ) -> Result<Option<LexFault>, AllocError>
        requires size { length bytes.now < 2 ^ 32 }
        requires order { from ≤ to }
        requires inside { to ≤ length bytes.now }
        requires read { IsRead most_line bytes.now from self.old fault }
        ensures read { IfOk result (IsRead most_line bytes.now to self.new) }
        ensures grown { Grown self.old self.new }
    {
        if fault.is_some() {
            return Ok(fault);
        }
        for at in from..to {
            if let Some(fault) = self.look(bytes, at, most_line)? {
                return Ok(Some(fault));
            }
        }
        Ok(None)
    }

    /// Scans what was fed from this offset on, up to its first fault.
    ///
    /// # Errors
    /// If an allocation fails; the scanner is then restored to its previous state.
    pub fn read(
        &mut self,
        bytes: &[u8],
        from: usize,
        most_line: usize,
        fault: Option<LexFault>,
    ) -> Result<Option<LexFault>, AllocError>
        requires size { length bytes.now < 2 ^ 32 }
        requires from { from ≤ settled bytes.now }
        requires read { IsRead most_line bytes.now from self.old fault }
        ensures read { IfOk result (IsRead most_line bytes.now (settled bytes.now) self.new) }
        ensures err { OnErr result (self.new ≡ self.old) }
    {
        let (lines, words, line) = (self.lines.len(), self.words.len(), self.line);
        let found = self.look_on(bytes, from, settled(bytes), most_line, fault);
        if found.is_err() {
            self.lines.truncate(lines);
            self.words.truncate(words);
            self.line = line;
        }
        found
    }

    /// Ends the text: scans a carriage return that was held back, and closes the last word and line.
    pub fn end(
        &mut self,
        bytes: &[u8],
        most_line: usize,
        fault: Option<LexFault>,
    ) -> Result<Option<LexFault>, AllocError>
        requires size { length bytes.now < 2 ^ 32 }
        requires read { IsRead most_line bytes.now (settled bytes.now) self.old fault }
        ensures { IfOk result (Scanned most_line bytes.now self.new) }
    {
        let waiting = settled(bytes);
        if let Some(fault) = self.look_on(bytes, waiting, bytes.len(), most_line, fault)? {
            return Ok(Some(fault));
        }
        self.close_word(bytes.len())?;
        self.keep_line()?;
        Ok(None)
    }

    /// Returns the number of lines of a text of this size, or the number of lines before that of the fault, if there is one.
    fn line_count(&self, fault: Option<LexFault>, size: usize) -> u32
        requires start { self.now.start ≤ size }
        requires ended { self.now.ended ≤ self.now.start }
        requires size { size < 2 ^ 32 }
        ensures { result ≡ lines_up_to fault size self.now }
    {
        match fault {
            Some(_) => self.line.ended,
            None => {
                if self.line.start == size {
                    self.line.ended
                } else {
                    self.line.ended + 1
                }
            }
        }
    }

    /// Returns the text that was scanned, with its lines and words.
    pub fn into_text(self, bytes: Vec<u8>, fault: Option<LexFault>) -> Text
        requires fit { All (LineFits bytes.items self.words) self.lines }
        requires start { self.start ≤ length bytes.items }
        requires ended { self.ended ≤ self.start }
        requires size { length bytes.items < 2 ^ 32 }
        ensures { result ≡ record {
          bytes = bytes.items;
          lines = self.lines;
          words = self.words;
          line_count = lines_up_to fault (length bytes.items) self;
          fault = fault;
        } }
    {
        let line_count = self.line_count(fault, bytes.len());
        Text::new(bytes, self.lines, self.words, line_count, fault)
    }
}

/// Whether there is a line feed at this offset.
#[tactic(auto, using(crate::proofs::Feeds::feed_is, crate::proofs::Feeds::no_feed))]
fn feed_at(bytes: &[u8], at: usize) -> bool
    ensures { result ≡ begins_with 10 (drop at bytes.now) }
{
    match bytes.get(at) {
        Some(byte) => *byte == b'\n',
        None => false,
    }
}

/// Returns how many of these bytes can be classified: a carriage return at the end depends on the next byte.
pub fn settled(bytes: &[u8]) -> usize
    ensures { result ≡ settled bytes.now }
{
    match bytes.last() {
        Some(b'\r') => bytes.len() - 1,
        _ => bytes.len(),
    }
}
