ghost use Rattle.std.specs.Prelude.{◌≡◌, length};
ghost use Rattle.std.specs.List.{All};
ghost use Rattle.script_lexer.specs.Texts.{LineFits, InLine, line_words};

use crate::places::{LexFault, Line, Span};
use std::marker::Model;

/// A text with its lines and words, as spans. A contract sees these parts; `text_seen` is what they denote.
#[derive(Drop)]
pub struct Text {
    bytes: Vec<u8>,
    lines: Vec<Line>,
    words: Vec<Span>,
    line_count: u32,
    fault: Option<LexFault>,
}

impl Model for Text {
    ghost use Rattle.std.specs.Prelude.{length};
    ghost use Rattle.std.specs.List.{All};
    ghost use Rattle.script_lexer.specs.Texts.{TextParts, LineFits};

    ghost Value = { TextParts };

    ghost view = { λ text. record {
      bytes = text.bytes.items;
      lines = text.lines.items;
      words = text.words.items;
      line_count = text.line_count;
      fault = text.fault;
    } };

    ghost invariant = { λ text. All (LineFits text.bytes.items text.words.items) text.lines.items };
}

impl Text {
    /// Creates a text from these parts.
    pub(crate) fn new(
        bytes: Vec<u8>,
        lines: Vec<Line>,
        words: Vec<Span>,
        line_count: u32,
        fault: Option<LexFault>,
    ) -> Text
        requires { All (LineFits bytes.items words.items) lines.items }
        ensures { result ≡ record {
          bytes = bytes.items;
          lines = lines.items;
          words = words.items;
          line_count = line_count;
          fault = fault;
        } }
    {
        Text {
            bytes,
            lines,
            words,
            line_count,
            fault,
        }
    }

    /// Returns all bytes that were fed, including those after a fault.
    pub fn bytes(&self) -> &[u8]
        ensures { result.now ≡ self.now.bytes }
    {
        self.bytes.as_slice()
    }

    /// Returns the lines that have a word, in order, up to a fault. The words of each lie between the line's start and the
    /// text's end.
    pub fn lines(&self) -> &[Line]
        ensures value { result.now ≡ self.now.lines }
        ensures fit { All (LineFits self.now.bytes self.now.words) result.now }
    {
        self.lines.as_slice()
    }

    /// Returns the words of one of the text's lines, from left to right.
    pub fn words(&self, line: &Line) -> &[Span]
        requires { LineFits self.now.bytes self.now.words line.now }
        ensures value { result.now ≡ line_words self.now.words line.now }
        ensures within { All (InLine line.now.start (length self.now.bytes)) result.now }
    {
        &self.words[line.first..line.first + line.count]
    }

    /// Returns the number of lines of the text, or the number of lines before that of the fault, if there is one. A last line
    /// without a line feed counts unless it is empty.
    pub fn line_count(&self) -> u32
        ensures { result ≡ self.now.line_count }
    {
        self.line_count
    }

    /// Returns the fault that ended the text early, if there is one.
    pub fn fault(&self) -> Option<LexFault>
        ensures { result ≡ self.now.fault }
    {
        self.fault
    }
}
