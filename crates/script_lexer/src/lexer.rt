ghost use Rattle.std.specs.Prelude.{◌≡◌, ◌<◌, ◌+◌, ◌-◌, ◌^◌, ◌++◌, [], None, length, take, IfOk, OnOk, OnErr};
ghost use Rattle.text_io.specs.declared.kinds.LimitKind.TheVariants as limits;
ghost use Rattle.text_io.specs.Limits.{common_limit};
ghost use Rattle.script_model.specs.Lexing.{lexed};
ghost use Rattle.script_lexer.specs.Limited.{lexed_within};
ghost use Rattle.script_lexer.specs.Texts.{text_seen, words_of, lines_before};

use crate::places::LexFault;
use crate::scan::{Scanner, settled};
use crate::text::Text;
use std::alloc::{AllocError, Global};
use std::marker::Model;

/// Takes a text in pieces and finds its lines and words as they arrive. How the text is split makes no difference: a contract
/// sees the bytes fed so far as one text, along with the most bytes that a line may have.
#[derive(Drop)]
pub struct Lexer {
    bytes: Vec<u8>,
    most_line: usize,
    // It has scanned all bytes except a carriage return at their end, which waits for the next byte.
    scanner: Scanner,
    // No byte after it is looked at.
    fault: Option<LexFault>,
}

impl Model for Lexer {
    ghost use Rattle.std.specs.Prelude.{◌<◌, ◌-◌, ◌^◌, length};
    ghost use Rattle.script_lexer.specs.Texts.{Fed};
    ghost use Rattle.script_lexer.specs.Places.{settled, IsRead};

    ghost Value = { Fed };

    ghost view = { λ lexer. record { text = lexer.bytes.items; most_line = lexer.most_line } };

    ghost invariant = { λ lexer. (length lexer.bytes.items < 2 ^ 32) × IsRead lexer.most_line lexer.bytes.items (settled lexer.bytes.items) lexer.scanner lexer.fault };
}

impl Lexer {
    /// Creates a lexer for lines of at most `most_line` bytes before their line feed; allocates nothing.
    pub fn new(alloc: Global, most_line: usize) -> Lexer
        requires { most_line < 2 ^ 32 - 1 }
        ensures { result ≡ record { text = []; most_line = most_line } }
    {
        Lexer {
            bytes: Vec::new(alloc),
            most_line,
            scanner: Scanner::new(alloc),
            fault: None,
        }
    }

    /// Takes the next piece of the text. In all, fewer than 2^32 bytes may be fed.
    ///
    /// # Errors
    /// If an allocation fails; nothing of the piece is taken then.
    pub fn feed(&mut self, piece: &[u8]) -> Result<(), AllocError>
        requires { length self.old.text + length piece.now < 2 ^ 32 }
        ensures ok { OnOk result (self.new ≡ record self.old { text = self.old.text ++ piece.now }) }
        ensures err { OnErr result (self.new ≡ self.old) }
    {
        let fed = self.bytes.len();
        let from = settled(self.bytes.as_slice());
        self.bytes.extend_from_slice(piece)?;
        let bytes = self.bytes.as_slice();
        match self.scanner.read(bytes, from, self.most_line, self.fault) {
            Ok(fault) => {
                self.fault = fault;
                Ok(())
            }
            Err(refused) => {
                self.bytes.truncate(fed);
                Err(refused)
            }
        }
    }

    /// Returns the text that was fed with its lines and words, up to its first fault; no byte after that is looked at.
    /// Its words are those of its lines, in order; with a fault, words before it in its line may stand behind them.
    ///
    /// # Errors
    /// If an allocation fails.
    #[tactic(auto, using(crate::proofs::Limit::script_limit))]
    pub fn finish(self) -> Result<Text, AllocError>
        ensures bytes { IfOk result (λ text. text.bytes ≡ self.text) }
        ensures places { IfOk result (λ text. text_seen text ≡ lexed_within self.most_line self.text) }
        ensures in_order { IfOk result (λ text. take (length (words_of text.words text.lines)) text.words ≡ words_of text.words text.lines) }
        ensures spans { IfOk result (λ text. text.fault ≡ None → text.words ≡ words_of text.words text.lines) }
        ensures counted { IfOk result (λ text. text.line_count ≡ lines_before (lexed_within self.most_line self.text).ending) }
        ensures script { self.most_line ≡ common_limit limits.Line → IfOk result (λ text. text_seen text ≡ lexed self.text) }
    {
        let mut scanner = self.scanner;
        let fault = scanner.end(self.bytes.as_slice(), self.most_line, self.fault)?;
        Ok(scanner.into_text(self.bytes, fault))
    }
}
