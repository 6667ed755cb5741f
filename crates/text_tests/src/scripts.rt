//! Texts read to their lines and words, and to scripts.

ghost use Rattle.std.specs.Prelude.{◌≡◌, IfOk};
ghost use Rattle.script_model.specs.Lexing.{lexed};
ghost use Rattle.script_lexer.specs.Texts.{text_seen};

use script_lexer::{Lexer, Text};
use script_syntax::{ParseFault, Script, parse};
use std::alloc::{AllocError, Global};
use std::process::Abort;

/// The lines and words of a text that is fed in two pieces.
pub fn lines_of(rt: &impl Abort, alloc: Global, text: &[u8], cut: usize) -> Result<Text, AllocError>
    ensures { IfOk result (λ text. text_seen text ≡ lexed text.bytes) }
{
    assert!(rt; text.len() < 100_000 && cut <= text.len());
    let mut lexer = Lexer::new(alloc, 4096);
    lexer.feed(&text[..cut])?;
    lexer.feed(&text[cut..])?;
    lexer.finish()
}

/// The lines and words of a text that is fed in pieces of a size.
pub fn lines_in_pieces(
    rt: &impl Abort,
    alloc: Global,
    text: &[u8],
    size: usize,
) -> Result<Text, AllocError> {
    assert!(rt; text.len() < 100_000);
    assert!(rt; 0 < size);
    assert!(rt; size < 100_000);
    let mut lexer = Lexer::new(alloc, 4096);
    let mut fed = 0;
    while fed < text.len() {
        let end = text.len().min(fed + size);
        lexer.feed(&text[fed..end])?;
        fed = end;
    }
    lexer.finish()
}

/// The script that a text is.
pub fn script_of(rt: &impl Abort, alloc: Global, text: &str) -> Result<Script, ParseFault> {
    let lines = lines_of(rt, alloc, text.as_bytes(), 0)?;
    parse(alloc, &lines)
}
