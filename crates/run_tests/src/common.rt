//! What more than one module needs: scripts read from texts, and the calls of a source or a sink that fail.

use script_lexer::Lexer;
use script_syntax::{ParseFault, Script, parse};
use std::alloc::{AllocError, Global};

/// No script that is read here is longer.
const LONGEST: usize = 65536;

/// The script that a text is.
pub(crate) fn script_of(alloc: Global, text: &[u8]) -> Result<Script, ParseFault> {
    if text.len() > LONGEST {
        return Err(ParseFault::Memory);
    }
    let mut lexer = Lexer::new(alloc, 4096);
    lexer.feed(text)?;
    let text = lexer.finish()?;
    parse(alloc, &text)
}

/// The numbers of the calls that fail: one or none.
pub(crate) fn failing(alloc: Global, number: Option<u64>) -> Result<Vec<u64>, AllocError> {
    let mut numbers = Vec::new(alloc);
    if let Some(number) = number {
        numbers.push(number)?;
    }
    Ok(numbers)
}
