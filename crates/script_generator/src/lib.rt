//! Generates scripts from a number: a list of cards whose images are loaded as they come near the viewport, which is scrolled
//! four times. They are large but realistic inputs, for benchmarks and tests.
#![tactic(auto)]

ghost use Rattle.std.specs.Prelude.{◌≡◌, Ok, IfOk};
ghost use Rattle.script_model.specs.Generator.{generated};
ghost use Rattle.script_model.specs.Reading.{reading};
ghost use Rattle.script_text.specs.ScriptText.{printed};

mod laws;
mod templates;

pub use laws::{generated_text_is_a_script, scripts_come_again};
use script_lexer::Lexer;
use script_syntax::{Script, parse};
use std::alloc::{AllocError, Global};
pub use templates::text_of;

/// The most bytes that a line may have.
const MOST_LINE: usize = 4096;

/// Generates the script of a number. It has `1 + number % 2000` cards, each a block of 100 pixels with an image and a title, and
/// an intersection observer whose root margin is `200 + 100 * (number / 2000 % 5)` pixels; so there are 10,000 such scripts.
/// It prints as the number's text, byte for byte. Fails only if an allocation fails.
pub fn make(alloc: Global, number: u64) -> Result<Script, AllocError>
    ensures read { IfOk result (λ script. reading (generated number) ≡ Ok script) }
    ensures text { IfOk result (λ script. printed script ≡ generated number) }
{
    generated_text_is_a_script();
    let bytes = text_of(alloc, number)?;
    let mut lexer = Lexer::new(alloc, MOST_LINE);
    lexer.feed(&bytes)?;
    let text = lexer.finish()?;
    match parse(alloc, &text) {
        Ok(script) => Ok(script),
        // The text is a script, so only an allocation can have failed.
        Err(_) => Err(AllocError),
    }
}
