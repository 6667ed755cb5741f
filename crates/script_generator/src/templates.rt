//! The text of a generated script.

ghost use Rattle.std.specs.Prelude.{◌≡◌, ◌++◌, IfOk, OnOk};
ghost use Rattle.script_model.specs.Generator.{generated};
ghost use Rattle.script_generator.specs.Filled.{filled};

use std::alloc::{AllocError, Global};
use word_model::push_decimal;

// The text before the cards; `#` is the root margin of the observer in pixels.
const HEAD: &[u8] = b"script 1
handler show
each
when seen
load $target 80px 60px
io-unobserve lazy $target
end
end
end
block r top
append top r
ro fit top -
ro-observe fit r content
io lazy top show root - margin #px threshold 0
";

// A card with its image and its title; `#` is its number.
const CARD: &[u8] = b"block c# top
set c# height 100px
append r c#
image g# top 0px 0px
append c# g#
block t# top
set t# height 20px
append c# t#
io-observe lazy g#
";

// The text after the cards.
const TAIL: &[u8] = b"tick 0
scroll top 0px 1000px
tick 16
scroll top 0px 5000px
tick 32
scroll top 0px 20000px
tick 48
scroll top 0px 60000px
tick 64
";

// Appends a template, with each `#` replaced by the number.
fn push_filled(into: &mut Vec<u8>, template: &[u8], number: u64) -> Result<(), AllocError>
    ensures { OnOk result (into.new.items ≡ into.old.items ++ filled number template.now) }
{
    for byte in template {
        if *byte == b'#' {
            push_decimal(into, number as u128)?;
        } else {
            into.push(*byte)?;
        }
    }
    Ok(())
}

/// Returns the text of the script of a number.
pub fn text_of(alloc: Global, number: u64) -> Result<Vec<u8>, AllocError>
    ensures { IfOk result (λ text. text.items ≡ generated number) }
{
    let cards = 1 + number % 2000;
    let margin = 200 + 100 * (number / 2000 % 5);
    let mut text = Vec::new(alloc);
    push_filled(&mut text, HEAD, margin)?;
    for card in 0..cards {
        push_filled(&mut text, CARD, card)?;
    }
    text.extend_from_slice(TAIL)?;
    Ok(text)
}
