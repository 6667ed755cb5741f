//! Printing of scripts in their canonical form, which reads as the same script.
#![tactic(auto)]

ghost use Rattle.std.specs.Prelude.{◌≡◌, Ok, IfOk, OnOk};
ghost use Rattle.script_model.specs.Reading.{reading};
ghost use Rattle.script_print.specs.Ended.{ended};
ghost use Rattle.script_text.specs.ScriptText.{printed};

mod actions;
mod conditions;
mod declarations;
mod items;
mod lines;
mod numbers;
mod operands;

use script_syntax::Script;
use script_text::laws::{printed_script_reads_back, what_is_read_is_well_formed};
use std::alloc::{AllocError, Global};
use text_io::LimitKind;

/// Appends the line feed of the last line, unless that would make the text longer than a script may be.
fn end_last_line(text: &mut Vec<u8>) -> Result<(), AllocError>
    ensures { OnOk result (text.new.items ≡ ended text.old.items) }
{
    if (text.len() as u64) < LimitKind::Script.common() {
        text.push(b'\n')?;
    }
    Ok(())
}

/// Returns the printed text of a script: each line at its line number, single spaces between the words of a line, and each length,
/// percentage and number as its shortest text. A line feed ends the last line too, unless that would make the text longer than a
/// script may be. The text reads as the same script, with the same line numbers. Fails only if an allocation fails.
pub fn print(alloc: Global, script: &Script) -> Result<Vec<u8>, AllocError>
    ensures text { IfOk result (λ text. text.items ≡ printed script.now) }
    ensures again { IfOk result (λ text. reading text.items ≡ Ok script.now) }
{
    // the laws on which the second clause rests
    what_is_read_is_well_formed();
    printed_script_reads_back();
    let mut text = Vec::new(alloc);
    items::push_script(&mut text, script.version(), script.items())?;
    end_last_line(&mut text)?;
    Ok(text)
}
