//! Printing of items and whole scripts.

ghost use Rattle.std.specs.Prelude.{◌≡◌, ◌++◌, map, IfOk, OnOk};
ghost use Rattle.script_print.specs.LastNumber.{last_number};
ghost use Rattle.script_model.specs.Syntax.{Tick};
ghost use Rattle.script_syntax.specs.Seen.{handler_item, item_of};
ghost use Rattle.script_text.specs.NumberedLines.{item_lines, items_lines};
ghost use Rattle.script_text.specs.ScriptText.{lines_text, script_text};

use crate::lines::{push_command, push_commands, push_end, push_line_feeds};
use crate::operands::Entry::{Whole, Word};
use crate::operands::push_line;
use script_syntax::{Handler, Item};
use std::alloc::AllocError;
use text_io::Version;

/// Appends the line of a `tick` after line `after`, and returns its line number.
#[tactic(auto, using(crate::proofs::Blocks::tick_pushed, crate::proofs::Blocks::tick_last))]
fn push_tick(into: &mut Vec<u8>, after: u32, line: u32, time: u64) -> Result<u32, AllocError>
    ensures text { OnOk result (into.new.items ≡ into.old.items ++ lines_text after (item_lines (Tick line time))) }
    ensures last { IfOk result (λ last. last ≡ last_number after (item_lines (Tick line time))) }
{
    push_line_feeds(into, after, line)?;
    push_line(into, b"tick", &[Whole(time)])?;
    Ok(line)
}

/// Appends the lines of a handler after line `after`, and returns the line number of its `end`.
#[tactic(auto, using(crate::proofs::Blocks::handler_pushed, crate::proofs::Blocks::handler_last))]
fn push_handler(into: &mut Vec<u8>, after: u32, handler: &Handler) -> Result<u32, AllocError>
    ensures text { OnOk result (into.new.items ≡ into.old.items ++ lines_text after (item_lines (handler_item handler.now))) }
    ensures last { IfOk result (λ last. last ≡ last_number after (item_lines (handler_item handler.now))) }
{
    push_line_feeds(into, after, handler.line)?;
    push_line(into, b"handler", &[Word(handler.name)])?;
    let last = push_commands(into, handler.line, handler.commands.as_slice())?;
    push_end(into, last, handler.end_line)?;
    Ok(handler.end_line)
}

/// Appends the lines of an item after line `after`, and returns the number of the last one.
#[tactic(auto, unfolding(script_text::specs::NumberedLines::item_lines))]
fn push_item(into: &mut Vec<u8>, after: u32, item: &Item) -> Result<u32, AllocError>
    ensures text { OnOk result (into.new.items ≡ into.old.items ++ lines_text after (item_lines (item_of item.now))) }
    ensures last { IfOk result (λ last. last ≡ last_number after (item_lines (item_of item.now))) }
{
    match item {
        Item::Command(command) => push_command(into, after, command),
        Item::Tick { line, time } => push_tick(into, after, *line, *time),
        Item::Handler(handler) => push_handler(into, after, handler),
    }
}

fn push_items(into: &mut Vec<u8>, items: &[Item]) -> Result<(), AllocError>
    ensures { OnOk result (into.new.items ≡ into.old.items ++ lines_text 1 (items_lines (map item_of items.now))) }
{
    let mut last = 1;
    for item in items {
        last = push_item(into, last, item)?;
    }
    Ok(())
}

/// Appends the text of a script of this version with these items, without a line feed at the end.
#[tactic(auto, using(crate::proofs::Blocks::script_pushed))]
pub fn push_script(into: &mut Vec<u8>, version: Version, items: &[Item]) -> Result<(), AllocError>
    ensures { OnOk result (into.new.items ≡ into.old.items ++ script_text (record { version = version; items = map item_of items.now })) }
{
    into.extend_from_slice(b"script ")?;
    into.extend_from_slice(version.text().as_bytes())?;
    push_items(into, items)
}
