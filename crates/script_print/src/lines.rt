//! Printing of the lines of commands, each at its line number. Line numbers start at 1.

ghost use Rattle.std.specs.Prelude.{◌≡◌, ◌-◌, ◌++◌, ◌∷◌, [], replicate, IfOk, OnOk};
ghost use Rattle.script_print.specs.LastNumber.{last_number};
ghost use Rattle.script_syntax.specs.Seen.{command_of, block_of};
ghost use Rattle.script_text.specs.NumberedLines.{command_lines, block_lines, end_line};
ghost use Rattle.script_text.specs.ScriptText.{lines_text};

use crate::actions::push_action;
use crate::conditions::push_condition;
use script_syntax::{Body, Command, What};
use std::alloc::AllocError;

/// Appends the line feeds that lead from a line to a later one; none if it isn't later.
pub fn push_line_feeds(into: &mut Vec<u8>, from: u32, to: u32) -> Result<(), AllocError>
    ensures { OnOk result (into.new.items ≡ into.old.items ++ replicate (to - from) 10) }
{
    for _ in from..to {
        into.push(b'\n')?;
    }
    Ok(())
}

/// Appends the line of an `end` after line `after`.
#[tactic(auto, using(crate::proofs::Blocks::end_pushed))]
pub fn push_end(into: &mut Vec<u8>, after: u32, line: u32) -> Result<(), AllocError>
    ensures { OnOk result (into.new.items ≡ into.old.items ++ lines_text after (end_line line ∷ [])) }
{
    push_line_feeds(into, after, line)?;
    into.extend_from_slice(b"end")
}

/// Appends the lines of a command after line `after`, and returns the number of the last one.
#[cycle(lines)]
pub fn push_command(into: &mut Vec<u8>, after: u32, command: &Command) -> Result<u32, AllocError>
    ensures text { OnOk result (into.new.items ≡ into.old.items ++ lines_text after (command_lines (command_of command.now))) }
    ensures last { IfOk result (λ last. last ≡ last_number after (command_lines (command_of command.now))) }
{
    push_line_feeds(into, after, command.line)?;
    match &command.what {
        What::Act(action) => {
            push_action(into, action)?;
            Ok(command.line)
        }
        What::Each(body) => {
            into.extend_from_slice(b"each")?;
            let last = push_body(into, command.line, body)?;
            Ok(last)
        }
        What::When(condition, body) => {
            push_condition(into, *condition)?;
            let last = push_body(into, command.line, body)?;
            Ok(last)
        }
    }
}

/// Appends the lines of a block and its `end` after line `after`, and returns the line number of the `end`.
#[cycle(lines)]
#[tactic(auto, using(crate::proofs::Blocks::lines_pushed))]
fn push_body(into: &mut Vec<u8>, after: u32, body: &Body) -> Result<u32, AllocError>
    ensures text { OnOk result (into.new.items ≡ into.old.items ++ lines_text after (block_lines body.now.commands ++ (end_line body.now.end_line ∷ []))) }
    ensures last { IfOk result (λ last. last ≡ body.now.end_line) }
{
    let last = push_commands(into, after, body.commands.as_slice())?;
    push_end(into, last, body.end_line)?;
    Ok(body.end_line)
}

/// Appends the lines of commands after line `after`, and returns the number of the last one.
#[cycle(lines)]
pub fn push_commands(
    into: &mut Vec<u8>,
    after: u32,
    commands: &[Command],
) -> Result<u32, AllocError>
    ensures text { OnOk result (into.new.items ≡ into.old.items ++ lines_text after (block_lines (block_of commands.now))) }
    ensures last { IfOk result (λ last. last ≡ last_number after (block_lines (block_of commands.now))) }
{
    let mut last = after;
    for command in commands {
        last = push_command(into, last, command)?;
    }
    Ok(last)
}
