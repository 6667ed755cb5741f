//! The reply with the number of commands of a script.

ghost use Rattle.std.specs.Prelude.{◌≡◌, ◌^◌, ◌<◌, map, Ok, IfOk};
ghost use Rattle.script_model.specs.Scripts.{commands_in, block_commands, item_commands, command_count};
ghost use Rattle.script_syntax.specs.Seen.{block_of, command_of, item_of};
ghost use Rattle.page_model.specs.Outcome.{check_read};
ghost use Rattle.run_replies.specs.Answers.{Tells};
ghost use Rattle.run_replies.specs.Replies.{done_with};

use crate::lines::write_lines;
use crate::status::Status;
use script_syntax::{Command, Item, Script, What};
use script_text::laws::what_is_read_is_well_formed;
use std::alloc::{AllocError, Global};
use text_io::Sink;
use word_model::push_decimal;

// Counts a command and those of its block.
#[cycle(counting)]
fn count_command(command: &Command) -> u64
    requires { commands_in (command_of command.now) < 2 ^ 64 }
    ensures { result ≡ commands_in (command_of command.now) }
{
    match &command.what {
        What::Act(_) => 1,
        What::Each(body) => 1 + count_commands(body.commands.as_slice()),
        What::When(_, body) => 1 + count_commands(body.commands.as_slice()),
    }
}

// Counts the commands of a block and of the blocks in it.
#[cycle(counting)]
fn count_commands(commands: &[Command]) -> u64
    requires { block_commands (block_of commands.now) < 2 ^ 64 }
    ensures { result ≡ block_commands (block_of commands.now) }
{
    let mut count = 0;
    for command in commands {
        count += count_command(command);
    }
    count
}

fn count_item(item: &Item) -> u64
    requires { item_commands (item_of item.now) < 2 ^ 64 }
    ensures { result ≡ item_commands (item_of item.now) }
{
    match item {
        Item::Command(command) => count_command(command),
        Item::Tick { .. } => 1,
        Item::Handler(handler) => count_commands(handler.commands.as_slice()),
    }
}

fn count_items(items: &[Item]) -> u64
    requires { command_count (map item_of items.now) < 2 ^ 64 }
    ensures { result ≡ command_count (map item_of items.now) }
{
    let mut count = 0;
    for item in items {
        count += count_item(item);
    }
    count
}

/// Returns the number of commands of a script, including those in handlers and blocks; `each`, `when` and `tick` count too.
pub fn commands_of(script: &Script) -> u64
    ensures { result ≡ command_count script.now.items }
{
    // the law by which a script has no more commands than a text has lines
    what_is_read_is_well_formed();
    count_items(script.items())
}

// Returns the line with their number.
fn count_line(alloc: Global, script: &Script) -> Result<Vec<u8>, AllocError>
    ensures { IfOk result (λ line. line.items ≡ check_read (Ok script.now)) }
{
    let mut line = Vec::from_slice(alloc, b"ok ")?;
    push_decimal(&mut line, commands_of(script) as u128)?;
    line.push(b'\n')?;
    Ok(line)
}

/// Writes `ok` and the number of a script's commands.
///
/// Returns `NoMemory` if an allocation fails, with nothing written; or `WriteFault`, only where the sink's fault count rose in this call, with
/// a prefix of the text written. Otherwise `Done`.
pub fn write_check<K: Sink>(alloc: Global, script: &Script, sink: &mut K) -> Status
    ensures tells { Tells result (done_with (check_read (Ok script.now))) (K.taken sink.old) (K.taken sink.new) (K.faults sink.old) (K.faults sink.new) }
    ensures memory { result ≡ Status.NoMemory → sink.new ≡ sink.old }
{
    match count_line(alloc, script) {
        Ok(line) => write_lines(&line, sink),
        Err(_) => Status::NoMemory,
    }
}
