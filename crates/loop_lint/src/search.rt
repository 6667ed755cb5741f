//! Searching commands at any nesting, in the order of their lines.

ghost use Rattle.std.specs.Prelude.{◌≡◌, slice_get};
ghost use Rattle.script_model.specs.Syntax.{Action};
ghost use Rattle.script_syntax.specs.Seen.{action_of, command_of, block_of, item_of};
ghost use Rattle.loop_lint.specs.LoopHandlers.{names_handler, lines_in, block_lines, item_lines};
ghost use Rattle.loop_lint.specs.Seen.{forbidden_by};
ghost use Rattle.loop_lint.specs.Searches.{is_sought};

use crate::kinds::Law;
use script_syntax::{Action, Command, Item, What};
use text_io::Name;

/// What to search for.
#[derive(Clone, Copy)]
pub enum Sought {
    /// An `ro` that names this handler.
    Naming(Name),
    /// A command that a law forbids.
    Forbidden(Law),
}

/// Whether a command is an `ro` that names this handler.
fn names_handler(action: &Action, name: Name) -> bool
    ensures { result ≡ names_handler name (action_of action.now) }
{
    match action {
        Action::Ro {
            handler: Some(handler),
            ..
        } => *handler == name,
        _ => false,
    }
}

/// Whether a law forbids a command in loop handlers.
fn is_forbidden(action: &Action, law: Law) -> bool
    ensures { result ≡ forbidden_by law (action_of action.now) }
{
    match action {
        Action::Append { .. } | Action::Before { .. } | Action::Remove(_) => true,
        Action::Viewport(_)
        | Action::Ratio(_)
        | Action::Set { .. }
        | Action::Grow { .. }
        | Action::Load { .. }
        | Action::RoObserve { .. } => law == Law::Quiet,
        _ => false,
    }
}

/// Whether a command without a block is what is searched for.
fn is_sought(action: &Action, sought: &Sought) -> bool
    ensures { result ≡ is_sought sought.now (action_of action.now) }
{
    match sought {
        Sought::Naming(name) => names_handler(action, *name),
        Sought::Forbidden(law) => is_forbidden(action, *law),
    }
}

/// Returns the line of the first match among a command and those in its block.
#[cycle(walk)]
pub fn first_in_command(command: &Command, sought: &Sought) -> Option<u32>
    ensures { result ≡ slice_get (lines_in (is_sought sought.now) (command_of command.now)) 0 }
{
    match &command.what {
        What::Act(action) => is_sought(action, sought).then_some(command.line),
        What::Each(body) => first_in(body.commands.as_slice(), sought),
        What::When(_, body) => first_in(body.commands.as_slice(), sought),
    }
}

/// Returns the line of the first match among these commands and those in their blocks.
#[cycle(walk)]
pub fn first_in(commands: &[Command], sought: &Sought) -> Option<u32>
    ensures { result ≡ slice_get (block_lines (is_sought sought.now) (block_of commands.now)) 0 }
{
    for command in commands {
        let found = first_in_command(command, sought);
        if found.is_some() {
            return found;
        }
    }
    None
}

/// Returns the line of the first match in an item.
pub fn first_in_item(item: &Item, sought: &Sought) -> Option<u32>
    ensures { result ≡ slice_get (item_lines (is_sought sought.now) (item_of item.now)) 0 }
{
    match item {
        Item::Command(command) => first_in_command(command, sought),
        Item::Tick { .. } => None,
        Item::Handler(handler) => first_in(handler.commands.as_slice(), sought),
    }
}
