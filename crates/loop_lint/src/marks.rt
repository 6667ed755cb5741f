//! Marking the loop handlers in one walk through the script.

ghost use Rattle.std.specs.Prelude.{◌≡◌, ◌∷◌, [], flat_map, length};
ghost use Rattle.script_syntax.specs.Seen.{action_of, command_of, block_of, item_of};
ghost use Rattle.loop_lint.specs.Marks.{AreMarked, marked, named_by, named_in, named_in_block, named_in_item};

use script_syntax::{Action, Command, Item, Script, What};
use text_io::Name;

/// The maximum number of handlers of a script.
const MOST_HANDLERS: usize = 4096;

/// The loop handlers of a script, marked by their numbers. It doesn't allocate.
#[derive(Drop)]
pub struct Marks {
    pub marks: [bool; MOST_HANDLERS],
}

// Marks the handler of this name, if there is one.
#[tactic(auto, unfolding(crate::specs::Marks::marked))]
fn mark_named(script: &Script, name: Name, marks: &mut [bool])
    ensures { marks.new ≡ marked script.now.items marks.old (name ∷ []) }
{
    if let Some(number) = script.handler_named(name) {
        let place = number as usize;
        if place < marks.len() {
            marks[place] = true;
        }
    }
}

// Marks the handler that a command names, if it is an `ro`.
#[tactic(auto, unfolding(crate::specs::Marks::marked))]
fn mark_action(script: &Script, action: &Action, marks: &mut [bool])
    ensures { marks.new ≡ marked script.now.items marks.old (named_by (action_of action.now)) }
{
    match action {
        Action::Ro {
            handler: Some(handler),
            ..
        } => mark_named(script, *handler, marks),
        _ => {}
    }
}

// Marks what a command and those in its block name.
#[cycle(marking)]
fn mark_command(script: &Script, command: &Command, marks: &mut [bool])
    ensures { marks.new ≡ marked script.now.items marks.old (named_in (command_of command.now)) }
{
    match &command.what {
        What::Act(action) => mark_action(script, action, marks),
        What::Each(body) => mark_commands(script, body.commands.as_slice(), marks),
        What::When(_, body) => mark_commands(script, body.commands.as_slice(), marks),
    }
}

// Marks what these commands and those in their blocks name.
#[cycle(marking)]
fn mark_commands(script: &Script, commands: &[Command], marks: &mut [bool])
    ensures { marks.new ≡ marked script.now.items marks.old (named_in_block (block_of commands.now)) }
{
    for command in commands {
        mark_command(script, command, marks);
    }
}

#[tactic(auto, unfolding(crate::specs::Marks::marked))]
fn mark_item(script: &Script, item: &Item, marks: &mut [bool])
    ensures { marks.new ≡ marked script.now.items marks.old (named_in_item (item_of item.now)) }
{
    match item {
        Item::Command(command) => mark_command(script, command, marks),
        Item::Tick { .. } => {}
        Item::Handler(handler) => mark_commands(script, handler.commands.as_slice(), marks),
    }
}

fn mark_items(script: &Script, marks: &mut [bool])
    ensures { marks.new ≡ marked script.now.items marks.old (flat_map named_in_item script.now.items) }
{
    let items = script.items();
    for item in items {
        mark_item(script, item, marks);
    }
}

/// Marks each handler of a script that an `ro` command names, anywhere in the script.
#[tactic(auto, using(crate::proofs::Marking::length_marked))]
pub fn loop_handlers(script: &Script) -> Marks
    ensures marked { AreMarked script.now.items result.marks }
    ensures count { length result.marks ≡ 4096 }
{
    let mut marks = Marks {
        marks: [false; MOST_HANDLERS],
    };
    mark_items(script, &mut marks.marks);
    marks
}
