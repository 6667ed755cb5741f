//! The verdicts on a script, and the command responsible for one.

ghost use Rattle.std.specs.Prelude.{◌≡◌, ◌↔◌, IsTrue, IsNone, cond, [], slice_get, map};
ghost use Rattle.script_syntax.specs.Seen.{item_of};
ghost use Rattle.loop_lint.specs.LoopHandlers.{is_empty, is_unnamed, block_lines, loop_handler_lines};
ghost use Rattle.loop_lint.specs.Marks.{AreMarked};
ghost use Rattle.loop_lint.specs.Searches.{lines_at};
ghost use Rattle.loop_lint.specs.Verdicts.{is_steady, is_quiet};
ghost use Rattle.loop_lint.specs.Promises.{Promises, RunsSteadily, RunsQuietly};
ghost use Rattle.loop_lint.specs.Seen.{forbidden_by};

use crate::kinds::{Law, Verdict};
use crate::marks::{Marks, loop_handlers};
use crate::search::{Sought, first_in, first_in_item};
use script_syntax::{Handler, Item, Script};
use text_io::Name;

/// Whether no `ro` among these items names a handler.
fn is_unnamed(items: &[Item], name: Name) -> bool
    ensures { result ≡ is_unnamed (map item_of items.now) name }
{
    for item in items {
        if first_in_item(item, &Sought::Naming(name)).is_some() {
            return false;
        }
    }
    true
}

/// Whether no `ro` of a script names a handler, by the marks of its loop handlers. A handler without a place among the marks, which no
/// script that was read has, is searched for.
fn is_unmarked(script: &Script, marks: &Marks, name: Name) -> bool
    requires { AreMarked script.now.items marks.now.marks }
    ensures { result ≡ is_unnamed script.now.items name }
{
    if let Some(number) = script.handler_named(name) {
        let place = number as usize;
        if place < marks.marks.len() {
            return !marks.marks[place];
        }
    }
    is_unnamed(script.items(), name)
}

/// Returns the line of the first command of a handler that a law forbids, if the handler is a loop handler.
fn blame_in(script: &Script, marks: &Marks, handler: &Handler, law: Law) -> Option<u32>
    requires { AreMarked script.now.items marks.now.marks }
    ensures { result ≡ slice_get (cond (is_unnamed script.now.items handler.now.name) [] (block_lines (forbidden_by law) handler.now.commands)) 0 }
{
    let line = first_in(handler.commands.as_slice(), &Sought::Forbidden(law))?;
    if is_unmarked(script, marks, handler.name) {
        return None;
    }
    Some(line)
}

/// Like `blame_in`, for an item; `None` if it isn't a handler.
fn blame_at(script: &Script, marks: &Marks, item: &Item, law: Law) -> Option<u32>
    requires { AreMarked script.now.items marks.now.marks }
    ensures { result ≡ slice_get (lines_at (forbidden_by law) script.now.items (item_of item.now)) 0 }
{
    match item {
        Item::Command(_) | Item::Tick { .. } => None,
        Item::Handler(handler) => blame_in(script, marks, handler, law),
    }
}

/// Returns the line, from 1, of the first command in the text that is in a loop handler, at any nesting, and that a law forbids. A loop
/// handler is one that an `ro` command anywhere in the script names. Returns `None` exactly if the script obeys the law; then the promise
/// of the law holds, as for `lint`. Goes through the script twice, and allocates nothing.
pub fn blame(script: &Script, law: Law) -> Option<u32>
    ensures line { result ≡ slice_get (loop_handler_lines (forbidden_by law) script.now.items) 0 }
    ensures none { IsNone result ↔ IsTrue (is_empty (loop_handler_lines (forbidden_by law) script.now.items)) }
    ensures promise { IsNone result → Promises law script.now.items }
{
    let marks = loop_handlers(script);
    let items = script.items();
    for item in items {
        let found = blame_at(script, &marks, item, law);
        if found.is_some() {
            return found;
        }
    }
    None
}

/// Returns which laws a script obeys, which depends on the commands in its loop handlers. The promise is about every run of every script
/// with these handlers and these loop handlers, whatever else it contains: if it is steady, the rounds of every resize loop go deeper and
/// are few, and if it is quiet, no line of a loop error is written. Allocates nothing.
pub fn lint(script: &Script) -> Verdict
    ensures verdict { result ≡ record { steady = is_steady script.now.items; quiet = is_quiet script.now.items } }
    ensures steady { IsTrue result.steady → RunsSteadily script.now.items }
    ensures quiet { IsTrue result.quiet → RunsQuietly script.now.items }
{
    Verdict {
        steady: blame(script, Law::Steady).is_none(),
        quiet: blame(script, Law::Quiet).is_none(),
    }
}
