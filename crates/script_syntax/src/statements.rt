//! Parsing of single lines.

ghost use Rattle.std.specs.Prelude.{◌≡◌, cond, false, not, option_map, Some, None, IfOk, IfSome, bytes_eq, reverse};
ghost use Rattle.std.specs.List.{list_any};
ghost use Rattle.text_io.specs.declared.kinds.Version.{Version};
ghost use Rattle.script_model.specs.Forms.{word_as};
ghost use Rattle.script_model.specs.Keywords.{lookup};
ghost use Rattle.script_model.specs.Commands.{tests};
ghost use Rattle.script_model.specs.Words.{versions};
ghost use Rattle.script_model.specs.Statements as model;
ghost use Rattle.script_syntax.specs.Allowed.{TestAllowed};
ghost use Rattle.script_syntax.specs.Heads.{head_of, shape_of};
ghost use Rattle.script_syntax.specs.Lines.{Gives};
ghost use Rattle.script_syntax.specs.Seen.{test_of, condition_of};
ghost use Rattle.script_syntax.specs.Statements.{statement_of, StatementAllowed, IsFreshAmong};

use crate::actions::action;
use crate::commands::Action;
use crate::faults::LineFault;
use crate::heads::{Head, Shape};
use crate::operands::{Condition, Test};
use crate::tables;
use crate::words::Words;
use indexmap::IndexSet;
use std::alloc::Global;
use text_io::{Name, Version};

/// A parsed line.
#[derive(Drop)]
pub enum Statement {
    /// A command without a block.
    Does(Action),
    Ticks(u64),
    OpensEach,
    OpensWhen(Condition),
    OpensHandler(Name),
    /// Closes the innermost block or handler.
    Ends,
}

/// Parses a line of a script of this version. `outside` says whether the line is outside handlers and blocks; `handlers` are the names of
/// the handlers so far.
#[tactic(auto, unfolding(script_model::specs::Statements::statement_of))]
pub fn read_statement(
    alloc: Global,
    version: Version,
    outside: bool,
    handlers: &IndexSet<Name>,
    words: &mut Words<'_>,
) -> Result<Statement, LineFault>
    ensures value { Gives statement_of result (model.statement_of (record { version = version; outside = outside; names = reverse handlers.now.keys }) words.old) }
    ensures allowed { IfOk result (λ statement. StatementAllowed statement) }
    ensures fresh { IfOk result (λ statement. IsFreshAmong (reverse handlers.now.keys) statement) }
{
    let head = head(version, outside, words)?;
    operands(alloc, version, head, handlers, words)
}

/// Whether a line outside handlers and blocks, or inside, may begin like this.
#[tactic(auto, unfolding(script_model::specs::Statements::permitted))]
fn is_permitted(outside: bool, head: Head) -> bool
    ensures { (version : Version) → model.permitted outside (head_of version head) ≡ cond result (Some (head_of version head)) None }
{
    match head {
        Head::Tick => outside,
        Head::Handler => outside,
        Head::End => !outside,
        _ => true,
    }
}

/// Returns the kind of line that this word introduces, if it is allowed here.
#[tactic(auto, unfolding(script_model::specs::Statements::head_of))]
fn permitted_head(version: Version, outside: bool, word: &[u8]) -> Option<Head>
    ensures { option_map (head_of version) result ≡ model.head_of version outside word.now }
{
    let head = tables::head(version, word)?;
    if is_permitted(outside, head) {
        return Some(head);
    }
    None
}

#[tactic(auto, unfolding(script_model::specs::Forms::word_as))]
fn head(version: Version, outside: bool, words: &mut Words<'_>) -> Result<Head, LineFault>
    ensures { Gives (λ head. (head_of version head, words.new)) result (word_as (model.head_of version outside) words.old) }
{
    let word = words.next()?;
    permitted_head(version, outside, word.text).ok_or(word.fault())
}

/// Parses what follows the first word of a line.
#[tactic(auto, unfolding(script_model::specs::Statements::operands_of, crate::specs::Acts::Acts))]
fn operands(
    alloc: Global,
    version: Version,
    head: Head,
    handlers: &IndexSet<Name>,
    words: &mut Words<'_>,
) -> Result<Statement, LineFault>
    ensures value { Gives statement_of result (model.operands_of (reverse handlers.now.keys) (head_of version head) words.old) }
    ensures allowed { IfOk result (λ statement. StatementAllowed statement) }
    ensures fresh { IfOk result (λ statement. IsFreshAmong (reverse handlers.now.keys) statement) }
{
    match head {
        Head::Act(verb) => {
            let action = action(alloc, version, verb, words)?;
            Ok(Statement::Does(action))
        }
        Head::Tick => {
            let time = words.whole()?;
            words.end()?;
            Ok(Statement::Ticks(time))
        }
        Head::Each => {
            words.end()?;
            Ok(Statement::OpensEach)
        }
        Head::When => {
            let condition = condition(words)?;
            Ok(Statement::OpensWhen(condition))
        }
        Head::Handler => handler(handlers, words),
        Head::End => {
            words.end()?;
            Ok(Statement::Ends)
        }
    }
}

/// `handler NAME`, with a name that no handler has yet
#[tactic(auto, unfolding(script_model::specs::Statements::handler_as))]
fn handler(handlers: &IndexSet<Name>, words: &mut Words<'_>) -> Result<Statement, LineFault>
    ensures value { Gives statement_of result (model.handler_as (reverse handlers.now.keys) words.old) }
    ensures allowed { IfOk result (λ statement. StatementAllowed statement) }
    ensures fresh { IfOk result (λ statement. IsFreshAmong (reverse handlers.now.keys) statement) }
{
    let word = words.next()?;
    let name = fresh_name(handlers, word.text).ok_or(word.fault())?;
    words.end()?;
    Ok(Statement::OpensHandler(name))
}

/// Returns the word as a name, if it is one that no handler has yet.
#[tactic(auto, unfolding(script_model::specs::Statements::fresh_name_of), using(crate::proofs::Reversed::any_reversed))]
fn fresh_name(handlers: &IndexSet<Name>, word: &[u8]) -> Option<Name>
    ensures value { result ≡ model.fresh_name_of (reverse handlers.now.keys) word.now }
    ensures fresh { IfSome result (λ name. list_any (bytes_eq name) (reverse handlers.now.keys) ≡ false) }
{
    let name = Name::read(word)?;
    if handlers.contains(&name) {
        return None;
    }
    Some(name)
}

/// Parses an optional `not` and a test.
#[tactic(auto, unfolding(script_model::specs::Statements::condition_as), using(crate::proofs::NextWords::negation_taken))]
fn condition(words: &mut Words<'_>) -> Result<Condition, LineFault>
    ensures value { Gives condition_of result (model.condition_as words.old) }
    ensures allowed { IfOk result (λ condition. TestAllowed condition.asks) }
{
    let negated = words.take_if(b"not");
    let shape = shape(words)?;
    let asks = asked(shape, words)?;
    Ok(Condition { negated, asks })
}

#[tactic(auto, unfolding(script_model::specs::Forms::word_as))]
fn shape(words: &mut Words<'_>) -> Result<Shape, LineFault>
    ensures { Gives (λ shape. (shape_of shape, words.new)) result (word_as (lookup tests) words.old) }
{
    let word = words.next()?;
    tables::test(word.text).ok_or(word.fault())
}

/// Parses the operands of a test, which must take up all remaining words.
#[tactic(auto, unfolding(script_model::specs::Statements::test_in))]
fn asked(shape: Shape, words: &mut Words<'_>) -> Result<Test, LineFault>
    ensures value { Gives test_of result (model.test_in (shape_of shape) words.old) }
    ensures allowed { IfOk result (λ test. TestAllowed test) }
{
    match shape {
        Shape::Wider => {
            let node = words.node()?;
            let width = words.length()?;
            words.end()?;
            Ok(Test::Wider(node, width))
        }
        Shape::Taller => {
            let node = words.node()?;
            let height = words.length()?;
            words.end()?;
            Ok(Test::Taller(node, height))
        }
        Shape::Matches => {
            let query = words.name()?;
            words.end()?;
            Ok(Test::Matches(query))
        }
        Shape::Attached => {
            let node = words.node()?;
            words.end()?;
            Ok(Test::Attached(node))
        }
        Shape::Seen => {
            words.end()?;
            Ok(Test::Seen)
        }
    }
}

/// `script 1` or `script 2`, the first line
#[tactic(auto, unfolding(script_model::specs::Statements::version_as, script_model::specs::Forms::part_as))]
pub fn version(words: &mut Words<'_>) -> Result<Version, LineFault>
    ensures { Gives (λ version. version) result (model.version_as words.old) }
{
    words.just(b"script")?;
    let version = version_word(words)?;
    words.end()?;
    Ok(version)
}

/// Parses the word for a version.
#[tactic(auto, unfolding(script_model::specs::Forms::word_as), using(script_model::proofs::Keyed::version_named))]
fn version_word(words: &mut Words<'_>) -> Result<Version, LineFault>
    ensures { Gives (λ version. (version, words.new)) result (word_as (lookup versions) words.old) }
{
    let word = words.next()?;
    Version::named(word.text).ok_or(word.fault())
}
