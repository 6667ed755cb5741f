//! The state of the parser: the items so far, and the open blocks and handlers.

ghost use Rattle.std.specs.Prelude.{◌≡◌, ◌∷◌, count_by, bytes_eq, false, reverse, IfOk};
ghost use Rattle.std.specs.List.{list_any};
ghost use Rattle.script_model.specs.Reading as model;
ghost use Rattle.script_syntax.specs.Frames.{opening_of};

use crate::commands::{Body, Command, CommandList, Handler, Item, What};
use crate::faults::ParseFault;
use crate::frames::{Frame, Opening};
use crate::statements::Statement;
use indexmap::IndexSet;
use std::alloc::{AllocError, Global};
use std::marker::Model;
use text_io::{LimitKind, Name, Version};

/// The state of the parser after the lines so far. A contract sees the definition's state. After an allocation has failed, the
/// state is unspecified.
#[derive(Drop)]
pub struct Builder {
    alloc: Global,
    version: Version,
    // Innermost last.
    frames: Vec<Frame>,
    items: Vec<Item>,
    // The names of the handlers, in order; a set, so that lookups stay fast with many of them.
    names: IndexSet<Name>,
}

impl Model for Builder {
    ghost use Rattle.script_model.specs.Reading.{State};
    ghost use Rattle.script_syntax.specs.Codes.{state_code};

    ghost Value = { State };

    ghost coded = { state_code };

    ghost use Rattle.std.specs.Prelude.{reverse, map};
    ghost use Rattle.std.specs.List.{All};
    ghost use Rattle.script_syntax.specs.Allowed.{ItemAllowed};
    ghost use Rattle.script_syntax.specs.Frames.{frame_of, FrameAllowed};
    ghost use Rattle.script_syntax.specs.Seen.{item_of};

    ghost view = { λ b. record {
      version = b.version;
      frames = reverse (map frame_of b.frames.items);
      items = reverse (map item_of b.items.items);
      names = reverse b.names.keys;
    } };

    ghost invariant = { λ b. All FrameAllowed b.frames.items × All ItemAllowed b.items.items };
}

impl Builder {
    ghost use Rattle.std.specs.Prelude.{map};
    ghost use Rattle.std.specs.List.{All};
    ghost use Rattle.script_model.specs.Readers.{is_empty};
    ghost use Rattle.script_syntax.specs.Allowed.{IsAllowed, ItemAllowed};
    ghost use Rattle.script_syntax.specs.Parsing.{Answers};
    ghost use Rattle.script_syntax.specs.Seen.{command_of, item_of};
    ghost use Rattle.script_syntax.specs.Frames.{OpeningAllowed};
    ghost use Rattle.script_syntax.specs.Statements.{statement_of, StatementAllowed, IsFreshAmong};

    /// Creates the state after the line with the version.
    pub fn new(alloc: Global, version: Version) -> Builder
        ensures { result ≡ model.nothing_read version }
    {
        Builder {
            alloc,
            version,
            frames: Vec::new(alloc),
            items: Vec::new(alloc),
            names: IndexSet::new(alloc),
        }
    }

    /// Returns the version of the script.
    pub fn version(&self) -> Version
        ensures { result ≡ self.now.version }
    {
        self.version
    }

    /// Whether no block or handler is open.
    #[tactic(auto, unfolding(script_model::specs::Readers::is_empty), using(crate::proofs::Opened::outside_is))]
    pub fn is_outside(&self) -> bool
        ensures { result ≡ is_empty self.now.frames }
    {
        self.frames.is_empty()
    }

    /// Returns the names of the handlers so far.
    pub fn handlers(&self) -> &IndexSet<Name>
        ensures { reverse result.now.keys ≡ self.now.names }
    {
        &self.names
    }

    /// Returns the items so far, without those in blocks and handlers that are still open.
    pub fn into_items(self) -> Vec<Item>
        ensures value { reverse (map item_of result.items) ≡ self.items }
        ensures allowed { All ItemAllowed result.items }
    {
        self.items
    }

    /// Applies the statement of a line. The name of a handler must be new.
    #[tactic(auto, unfolding(script_model::specs::Reading::placed))]
    pub fn place(&mut self, line: u32, statement: Statement) -> Result<(), ParseFault>
        requires allowed { StatementAllowed statement }
        requires fresh { IsFreshAmong self.old.names statement }
        ensures { Answers (λ placed. self.new) result (model.placed line (statement_of statement) self.old) }
    {
        match statement {
            Statement::Does(action) => {
                let what = What::Act(action);
                self.put(Command { line, what })?;
                Ok(())
            }
            Statement::Ticks(time) => {
                self.items.push(Item::Tick { line, time })?;
                Ok(())
            }
            Statement::OpensEach => self.open_block(line, Opening::Each),
            Statement::OpensWhen(condition) => self.open_block(line, Opening::When(condition)),
            Statement::OpensHandler(name) => self.open_handler(line, name),
            Statement::Ends => {
                self.close(line)?;
                Ok(())
            }
        }
    }

    /// Adds a command to the innermost open block or handler, or, if there is none, to the items.
    #[tactic(auto, unfolding(script_model::specs::Reading::put), using(crate::proofs::Opened::frame_pushed, crate::proofs::Opened::command_pushed, crate::proofs::Opened::item_pushed))]
    fn put(&mut self, command: Command) -> Result<(), AllocError>
        requires { IsAllowed command }
        ensures { IfOk result (λ put. self.new ≡ model.put (command_of command) self.old) }
    {
        if let Some(mut frame) = self.frames.pop() {
            frame.commands.push(command)?;
            self.frames.push(frame)?;
            return Ok(());
        }
        self.items.push(Item::Command(command))?;
        Ok(())
    }

    /// Returns the number of open blocks, not counting handlers.
    #[tactic(auto, using(crate::proofs::Opened::blocks_counted))]
    fn blocks(&self) -> usize
        ensures { result ≡ count_by (λ frame. model.is_block frame.opening) self.now.frames }
    {
        blocks_in(self.frames.as_slice())
    }

    /// Opens a block.
    #[tactic(auto, unfolding(script_model::specs::Reading::open_block), using(crate::proofs::Opened::frame_opened))]
    fn open_block(&mut self, line: u32, opening: Opening) -> Result<(), ParseFault>
        requires { OpeningAllowed opening }
        ensures { Answers (λ opened. self.new) result (model.open_block line (opening_of opening) self.old) }
    {
        if self.blocks() as u64 >= LimitKind::Nesting.common() {
            return Err(ParseFault::ScriptLimit {
                kind: LimitKind::Nesting,
                line,
            });
        }
        let commands = Vec::new(self.alloc);
        self.frames.push(Frame {
            line,
            opening,
            commands,
        })?;
        Ok(())
    }

    /// Opens a handler, whose name must be new.
    #[tactic(auto, unfolding(script_model::specs::Reading::open_handler), using(crate::proofs::Opened::frame_opened))]
    fn open_handler(&mut self, line: u32, name: Name) -> Result<(), ParseFault>
        requires { list_any (bytes_eq name) self.old.names ≡ false }
        ensures { Answers (λ opened. self.new) result (model.open_handler line name self.old) }
    {
        if self.names.len() as u64 >= LimitKind::Handlers.common() {
            return Err(ParseFault::ScriptLimit {
                kind: LimitKind::Handlers,
                line,
            });
        }
        add_name(&mut self.names, name)?;
        let commands = Vec::new(self.alloc);
        self.frames.push(Frame {
            line,
            opening: Opening::Handler(name),
            commands,
        })?;
        Ok(())
    }

    /// Closes the innermost block or handler, if one is open.
    #[tactic(auto, unfolding(script_model::specs::Reading::close_in), using(crate::proofs::Opened::close_is))]
    fn close(&mut self, end_line: u32) -> Result<(), AllocError>
        ensures { IfOk result (λ closed. self.new ≡ model.close_in self.old.frames end_line self.old) }
    {
        let Some(
            Frame {
                line,
                opening,
                commands,
            },
        ) = self.frames.pop()
        else {
            return Ok(());
        };
        let commands = CommandList::new(commands);
        let body = Body { commands, end_line };
        self.put_closed(line, opening, body)?;
        Ok(())
    }

    /// Adds a block that was closed as a command, or a handler as an item.
    #[tactic(auto, unfolding(script_model::specs::Reading::closed), using(crate::proofs::Opened::item_pushed))]
    fn put_closed(&mut self, line: u32, opening: Opening, body: Body) -> Result<(), AllocError>
        requires { OpeningAllowed opening }
        ensures { IfOk result (λ put. self.new ≡ model.closed (opening_of opening) line body.commands body.end_line self.old) }
    {
        match opening {
            Opening::Each => self.put(Command {
                line,
                what: What::Each(body),
            }),
            Opening::When(condition) => self.put(Command {
                line,
                what: What::When(condition, body),
            }),
            Opening::Handler(name) => {
                let Body { commands, end_line } = body;
                self.items.push(Item::Handler(Handler {
                    line,
                    name,
                    commands,
                    end_line,
                }))?;
                Ok(())
            }
        }
    }
}

/// Appends a name that isn't among these yet.
#[tactic(auto, using(crate::proofs::Reversed::name_added))]
fn add_name(names: &mut IndexSet<Name>, name: Name) -> Result<(), AllocError>
    requires { list_any (bytes_eq name) (reverse names.old.keys) ≡ false }
    ensures { IfOk result (λ added. reverse names.new.keys ≡ name ∷ reverse names.old.keys) }
{
    names.insert(name)?;
    Ok(())
}

/// Returns how many of these frames are blocks.
fn blocks_in(frames: &[Frame]) -> usize
    ensures { result ≡ count_by (λ frame. model.is_block (opening_of frame.opening)) frames.now }
{
    let mut count = 0;
    for frame in frames {
        if frame.opening.is_block() {
            count += 1;
        }
    }
    count
}
