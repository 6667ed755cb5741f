//! Commands, lists of commands, handlers and items.

ghost use Rattle.std.specs.Prelude.{◌≡◌};
ghost use Rattle.std.specs.List.{All};

use crate::operands::{Aim, Condition, IoMaking, Operand};
use media_queries::Query;
use px_units::{BoxKind, Percent, Point, Px, Size};
use std::marker::Model;
use style_values::{Axis, Declaration};
use text_io::{EventKind, Name};

/// A command without a block. Operands have the names of the definition, in the order of the command's line. Lengths are in
/// units of 1/64 CSS pixel, at most 64,000,000; those of `Grow`, `Scroll` and `ScrollBy` may be negative.
#[derive(Drop)]
pub enum Action {
    /// `viewport`: sets the size of the outermost document's viewport.
    Viewport(Size),
    /// `ratio`: sets the device pixel ratio of the page, in hundredths of a percent from 0 to 1,000,000. Only the second
    /// version has it.
    Ratio(Percent),
    /// `block`: creates a block.
    Block {
        name: Name,
        document: Name,
    },
    /// `image`: creates an image with a natural size.
    Image {
        name: Name,
        document: Name,
        size: Size,
    },
    /// `frame`: creates a frame, with the document `inside` in it.
    Frame {
        name: Name,
        document: Name,
        inside: Name,
    },
    /// `append`: inserts a node as the last child of its parent.
    Append {
        parent: Operand,
        node: Operand,
    },
    /// `before`: inserts a node as a child of its parent, before a sibling.
    Before {
        parent: Operand,
        node: Operand,
        sibling: Operand,
    },
    /// `remove`: removes a node from its parent.
    Remove(Operand),
    /// `set`: sets a style property.
    Set {
        node: Operand,
        declaration: Declaration,
    },
    /// `grow`: adds to a width or a height.
    Grow {
        node: Operand,
        axis: Axis,
        by: Px,
    },
    /// `load`: sets the natural size of an image.
    Load {
        node: Operand,
        size: Size,
    },
    /// `ro`: creates a resize observer; `handler` is `None` for `-`.
    Ro {
        name: Name,
        document: Name,
        handler: Option<Name>,
    },
    /// `ro-observe`
    RoObserve {
        observer: Name,
        node: Operand,
        observed: BoxKind,
    },
    /// `ro-unobserve`
    RoUnobserve {
        observer: Name,
        node: Operand,
    },
    /// `ro-disconnect`
    RoDisconnect(Name),
    /// `io`: creates an intersection observer.
    Io(IoMaking),
    /// `io-observe`
    IoObserve {
        observer: Name,
        node: Operand,
    },
    /// `io-unobserve`
    IoUnobserve {
        observer: Name,
        node: Operand,
    },
    /// `io-disconnect`
    IoDisconnect(Name),
    /// `io-take`: takes the queued entries of an intersection observer.
    IoTake(Name),
    /// `listen`: registers a handler for an event.
    Listen {
        aim: Aim,
        event: EventKind,
        handler: Name,
    },
    /// `unlisten`
    Unlisten {
        aim: Aim,
        event: EventKind,
        handler: Name,
    },
    /// `media`: creates a media query list.
    Media {
        name: Name,
        document: Name,
        query: Query,
    },
    /// `scroll`: scrolls to a position.
    Scroll {
        target: Operand,
        to: Point,
    },
    /// `scroll-by`: scrolls by an offset.
    ScrollBy {
        target: Operand,
        by: Point,
    },
    /// `raf`: requests a frame callback, with a key.
    Raf {
        document: Name,
        key: Name,
        handler: Name,
    },
    /// `cancel-raf`
    CancelRaf {
        document: Name,
        key: Name,
    },
    /// `timer`: sets a timer that is due after `delay` milliseconds, at most 1,000,000,000,000.
    Timer {
        document: Name,
        key: Name,
        delay: u64,
        handler: Name,
    },
    /// `clear-timer`
    ClearTimer {
        document: Name,
        key: Name,
    },
    /// `post`: queues a task.
    Post {
        document: Name,
        handler: Name,
    },
    /// `say`: writes a word to the trace.
    Say(Name),
    /// `read`: writes the geometry of an element or a document to the trace.
    Read(Operand),
}

/// A command without a block, or a block with its commands. A `tick` is neither.
#[cycle(commands)]
#[derive(Drop)]
pub enum What {
    /// A command without a block.
    Act(Action),
    /// `each`: runs its commands for each entry of the callback.
    Each(Body),
    /// `when`: runs its commands if the condition holds.
    When(Condition, Body),
}

/// A command with its line number, from 1.
#[cycle(commands)]
#[derive(Drop)]
pub struct Command {
    pub line: u32,
    pub what: What,
}

/// The commands of a block, with the line number of its `end`.
#[cycle(commands)]
#[derive(Drop)]
pub struct Body {
    pub commands: CommandList,
    pub end_line: u32,
}

/// The commands of a block or a handler, in order. A contract sees the definition's block of commands.
#[cycle(commands)]
#[derive(Drop)]
pub struct CommandList {
    commands: Vec<Command>,
}

impl Model for CommandList {
    ghost use Rattle.script_model.specs.Syntax.{Block};
    ghost use Rattle.script_syntax.specs.Codes.{block_code};

    ghost Value = { Block };

    ghost coded = { block_code };

    ghost use Rattle.std.specs.List.{All};
    ghost use Rattle.script_syntax.specs.Seen.{block_of, block_size};
    ghost use Rattle.script_syntax.specs.Allowed.{IsAllowed};

    ghost view = { λ list. block_of list.commands.items };

    ghost invariant = { λ list. All IsAllowed list.commands.items };

    ghost size = { block_size };

    ghost use Rattle.script_syntax.specs.Sizes.{commands_are_smaller};

    ghost size_decreases = { λ list h. commands_are_smaller list };
}

impl CommandList {
    ghost use Rattle.script_syntax.specs.Seen.{block_of};
    ghost use Rattle.script_syntax.specs.Allowed.{IsAllowed};

    /// Creates the list of these commands.
    pub fn new(commands: Vec<Command>) -> CommandList
        requires { All IsAllowed commands.items }
        ensures { result ≡ block_of commands.items }
    {
        CommandList { commands }
    }

    /// Returns its commands.
    pub fn as_slice(&self) -> &[Command]
        ensures value { block_of result.now ≡ self.now }
        ensures allowed { All IsAllowed result.now }
    {
        self.commands.as_slice()
    }
}

/// A handler with its commands, and the line numbers of its first line and its `end`.
#[derive(Drop)]
pub struct Handler {
    pub line: u32,
    pub name: Name,
    pub commands: CommandList,
    pub end_line: u32,
}

/// A top-level item of a script.
#[derive(Drop)]
pub enum Item {
    /// A command outside handlers and blocks.
    Command(Command),
    /// `tick`: sets the clock, in milliseconds, at most 1,000,000,000,000, and updates the rendering.
    Tick { line: u32, time: u64 },
    Handler(Handler),
}
