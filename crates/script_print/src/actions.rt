//! Printing of commands without a block, one function per command.
#![tactic(auto, unfolding(crate::specs::Actions::Prints))]

ghost use Rattle.script_syntax.specs.declared.commands.Action.TheVariants as action;
ghost use Rattle.script_print.specs.Actions.{Prints};

use crate::operands::Entry::{
    Aimed, Declared, Dimension, Event, Handler, Length, Node, Observed, Percentage, Root, Signed,
    Whole, Word,
};
use crate::operands::{
    push_line, push_margins, push_phrase, push_query, push_thresholds, push_word,
};
use media_queries::Query;
use px_units::{BoxKind, Percent, Point, Px, Size};
use script_syntax::{Action, Aim, IoMaking, Operand};
use std::alloc::AllocError;
use style_values::{Axis, Declaration};
use text_io::{EventKind, Name};

/// Appends the line of a command without a block.
#[tactic(auto)]
pub fn push_action(into: &mut Vec<u8>, action: &Action) -> Result<(), AllocError>
    ensures { Prints result into.old.items into.new.items action.now }
{
    match action {
        Action::Viewport(size) => viewport(into, *size),
        Action::Ratio(percent) => ratio(into, *percent),
        Action::Block { name, document } => block(into, *name, *document),
        Action::Image {
            name,
            document,
            size,
        } => image(into, *name, *document, *size),
        Action::Frame {
            name,
            document,
            inside,
        } => frame(into, *name, *document, *inside),
        Action::Append { parent, node } => append(into, *parent, *node),
        Action::Before {
            parent,
            node,
            sibling,
        } => before(into, *parent, *node, *sibling),
        Action::Remove(node) => remove(into, *node),
        Action::Set { node, declaration } => set(into, *node, *declaration),
        Action::Grow { node, axis, by } => grow(into, *node, *axis, *by),
        Action::Load { node, size } => load(into, *node, *size),
        Action::Ro {
            name,
            document,
            handler,
        } => ro(into, *name, *document, *handler),
        Action::RoObserve {
            observer,
            node,
            observed,
        } => ro_observe(into, *observer, *node, *observed),
        Action::RoUnobserve { observer, node } => ro_unobserve(into, *observer, *node),
        Action::RoDisconnect(observer) => ro_disconnect(into, *observer),
        Action::Io(making) => io(into, making),
        Action::IoObserve { observer, node } => io_observe(into, *observer, *node),
        Action::IoUnobserve { observer, node } => io_unobserve(into, *observer, *node),
        Action::IoDisconnect(observer) => io_disconnect(into, *observer),
        Action::IoTake(observer) => io_take(into, *observer),
        Action::Listen {
            aim,
            event,
            handler,
        } => listen(into, *aim, *event, *handler),
        Action::Unlisten {
            aim,
            event,
            handler,
        } => unlisten(into, *aim, *event, *handler),
        Action::Media {
            name,
            document,
            query,
        } => media(into, *name, *document, query),
        Action::Scroll { target, to } => scroll(into, *target, *to),
        Action::ScrollBy { target, by } => scroll_by(into, *target, *by),
        Action::Raf {
            document,
            key,
            handler,
        } => raf(into, *document, *key, *handler),
        Action::CancelRaf { document, key } => cancel_raf(into, *document, *key),
        Action::Timer {
            document,
            key,
            delay,
            handler,
        } => timer(into, *document, *key, *delay, *handler),
        Action::ClearTimer { document, key } => clear_timer(into, *document, *key),
        Action::Post { document, handler } => post(into, *document, *handler),
        Action::Say(word) => say(into, *word),
        Action::Read(node) => read(into, *node),
    }
}

/// `viewport WIDTH HEIGHT`
fn viewport(into: &mut Vec<u8>, size: Size) -> Result<(), AllocError>
    ensures { Prints result into.old.items into.new.items (action.Viewport size) }
{
    push_line(
        into,
        b"viewport",
        &[Length(size.width), Length(size.height)],
    )
}

/// `ratio PERCENT`
fn ratio(into: &mut Vec<u8>, ratio: Percent) -> Result<(), AllocError>
    ensures { Prints result into.old.items into.new.items (action.Ratio ratio) }
{
    push_line(into, b"ratio", &[Percentage(ratio)])
}

/// `block NAME DOCUMENT`
fn block(into: &mut Vec<u8>, name: Name, document: Name) -> Result<(), AllocError>
    ensures { Prints result into.old.items into.new.items (action.Block name document) }
{
    push_line(into, b"block", &[Word(name), Word(document)])
}

/// `image NAME DOCUMENT WIDTH HEIGHT`
fn image(into: &mut Vec<u8>, name: Name, document: Name, size: Size) -> Result<(), AllocError>
    ensures { Prints result into.old.items into.new.items (action.Image name document size) }
{
    push_line(
        into,
        b"image",
        &[
            Word(name),
            Word(document),
            Length(size.width),
            Length(size.height),
        ],
    )
}

/// `frame NAME DOCUMENT INSIDE`
fn frame(into: &mut Vec<u8>, name: Name, document: Name, inside: Name) -> Result<(), AllocError>
    ensures { Prints result into.old.items into.new.items (action.Frame name document inside) }
{
    push_line(into, b"frame", &[Word(name), Word(document), Word(inside)])
}

/// `append PARENT NODE`
fn append(into: &mut Vec<u8>, parent: Operand, node: Operand) -> Result<(), AllocError>
    ensures { Prints result into.old.items into.new.items (action.Append parent node) }
{
    push_line(into, b"append", &[Node(parent), Node(node)])
}

/// `before PARENT NODE SIBLING`
fn before(
    into: &mut Vec<u8>,
    parent: Operand,
    node: Operand,
    sibling: Operand,
) -> Result<(), AllocError>
    ensures { Prints result into.old.items into.new.items (action.Before parent node sibling) }
{
    push_line(into, b"before", &[Node(parent), Node(node), Node(sibling)])
}

/// `remove NODE`
fn remove(into: &mut Vec<u8>, node: Operand) -> Result<(), AllocError>
    ensures { Prints result into.old.items into.new.items (action.Remove node) }
{
    push_line(into, b"remove", &[Node(node)])
}

/// `set NODE PROPERTY VALUE`
fn set(into: &mut Vec<u8>, node: Operand, declaration: Declaration) -> Result<(), AllocError>
    ensures { Prints result into.old.items into.new.items (action.Set node declaration) }
{
    push_line(into, b"set", &[Node(node), Declared(declaration)])
}

/// `grow NODE AXIS BY`
fn grow(into: &mut Vec<u8>, node: Operand, axis: Axis, by: Px) -> Result<(), AllocError>
    ensures { Prints result into.old.items into.new.items (action.Grow node axis by) }
{
    push_line(into, b"grow", &[Node(node), Dimension(axis), Signed(by.0)])
}

/// `load NODE WIDTH HEIGHT`
fn load(into: &mut Vec<u8>, node: Operand, size: Size) -> Result<(), AllocError>
    ensures { Prints result into.old.items into.new.items (action.Load node size) }
{
    push_line(
        into,
        b"load",
        &[Node(node), Length(size.width), Length(size.height)],
    )
}

/// `ro NAME DOCUMENT HANDLER`
fn ro(
    into: &mut Vec<u8>,
    name: Name,
    document: Name,
    handler: Option<Name>,
) -> Result<(), AllocError>
    ensures { Prints result into.old.items into.new.items (action.Ro name document handler) }
{
    push_line(into, b"ro", &[Word(name), Word(document), Handler(handler)])
}

/// `ro-observe OBSERVER NODE OBSERVED`
fn ro_observe(
    into: &mut Vec<u8>,
    observer: Name,
    node: Operand,
    observed: BoxKind,
) -> Result<(), AllocError>
    ensures { Prints result into.old.items into.new.items (action.RoObserve observer node observed) }
{
    push_line(
        into,
        b"ro-observe",
        &[Word(observer), Node(node), Observed(observed)],
    )
}

/// `ro-unobserve OBSERVER NODE`
fn ro_unobserve(into: &mut Vec<u8>, observer: Name, node: Operand) -> Result<(), AllocError>
    ensures { Prints result into.old.items into.new.items (action.RoUnobserve observer node) }
{
    push_line(into, b"ro-unobserve", &[Word(observer), Node(node)])
}

/// `ro-disconnect OBSERVER`
fn ro_disconnect(into: &mut Vec<u8>, observer: Name) -> Result<(), AllocError>
    ensures { Prints result into.old.items into.new.items (action.RoDisconnect observer) }
{
    push_line(into, b"ro-disconnect", &[Word(observer)])
}

/// `io NAME DOCUMENT HANDLER root ROOT margin WORD* scroll WORD* threshold NUMBER*`, without `scroll` if there is no scroll
/// margin
fn io(into: &mut Vec<u8>, making: &IoMaking) -> Result<(), AllocError>
    ensures { Prints result into.old.items into.new.items (action.Io making.now) }
{
    push_line(
        into,
        b"io",
        &[
            Word(making.name),
            Word(making.document),
            Handler(making.handler),
        ],
    )?;
    push_phrase(into, b"root", &[Root(making.root)])?;
    push_word(into, b"margin")?;
    push_margins(into, making)?;
    push_word(into, b"threshold")?;
    push_thresholds(into, &making.thresholds)?;
    Ok(())
}

/// `io-observe OBSERVER NODE`
fn io_observe(into: &mut Vec<u8>, observer: Name, node: Operand) -> Result<(), AllocError>
    ensures { Prints result into.old.items into.new.items (action.IoObserve observer node) }
{
    push_line(into, b"io-observe", &[Word(observer), Node(node)])
}

/// `io-unobserve OBSERVER NODE`
fn io_unobserve(into: &mut Vec<u8>, observer: Name, node: Operand) -> Result<(), AllocError>
    ensures { Prints result into.old.items into.new.items (action.IoUnobserve observer node) }
{
    push_line(into, b"io-unobserve", &[Word(observer), Node(node)])
}

/// `io-disconnect OBSERVER`
fn io_disconnect(into: &mut Vec<u8>, observer: Name) -> Result<(), AllocError>
    ensures { Prints result into.old.items into.new.items (action.IoDisconnect observer) }
{
    push_line(into, b"io-disconnect", &[Word(observer)])
}

/// `io-take OBSERVER`
fn io_take(into: &mut Vec<u8>, observer: Name) -> Result<(), AllocError>
    ensures { Prints result into.old.items into.new.items (action.IoTake observer) }
{
    push_line(into, b"io-take", &[Word(observer)])
}

/// `listen AIM EVENT HANDLER`
fn listen(into: &mut Vec<u8>, aim: Aim, event: EventKind, handler: Name) -> Result<(), AllocError>
    ensures { Prints result into.old.items into.new.items (action.Listen aim event handler) }
{
    push_line(into, b"listen", &[Aimed(aim), Event(event), Word(handler)])
}

/// `unlisten AIM EVENT HANDLER`
fn unlisten(into: &mut Vec<u8>, aim: Aim, event: EventKind, handler: Name) -> Result<(), AllocError>
    ensures { Prints result into.old.items into.new.items (action.Unlisten aim event handler) }
{
    push_line(
        into,
        b"unlisten",
        &[Aimed(aim), Event(event), Word(handler)],
    )
}

/// `media NAME DOCUMENT QUERY`
fn media(into: &mut Vec<u8>, name: Name, document: Name, query: &Query) -> Result<(), AllocError>
    ensures { Prints result into.old.items into.new.items (action.Media name document query.now) }
{
    push_line(into, b"media", &[Word(name), Word(document)])?;
    push_query(into, query)?;
    Ok(())
}

/// `scroll NODE LEFT TOP`
fn scroll(into: &mut Vec<u8>, node: Operand, to: Point) -> Result<(), AllocError>
    ensures { Prints result into.old.items into.new.items (action.Scroll node to) }
{
    push_line(
        into,
        b"scroll",
        &[Node(node), Signed(to.left), Signed(to.top)],
    )
}

/// `scroll-by NODE LEFT TOP`
fn scroll_by(into: &mut Vec<u8>, node: Operand, by: Point) -> Result<(), AllocError>
    ensures { Prints result into.old.items into.new.items (action.ScrollBy node by) }
{
    push_line(
        into,
        b"scroll-by",
        &[Node(node), Signed(by.left), Signed(by.top)],
    )
}

/// `raf DOCUMENT KEY HANDLER`
fn raf(into: &mut Vec<u8>, document: Name, key: Name, handler: Name) -> Result<(), AllocError>
    ensures { Prints result into.old.items into.new.items (action.Raf document key handler) }
{
    push_line(into, b"raf", &[Word(document), Word(key), Word(handler)])
}

/// `cancel-raf DOCUMENT KEY`
fn cancel_raf(into: &mut Vec<u8>, document: Name, key: Name) -> Result<(), AllocError>
    ensures { Prints result into.old.items into.new.items (action.CancelRaf document key) }
{
    push_line(into, b"cancel-raf", &[Word(document), Word(key)])
}

/// `timer DOCUMENT KEY DELAY HANDLER`
fn timer(
    into: &mut Vec<u8>,
    document: Name,
    key: Name,
    delay: u64,
    handler: Name,
) -> Result<(), AllocError>
    ensures { Prints result into.old.items into.new.items (action.Timer document key delay handler) }
{
    push_line(
        into,
        b"timer",
        &[Word(document), Word(key), Whole(delay), Word(handler)],
    )
}

/// `clear-timer DOCUMENT KEY`
fn clear_timer(into: &mut Vec<u8>, document: Name, key: Name) -> Result<(), AllocError>
    ensures { Prints result into.old.items into.new.items (action.ClearTimer document key) }
{
    push_line(into, b"clear-timer", &[Word(document), Word(key)])
}

/// `post DOCUMENT HANDLER`
fn post(into: &mut Vec<u8>, document: Name, handler: Name) -> Result<(), AllocError>
    ensures { Prints result into.old.items into.new.items (action.Post document handler) }
{
    push_line(into, b"post", &[Word(document), Word(handler)])
}

/// `say WORD`
fn say(into: &mut Vec<u8>, word: Name) -> Result<(), AllocError>
    ensures { Prints result into.old.items into.new.items (action.Say word) }
{
    push_line(into, b"say", &[Word(word)])
}

/// `read NODE`
fn read(into: &mut Vec<u8>, node: Operand) -> Result<(), AllocError>
    ensures { Prints result into.old.items into.new.items (action.Read node) }
{
    push_line(into, b"read", &[Node(node)])
}
