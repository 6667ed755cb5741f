//! Parsing of commands without a block, one function per command. If both versions read a command alike, the contract of its
//! function covers each version.

ghost use Rattle.std.specs.Prelude.{IfOk};
ghost use Rattle.script_syntax.specs.Acts.{Acts, ActsAlike};
ghost use Rattle.script_syntax.specs.Allowed.{ActionAllowed};
ghost use Rattle.script_syntax.specs.declared.heads.Verb.TheVariants as verb;

use crate::commands::Action;
use crate::faults::LineFault;
use crate::heads::Verb;
use crate::operands::IoMaking;
use crate::words::Words;
use px_units::{Point, Size};
use std::alloc::Global;
use text_io::Version;

/// Parses the operands of a command, which must take up all remaining words.
#[tactic(auto, using(crate::proofs::Alike::in_version))]
pub fn action(
    alloc: Global,
    version: Version,
    verb: Verb,
    words: &mut Words<'_>,
) -> Result<Action, LineFault>
    ensures value { Acts result version verb words.old }
    ensures allowed { IfOk result (λ action. ActionAllowed action) }
{
    match verb {
        Verb::Viewport => viewport(words),
        Verb::Ratio => ratio(words),
        Verb::Block => block(words),
        Verb::Image => image(words),
        Verb::Frame => frame(words),
        Verb::Append => append(words),
        Verb::Before => before(words),
        Verb::Remove => remove(words),
        Verb::Set => set(version, words),
        Verb::Grow => grow(words),
        Verb::Load => load(words),
        Verb::Ro => ro(words),
        Verb::RoObserve => ro_observe(version, words),
        Verb::RoUnobserve => ro_unobserve(words),
        Verb::RoDisconnect => ro_disconnect(words),
        Verb::Io => io(alloc, version, words),
        Verb::IoObserve => io_observe(words),
        Verb::IoUnobserve => io_unobserve(words),
        Verb::IoDisconnect => io_disconnect(words),
        Verb::IoTake => io_take(words),
        Verb::Listen => listen(words),
        Verb::Unlisten => unlisten(words),
        Verb::Media => media(alloc, words),
        Verb::Scroll => scroll(words),
        Verb::ScrollBy => scroll_by(words),
        Verb::Raf => raf(words),
        Verb::CancelRaf => cancel_raf(words),
        Verb::Timer => timer(words),
        Verb::ClearTimer => clear_timer(words),
        Verb::Post => post(words),
        Verb::Say => say(words),
        Verb::Read => read(words),
    }
}

/// `viewport WIDTH HEIGHT`
#[tactic(auto, unfolding(script_model::specs::Forms::made, crate::specs::Acts::Acts, crate::specs::Acts::ActsAlike))]
fn viewport(words: &mut Words<'_>) -> Result<Action, LineFault>
    ensures value { ActsAlike result verb.Viewport words.old }
    ensures allowed { IfOk result (λ action. ActionAllowed action) }
{
    let width = words.length()?;
    let height = words.length()?;
    words.end()?;
    Ok(Action::Viewport(Size {
        width: width.0,
        height: height.0,
    }))
}

/// `ratio PERCENT`
#[tactic(auto, unfolding(script_model::specs::Forms::made, crate::specs::Acts::Acts, crate::specs::Acts::ActsAlike))]
fn ratio(words: &mut Words<'_>) -> Result<Action, LineFault>
    ensures value { ActsAlike result verb.Ratio words.old }
    ensures allowed { IfOk result (λ action. ActionAllowed action) }
{
    let ratio = words.percent()?;
    words.end()?;
    Ok(Action::Ratio(ratio))
}

/// `block NAME DOCUMENT`
#[tactic(auto, unfolding(script_model::specs::Forms::made, crate::specs::Acts::Acts, crate::specs::Acts::ActsAlike))]
fn block(words: &mut Words<'_>) -> Result<Action, LineFault>
    ensures value { ActsAlike result verb.Block words.old }
    ensures allowed { IfOk result (λ action. ActionAllowed action) }
{
    let name = words.name()?;
    let document = words.name()?;
    words.end()?;
    Ok(Action::Block { name, document })
}

/// `image NAME DOCUMENT WIDTH HEIGHT`
#[tactic(auto, unfolding(script_model::specs::Forms::made, crate::specs::Acts::Acts, crate::specs::Acts::ActsAlike))]
fn image(words: &mut Words<'_>) -> Result<Action, LineFault>
    ensures value { ActsAlike result verb.Image words.old }
    ensures allowed { IfOk result (λ action. ActionAllowed action) }
{
    let name = words.name()?;
    let document = words.name()?;
    let width = words.length()?;
    let height = words.length()?;
    words.end()?;
    Ok(Action::Image {
        name,
        document,
        size: Size {
            width: width.0,
            height: height.0,
        },
    })
}

/// `frame NAME DOCUMENT INSIDE`
#[tactic(auto, unfolding(script_model::specs::Forms::made, crate::specs::Acts::Acts, crate::specs::Acts::ActsAlike))]
fn frame(words: &mut Words<'_>) -> Result<Action, LineFault>
    ensures value { ActsAlike result verb.Frame words.old }
    ensures allowed { IfOk result (λ action. ActionAllowed action) }
{
    let name = words.name()?;
    let document = words.name()?;
    let inside = words.name()?;
    words.end()?;
    Ok(Action::Frame {
        name,
        document,
        inside,
    })
}

/// `append PARENT NODE`
#[tactic(auto, unfolding(script_model::specs::Forms::made, crate::specs::Acts::Acts, crate::specs::Acts::ActsAlike))]
fn append(words: &mut Words<'_>) -> Result<Action, LineFault>
    ensures value { ActsAlike result verb.Append words.old }
    ensures allowed { IfOk result (λ action. ActionAllowed action) }
{
    let parent = words.node()?;
    let node = words.node()?;
    words.end()?;
    Ok(Action::Append { parent, node })
}

/// `before PARENT NODE SIBLING`
#[tactic(auto, unfolding(script_model::specs::Forms::made, crate::specs::Acts::Acts, crate::specs::Acts::ActsAlike))]
fn before(words: &mut Words<'_>) -> Result<Action, LineFault>
    ensures value { ActsAlike result verb.Before words.old }
    ensures allowed { IfOk result (λ action. ActionAllowed action) }
{
    let parent = words.node()?;
    let node = words.node()?;
    let sibling = words.node()?;
    words.end()?;
    Ok(Action::Before {
        parent,
        node,
        sibling,
    })
}

/// `remove NODE`
#[tactic(auto, unfolding(script_model::specs::Forms::made, crate::specs::Acts::Acts, crate::specs::Acts::ActsAlike))]
fn remove(words: &mut Words<'_>) -> Result<Action, LineFault>
    ensures value { ActsAlike result verb.Remove words.old }
    ensures allowed { IfOk result (λ action. ActionAllowed action) }
{
    let node = words.node()?;
    words.end()?;
    Ok(Action::Remove(node))
}

/// `set NODE PROPERTY VALUE`
#[tactic(auto, unfolding(script_model::specs::Forms::made, crate::specs::Acts::Acts))]
fn set(version: Version, words: &mut Words<'_>) -> Result<Action, LineFault>
    ensures value { Acts result version verb.Set words.old }
    ensures allowed { IfOk result (λ action. ActionAllowed action) }
{
    let node = words.node()?;
    let declaration = words.declaration(version)?;
    words.end()?;
    Ok(Action::Set { node, declaration })
}

/// `grow NODE AXIS BY`
#[tactic(auto, unfolding(script_model::specs::Forms::made, crate::specs::Acts::Acts, crate::specs::Acts::ActsAlike))]
fn grow(words: &mut Words<'_>) -> Result<Action, LineFault>
    ensures value { ActsAlike result verb.Grow words.old }
    ensures allowed { IfOk result (λ action. ActionAllowed action) }
{
    let node = words.node()?;
    let axis = words.axis()?;
    let by = words.signed()?;
    words.end()?;
    Ok(Action::Grow { node, axis, by })
}

/// `load NODE WIDTH HEIGHT`
#[tactic(auto, unfolding(script_model::specs::Forms::made, crate::specs::Acts::Acts, crate::specs::Acts::ActsAlike))]
fn load(words: &mut Words<'_>) -> Result<Action, LineFault>
    ensures value { ActsAlike result verb.Load words.old }
    ensures allowed { IfOk result (λ action. ActionAllowed action) }
{
    let node = words.node()?;
    let width = words.length()?;
    let height = words.length()?;
    words.end()?;
    Ok(Action::Load {
        node,
        size: Size {
            width: width.0,
            height: height.0,
        },
    })
}

/// `ro NAME DOCUMENT HANDLER`
#[tactic(auto, unfolding(script_model::specs::Forms::made, crate::specs::Acts::Acts, crate::specs::Acts::ActsAlike))]
fn ro(words: &mut Words<'_>) -> Result<Action, LineFault>
    ensures value { ActsAlike result verb.Ro words.old }
    ensures allowed { IfOk result (λ action. ActionAllowed action) }
{
    let name = words.name()?;
    let document = words.name()?;
    let handler = words.handler()?;
    words.end()?;
    Ok(Action::Ro {
        name,
        document,
        handler,
    })
}

/// `ro-observe OBSERVER NODE OBSERVED`
#[tactic(auto, unfolding(script_model::specs::Forms::made, crate::specs::Acts::Acts))]
fn ro_observe(version: Version, words: &mut Words<'_>) -> Result<Action, LineFault>
    ensures value { Acts result version verb.RoObserve words.old }
    ensures allowed { IfOk result (λ action. ActionAllowed action) }
{
    let observer = words.name()?;
    let node = words.node()?;
    let observed = words.box_kind(version)?;
    words.end()?;
    Ok(Action::RoObserve {
        observer,
        node,
        observed,
    })
}

/// `ro-unobserve OBSERVER NODE`
#[tactic(auto, unfolding(script_model::specs::Forms::made, crate::specs::Acts::Acts, crate::specs::Acts::ActsAlike))]
fn ro_unobserve(words: &mut Words<'_>) -> Result<Action, LineFault>
    ensures value { ActsAlike result verb.RoUnobserve words.old }
    ensures allowed { IfOk result (λ action. ActionAllowed action) }
{
    let observer = words.name()?;
    let node = words.node()?;
    words.end()?;
    Ok(Action::RoUnobserve { observer, node })
}

/// `ro-disconnect OBSERVER`
#[tactic(auto, unfolding(script_model::specs::Forms::made, crate::specs::Acts::Acts, crate::specs::Acts::ActsAlike))]
fn ro_disconnect(words: &mut Words<'_>) -> Result<Action, LineFault>
    ensures value { ActsAlike result verb.RoDisconnect words.old }
    ensures allowed { IfOk result (λ action. ActionAllowed action) }
{
    let observer = words.name()?;
    words.end()?;
    Ok(Action::RoDisconnect(observer))
}

/// `io NAME DOCUMENT HANDLER root ROOT margin WORD* scroll WORD* threshold NUMBER*`, where `scroll WORD*` is optional, and
/// only in scripts of the second version
#[tactic(auto, unfolding(script_model::specs::Forms::made, crate::specs::Acts::Acts))]
fn io(alloc: Global, version: Version, words: &mut Words<'_>) -> Result<Action, LineFault>
    ensures value { Acts result version verb.Io words.old }
    ensures allowed { IfOk result (λ action. ActionAllowed action) }
{
    let name = words.name()?;
    let document = words.name()?;
    let handler = words.handler()?;
    words.just(b"root")?;
    let root = words.root()?;
    words.just(b"margin")?;
    let (margin, scroll) = words.margins(alloc, version)?;
    words.just(b"threshold")?;
    let thresholds = words.numbers(alloc)?;
    words.end()?;
    Ok(Action::Io(IoMaking {
        name,
        document,
        handler,
        root,
        margin,
        thresholds,
        scroll,
    }))
}

/// `io-observe OBSERVER NODE`
#[tactic(auto, unfolding(script_model::specs::Forms::made, crate::specs::Acts::Acts, crate::specs::Acts::ActsAlike))]
fn io_observe(words: &mut Words<'_>) -> Result<Action, LineFault>
    ensures value { ActsAlike result verb.IoObserve words.old }
    ensures allowed { IfOk result (λ action. ActionAllowed action) }
{
    let observer = words.name()?;
    let node = words.node()?;
    words.end()?;
    Ok(Action::IoObserve { observer, node })
}

/// `io-unobserve OBSERVER NODE`
#[tactic(auto, unfolding(script_model::specs::Forms::made, crate::specs::Acts::Acts, crate::specs::Acts::ActsAlike))]
fn io_unobserve(words: &mut Words<'_>) -> Result<Action, LineFault>
    ensures value { ActsAlike result verb.IoUnobserve words.old }
    ensures allowed { IfOk result (λ action. ActionAllowed action) }
{
    let observer = words.name()?;
    let node = words.node()?;
    words.end()?;
    Ok(Action::IoUnobserve { observer, node })
}

/// `io-disconnect OBSERVER`
#[tactic(auto, unfolding(script_model::specs::Forms::made, crate::specs::Acts::Acts, crate::specs::Acts::ActsAlike))]
fn io_disconnect(words: &mut Words<'_>) -> Result<Action, LineFault>
    ensures value { ActsAlike result verb.IoDisconnect words.old }
    ensures allowed { IfOk result (λ action. ActionAllowed action) }
{
    let observer = words.name()?;
    words.end()?;
    Ok(Action::IoDisconnect(observer))
}

/// `io-take OBSERVER`
#[tactic(auto, unfolding(script_model::specs::Forms::made, crate::specs::Acts::Acts, crate::specs::Acts::ActsAlike))]
fn io_take(words: &mut Words<'_>) -> Result<Action, LineFault>
    ensures value { ActsAlike result verb.IoTake words.old }
    ensures allowed { IfOk result (λ action. ActionAllowed action) }
{
    let observer = words.name()?;
    words.end()?;
    Ok(Action::IoTake(observer))
}

/// `listen AIM EVENT HANDLER`
#[tactic(auto, unfolding(script_model::specs::Forms::made, crate::specs::Acts::Acts, crate::specs::Acts::ActsAlike))]
fn listen(words: &mut Words<'_>) -> Result<Action, LineFault>
    ensures value { ActsAlike result verb.Listen words.old }
    ensures allowed { IfOk result (λ action. ActionAllowed action) }
{
    let aim = words.aim()?;
    let event = words.event()?;
    let handler = words.name()?;
    words.end()?;
    Ok(Action::Listen {
        aim,
        event,
        handler,
    })
}

/// `unlisten AIM EVENT HANDLER`
#[tactic(auto, unfolding(script_model::specs::Forms::made, crate::specs::Acts::Acts, crate::specs::Acts::ActsAlike))]
fn unlisten(words: &mut Words<'_>) -> Result<Action, LineFault>
    ensures value { ActsAlike result verb.Unlisten words.old }
    ensures allowed { IfOk result (λ action. ActionAllowed action) }
{
    let aim = words.aim()?;
    let event = words.event()?;
    let handler = words.name()?;
    words.end()?;
    Ok(Action::Unlisten {
        aim,
        event,
        handler,
    })
}

/// `media NAME DOCUMENT QUERY`
#[tactic(auto, unfolding(script_model::specs::Forms::made, crate::specs::Acts::Acts, crate::specs::Acts::ActsAlike))]
fn media(alloc: Global, words: &mut Words<'_>) -> Result<Action, LineFault>
    ensures value { ActsAlike result verb.Media words.old }
    ensures allowed { IfOk result (λ action. ActionAllowed action) }
{
    let name = words.name()?;
    let document = words.name()?;
    let query = words.query(alloc)?;
    words.end()?;
    Ok(Action::Media {
        name,
        document,
        query,
    })
}

/// `scroll TARGET LEFT TOP`
#[tactic(auto, unfolding(script_model::specs::Forms::made, crate::specs::Acts::Acts, crate::specs::Acts::ActsAlike))]
fn scroll(words: &mut Words<'_>) -> Result<Action, LineFault>
    ensures value { ActsAlike result verb.Scroll words.old }
    ensures allowed { IfOk result (λ action. ActionAllowed action) }
{
    let target = words.node()?;
    let left = words.signed()?;
    let top = words.signed()?;
    words.end()?;
    Ok(Action::Scroll {
        target,
        to: Point {
            left: left.0,
            top: top.0,
        },
    })
}

/// `scroll-by TARGET LEFT TOP`
#[tactic(auto, unfolding(script_model::specs::Forms::made, crate::specs::Acts::Acts, crate::specs::Acts::ActsAlike))]
fn scroll_by(words: &mut Words<'_>) -> Result<Action, LineFault>
    ensures value { ActsAlike result verb.ScrollBy words.old }
    ensures allowed { IfOk result (λ action. ActionAllowed action) }
{
    let target = words.node()?;
    let left = words.signed()?;
    let top = words.signed()?;
    words.end()?;
    Ok(Action::ScrollBy {
        target,
        by: Point {
            left: left.0,
            top: top.0,
        },
    })
}

/// `raf DOCUMENT KEY HANDLER`
#[tactic(auto, unfolding(script_model::specs::Forms::made, crate::specs::Acts::Acts, crate::specs::Acts::ActsAlike))]
fn raf(words: &mut Words<'_>) -> Result<Action, LineFault>
    ensures value { ActsAlike result verb.Raf words.old }
    ensures allowed { IfOk result (λ action. ActionAllowed action) }
{
    let document = words.name()?;
    let key = words.name()?;
    let handler = words.name()?;
    words.end()?;
    Ok(Action::Raf {
        document,
        key,
        handler,
    })
}

/// `cancel-raf DOCUMENT KEY`
#[tactic(auto, unfolding(script_model::specs::Forms::made, crate::specs::Acts::Acts, crate::specs::Acts::ActsAlike))]
fn cancel_raf(words: &mut Words<'_>) -> Result<Action, LineFault>
    ensures value { ActsAlike result verb.CancelRaf words.old }
    ensures allowed { IfOk result (λ action. ActionAllowed action) }
{
    let document = words.name()?;
    let key = words.name()?;
    words.end()?;
    Ok(Action::CancelRaf { document, key })
}

/// `timer DOCUMENT KEY DELAY HANDLER`
#[tactic(auto, unfolding(script_model::specs::Forms::made, crate::specs::Acts::Acts, crate::specs::Acts::ActsAlike))]
fn timer(words: &mut Words<'_>) -> Result<Action, LineFault>
    ensures value { ActsAlike result verb.Timer words.old }
    ensures allowed { IfOk result (λ action. ActionAllowed action) }
{
    let document = words.name()?;
    let key = words.name()?;
    let delay = words.whole()?;
    let handler = words.name()?;
    words.end()?;
    Ok(Action::Timer {
        document,
        key,
        delay,
        handler,
    })
}

/// `clear-timer DOCUMENT KEY`
#[tactic(auto, unfolding(script_model::specs::Forms::made, crate::specs::Acts::Acts, crate::specs::Acts::ActsAlike))]
fn clear_timer(words: &mut Words<'_>) -> Result<Action, LineFault>
    ensures value { ActsAlike result verb.ClearTimer words.old }
    ensures allowed { IfOk result (λ action. ActionAllowed action) }
{
    let document = words.name()?;
    let key = words.name()?;
    words.end()?;
    Ok(Action::ClearTimer { document, key })
}

/// `post DOCUMENT HANDLER`
#[tactic(auto, unfolding(script_model::specs::Forms::made, crate::specs::Acts::Acts, crate::specs::Acts::ActsAlike))]
fn post(words: &mut Words<'_>) -> Result<Action, LineFault>
    ensures value { ActsAlike result verb.Post words.old }
    ensures allowed { IfOk result (λ action. ActionAllowed action) }
{
    let document = words.name()?;
    let handler = words.name()?;
    words.end()?;
    Ok(Action::Post { document, handler })
}

/// `say WORD`
#[tactic(auto, unfolding(script_model::specs::Forms::made, crate::specs::Acts::Acts, crate::specs::Acts::ActsAlike))]
fn say(words: &mut Words<'_>) -> Result<Action, LineFault>
    ensures value { ActsAlike result verb.Say words.old }
    ensures allowed { IfOk result (λ action. ActionAllowed action) }
{
    let word = words.name()?;
    words.end()?;
    Ok(Action::Say(word))
}

/// `read TARGET`
#[tactic(auto, unfolding(script_model::specs::Forms::made, crate::specs::Acts::Acts, crate::specs::Acts::ActsAlike))]
fn read(words: &mut Words<'_>) -> Result<Action, LineFault>
    ensures value { ActsAlike result verb.Read words.old }
    ensures allowed { IfOk result (λ action. ActionAllowed action) }
{
    let target = words.node()?;
    words.end()?;
    Ok(Action::Read(target))
}
