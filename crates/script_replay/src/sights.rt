//! The boxes or hits of a page at the end of a tick of its script.

ghost use Rattle.std.specs.Prelude.{◌≡◌, ◌<◌, ◌++◌, ◌-◌, All, IfOk, OnOk, length, map};
ghost use Rattle.element_tree.specs.Links.{number as numbered};
ghost use Rattle.page_model.specs.Names.{element_text};
ghost use Rattle.page_model.specs.Outcome.{opening_world};
ghost use Rattle.box_inspector.specs.Boxes.{box_list};
ghost use Rattle.box_inspector.specs.BoxText.{boxes_text};
ghost use Rattle.box_inspector.specs.Ranges.{BoxReaches};
ghost use Rattle.hit_test.specs.Hits.{hits};
ghost use Rattle.run_replies.specs.Answers.{Tells};
ghost use Rattle.run_replies.specs.Replies.{done_with};
ghost use Rattle.script_replay.specs.ScriptReplies.{sight_reply, told_text};
ghost use Rattle.script_replay.specs.Sights.{hit_text, hits_text, sight_text, ticks_text};
ghost use Rattle.script_items.specs.Stops.{tick_count};

use crate::drop_sink::DropSink;
use box_inspector::{BoxLine, inspect, write_box};
use element_tree::NodeId;
use event_tables::EventTarget;
use hit_test::hits;
use page_state::{Label, Page};
use px_units::Point;
use run_replies::{Sight, Status, status_of, write_limit, write_lines};
use script_items::lent::play_to_tick;
use script_syntax::Script;
use std::alloc::{AllocError, Global};
use std::sync::ledger::Ledger;
use step_count::Steps;
use text_io::Sink;
use trace_runs::RunFault;
use word_model::push_decimal;

// Returns the line for a script that has fewer ticks.
fn ticks_line(alloc: Global, count: u64) -> Result<Vec<u8>, AllocError>
    ensures { IfOk result (λ line. line.items ≡ ticks_text count) }
{
    let mut line = Vec::from_slice(alloc, b"ticks ")?;
    push_decimal(&mut line, count as u128)?;
    line.push(b'\n')?;
    Ok(line)
}

// Returns the text of boxes.
fn text_of_boxes(alloc: Global, lines: &[BoxLine]) -> Result<Vec<u8>, AllocError>
    requires { All BoxReaches lines.now }
    ensures { IfOk result (λ text. text.items ≡ boxes_text lines.now) }
{
    let mut text = Vec::new(alloc);
    for line in lines {
        write_box(alloc, line, &mut text)?;
    }
    Ok(text)
}

// Appends the line of an element that is hit.
fn push_hit(page: &Page, node: NodeId, text: &mut Vec<u8>) -> Result<(), AllocError>
    requires { node.0 < length page.now.world.tree.elements }
    ensures { OnOk result (text.new.items ≡ text.old.items ++ hit_text (element_text page.now.world.names node.0)) }
{
    let name = page.label(Label::Target(EventTarget::Node(node)));
    text.extend_from_slice(b"hit ")?;
    text.extend_from_slice(name.bytes())?;
    text.push(b'\n')?;
    Ok(())
}

// Returns the text of the elements that are hit.
fn text_of_hits(alloc: Global, page: &Page, nodes: &[NodeId]) -> Result<Vec<u8>, AllocError>
    requires { All (λ node. node.0 < length page.now.world.tree.elements) nodes.now }
    ensures { IfOk result (λ text. text.items ≡ hits_text (map (element_text page.now.world.names) (map numbered nodes.now))) }
{
    let mut text = Vec::new(alloc);
    if nodes.is_empty() {
        text.extend_from_slice(b"miss\n")?;
        return Ok(text);
    }
    for node in nodes {
        push_hit(page, *node, &mut text)?;
    }
    Ok(text)
}

fn boxes_seen<L: Ledger>(
    alloc: Global,
    page: &mut Page,
    steps: &mut Steps<L>,
) -> Result<Vec<u8>, AllocError>
    ensures { IfOk result (λ text. text.items ≡ boxes_text (box_list page.old.world)) }
{
    let lines = inspect(alloc, page, steps)?;
    text_of_boxes(alloc, &lines)
}

fn hits_seen<L: Ledger>(
    alloc: Global,
    page: &mut Page,
    at: Point,
    steps: &mut Steps<L>,
) -> Result<Vec<u8>, AllocError>
    ensures { IfOk result (λ text. text.items ≡ hits_text (map (element_text page.old.world.names) (hits page.old.world at))) }
{
    let found = hits(alloc, page, at, steps)?;
    text_of_hits(alloc, page, &found)
}

fn seen<L: Ledger>(
    alloc: Global,
    page: &mut Page,
    sight: Sight,
    steps: &mut Steps<L>,
) -> Result<Vec<u8>, AllocError>
    ensures { IfOk result (λ text. text.items ≡ sight_text sight page.old.world) }
{
    match sight {
        Sight::Boxes => boxes_seen(alloc, page, steps),
        Sight::Hits(at) => hits_seen(alloc, page, at, steps),
    }
}

// Returns the text for a page at the end of the tick, or the line with the number of its ticks if `lacking` isn't 0.
fn told<L: Ledger>(
    alloc: Global,
    page: &mut Page,
    sight: Sight,
    number: u64,
    lacking: u64,
    script: &Script,
    steps: &mut Steps<L>,
) -> Result<Vec<u8>, AllocError>
    requires { lacking ≡ number - tick_count script.now.items }
    ensures { IfOk result (λ text. text.items ≡ told_text sight number script.now.items page.old.world) }
{
    if lacking == 0 {
        return seen(alloc, page, sight, steps);
    }
    ticks_line(alloc, number - lacking)
}

// The same, written.
fn write_told<K: Sink, L: Ledger>(
    alloc: Global,
    page: &mut Page,
    sight: Sight,
    number: u64,
    lacking: u64,
    script: &Script,
    sink: &mut K,
    steps: &mut Steps<L>,
) -> Status
    requires { lacking ≡ number - tick_count script.now.items }
    ensures { Tells result (done_with (told_text sight number script.now.items page.old.world)) (K.taken sink.old) (K.taken sink.new) (K.faults sink.old) (K.faults sink.new) }
{
    match told(alloc, page, sight, number, lacking, script, steps) {
        Ok(text) => write_lines(&text, sink),
        Err(_) => Status::NoMemory,
    }
}

// The same, on a new page. The trace is dropped line by line.
fn write_sight_on<K: Sink, L: Ledger>(
    alloc: Global,
    page: &mut Page,
    sight: Sight,
    number: u64,
    script: &Script,
    sink: &mut K,
    steps: &mut Steps<L>,
) -> Status
    requires { page.old.world ≡ opening_world script.now.version }
    ensures { Tells result (sight_reply sight number script.now) (K.taken sink.old) (K.taken sink.new) (K.faults sink.old) (K.faults sink.new) }
{
    let mut dropped = DropSink {};
    match play_to_tick(alloc, page, script, number, &mut dropped, steps) {
        Ok(lacking) => write_told(alloc, page, sight, number, lacking, script, sink, steps),
        Err(RunFault::Limit { kind, line, number }) => {
            let wrote = write_limit(alloc, kind, line, number, sink);
            status_of(wrote, Status::Limit)
        }
        // No write to this sink fails.
        Err(RunFault::Memory | RunFault::WriteFault) => Status::NoMemory,
    }
}

/// Runs a script on a page of its own until the end of the tick with this number, counted from 1, and writes the boxes or
/// hits of the page then, or how many ticks the script has if it has fewer, or the line of a limit that is met before.
pub fn write_sight<K: Sink, L: Ledger>(
    alloc: Global,
    sight: Sight,
    number: u64,
    script: &Script,
    sink: &mut K,
    steps: &mut Steps<L>,
) -> Status
    ensures { Tells result (sight_reply sight number script.now) (K.taken sink.old) (K.taken sink.new) (K.faults sink.old) (K.faults sink.new) }
{
    match Page::new(alloc, script.version()) {
        Ok(mut page) => write_sight_on(alloc, &mut page, sight, number, script, sink, steps),
        Err(_) => Status::NoMemory,
    }
}
