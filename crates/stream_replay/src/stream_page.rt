//! The run of one page of a stream.

ghost use Rattle.std.specs.Prelude.{◌≡◌, true, [], OnOk, OnErr, Err};
ghost use Rattle.std.specs.List.{All};
ghost use Rattle.script_syntax.specs.Seen.{item_of};
ghost use Rattle.trace_runs.specs.Writes.{Wrote};
ghost use Rattle.trace_summary.specs.Counts.{IsTrace};
ghost use Rattle.stream_runs.specs.Alone.{IsOneLine};
ghost use Rattle.stream_runs.specs.PageRuns.{ending_at, item_line, turn_at};
ghost use Rattle.stream_runs.specs.StreamRuns.{named_text};
ghost use Rattle.stream_replay.specs.StreamStatuses.{is_faulty, met_limit};
ghost use Rattle.stream_replay.specs.StreamPages.{begins, seen_page, seen_running, seen_standing, IsReadyPage, IsReadyStanding, IsReadyToRun};

use crate::named::write_named;
use page_state::Page;
use run_replies::write_limit;
use script_items::lent::run_item;
use script_syntax::{Item, Script};
use std::alloc::Global;
use std::sync::ledger::Ledger;
use step_count::Steps;
use text_io::{Name, Sink};
use text_lines::GatherSink;
use trace_runs::RunFault;
use trace_text::line_ends_once;

/// A script running on a page of its own.
#[derive(Drop)]
pub struct Running {
    pub script: Script,
    pub page: Page,
    /// The number of items already run.
    pub next: usize,
    /// Whether it met a limit, so that it is no longer run.
    pub is_stopped: bool,
}

/// Why a script was rejected.
#[derive(Clone, Copy, Debug, PartialEq, Eq)]
pub enum Refusal {
    Faulty,
    LimitMet,
}

/// The state of a page of a stream.
#[derive(Drop)]
pub enum Standing {
    /// Its script was parsed: it is running, has ended, or was stopped.
    Opened(Running),
    /// Its script was rejected, so that there is no page.
    Refused(Refusal),
}

impl Standing {
    pub fn is_faulty(&self) -> bool
        ensures { result ≡ is_faulty (ending_at (seen_standing self.now)) }
    {
        match self {
            Standing::Refused(Refusal::Faulty) => true,
            Standing::Opened(_) | Standing::Refused(Refusal::LimitMet) => false,
        }
    }

    pub fn met_limit(&self) -> bool
        ensures { result ≡ met_limit (ending_at (seen_standing self.now)) }
    {
        match self {
            Standing::Opened(running) => running.is_stopped,
            Standing::Refused(refusal) => *refusal == Refusal::LimitMet,
        }
    }
}

/// The run of one page of a stream.
#[derive(Drop)]
pub struct StreamPage {
    pub name: Name,
    pub standing: Standing,
}

// Returns the line on which an item begins.
fn first_line(item: &Item) -> u32
    ensures { result ≡ item_line (item_of item.now) }
{
    match item {
        Item::Command(command) => command.line,
        Item::Tick { line, .. } => *line,
        Item::Handler(handler) => handler.line,
    }
}

// Whether the next item begins at a line.
fn next_begins(running: &Running, line: u32) -> bool
    ensures { result ≡ begins line running.now }
{
    if running.is_stopped {
        return false;
    }
    match running.script.items().get(running.next) {
        Some(item) => first_line(item) == line,
        None => false,
    }
}

// Runs the next item, and collects its lines, including that of a limit.
fn run_next<L: Ledger>(
    alloc: Global,
    running: &mut Running,
    line: u32,
    gathered: &mut GatherSink,
    steps: &mut Steps<L>,
) -> Result<(), RunFault>
    requires ready { IsReadyToRun running.old }
    requires begins { begins line running.old ≡ true }
    requires empty { gathered.old.taken ≡ [] }
    ensures lines { OnOk result (IsTrace gathered.new.taken (turn_at line (seen_running running.old)).lines) }
    ensures standing { OnOk result (seen_running running.new ≡ (turn_at line (seen_running running.old)).standing) }
    ensures ready { OnOk result (IsReadyToRun running.new) }
    ensures memory { OnErr result (result ≡ Err RunFault.Memory) }
{
    let item = &running.script.items()[running.next];
    match run_item(
        alloc,
        &mut running.page,
        &running.script,
        item,
        gathered,
        steps,
    ) {
        Ok(()) => {
            running.next += 1;
            Ok(())
        }
        Err(RunFault::Limit { kind, line, number }) => {
            running.is_stopped = true;
            match write_limit(alloc, kind, line, number, gathered) {
                Ok(()) => Ok(()),
                Err(_) => Err(RunFault::Memory),
            }
        }
        // A write to memory fails only if an allocation fails.
        Err(RunFault::Memory | RunFault::WriteFault) => Err(RunFault::Memory),
    }
}

// Runs the turn of a page in this state, and collects its lines.
fn turn<L: Ledger>(
    alloc: Global,
    standing: &mut Standing,
    line: u32,
    gathered: &mut GatherSink,
    steps: &mut Steps<L>,
) -> Result<(), RunFault>
    requires ready { IsReadyStanding standing.old }
    requires empty { gathered.old.taken ≡ [] }
    ensures lines { OnOk result (IsTrace gathered.new.taken (turn_at line (seen_standing standing.old)).lines) }
    ensures standing { OnOk result (seen_standing standing.new ≡ (turn_at line (seen_standing standing.old)).standing) }
    ensures ready { OnOk result (IsReadyStanding standing.new) }
    ensures memory { OnErr result (result ≡ Err RunFault.Memory) }
{
    let Standing::Opened(running) = standing else {
        return Ok(());
    };
    if !next_begins(running, line) {
        return Ok(());
    }
    run_next(alloc, running, line, gathered, steps)
}

/// Runs the turn of a page at a line of its script: runs the next item if it begins there, and writes its lines with the
/// page's name.
///
/// - `WriteFault` only if the sink's fault count rose in this call; a prefix of the lines was written.
/// - `Memory` if an allocation fails. No other error occurs.
pub fn take_turn<K: Sink, L: Ledger>(
    alloc: Global,
    page: &mut StreamPage,
    line: u32,
    sink: &mut K,
    steps: &mut Steps<L>,
) -> Result<(), RunFault>
    requires { IsReadyPage page.old }
    ensures wrote { Wrote result (K.taken sink.old) (K.taken sink.new) (K.faults sink.old) (K.faults sink.new)
        (named_text page.old.name (turn_at line (seen_page page.old).standing).lines) }
    ensures lines { OnOk result (All IsOneLine (turn_at line (seen_page page.old).standing).lines) }
    ensures page { OnOk result (seen_page page.new ≡ record { name = page.old.name; standing = (turn_at line (seen_page page.old).standing).standing }) }
    ensures ready { OnOk result (IsReadyPage page.new) }
{
    // the law by which each collected line ends in its only line feed
    line_ends_once();
    let mut gathered = GatherSink::new(alloc);
    turn(alloc, &mut page.standing, line, &mut gathered, steps)?;
    write_named(alloc, &page.name, gathered.taken(), sink)
}
