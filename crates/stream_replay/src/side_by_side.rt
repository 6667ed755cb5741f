//! Running several pages of one stream side by side.

ghost use Rattle.std.specs.Io.KnownBytes.{Appends};
ghost use Rattle.std.specs.Prelude.{ℕ, List, Option, ◌≡◌, ◌≤◌, ◌++◌, ◌∷◌, ◌⊎◌, [], drop, length, map, slice_range, take, ◌<◌, true, Some, Ok, Err, IfOk, IfSome, OnOk, OnErr};
ghost use Rattle.std.specs.List.{All, list_any};
ghost use Rattle.text_io.specs.Streams.{Rose};
ghost use Rattle.script_model.specs.Reading.{reading};
ghost use Rattle.trace_runs.specs.Writes.{Wrote};
ghost use Rattle.trace_text.specs.Ranges.{HasReach};
ghost use Rattle.trace_text.specs.Seen.{seen_line};
ghost use Rattle.page_stream.specs.Pages.{pages_of};
ghost use Rattle.page_stream.specs.Parts.{script_of};
ghost use Rattle.run_replies.specs.Answers.{Ends, IsTaken, Tells};
ghost use Rattle.run_replies.specs.Statuses.{is_whole};
ghost use Rattle.stream_runs.specs.Alone.{IsOneLine, TellsAlone, lines_from, opening_lines, stream_lines};
ghost use Rattle.stream_runs.specs.PageRuns.{ending_at, opened, refused_lines};
ghost use Rattle.stream_replay.specs.StreamReplies.{pages_reply, run_reply, IsolatesPages};
ghost use Rattle.stream_runs.specs.StreamRuns.{named_text, parts_run, refused_text, scripts_of, stream_opened, stream_run};
ghost use Rattle.stream_replay.specs.StreamStatuses.{is_faulty, met_limit, stream_status};
ghost use Rattle.stream_replay.specs.declared.stream_page.Standing.TheVariants.{Refused};
ghost use Rattle.stream_replay.specs.StreamPages.{seen_page, seen_standing, IsReadyPage};

use crate::named::write_named;
use crate::stream_page::{Refusal, Running, Standing, StreamPage, take_turn};
use page_state::Page;
use page_stream::{Part, Stream, StreamFault, split};
use run_replies::{Status, meet_limit, refuse_at, status_of};
use script_source::ScriptText;
use script_syntax::{ParseFault, Script};
use std::alloc::{AllocError, Global};
use std::sync::ledger::Ledger;
use step_count::Steps;
use stream_runs::laws::{
    each_page_is_as_if_it_ran_alone, lines_of_the_stream_are_those_of_its_pages,
};
use text_io::{LimitKind, Name, Sink, Source, TextFault, read_all};
use text_lines::GatherSink;
use trace_runs::{RunFault, write_one};
use trace_text::{TraceLine, line_ends_once, value_is_a_line};

/// The maximum number of bytes of a stream.
const MOST_STREAM: usize = 16_777_216;

/// The maximum number of pages of a stream.
const MOST_PAGES: usize = 8;

// Adds a page whose script was parsed.
fn add_page(
    alloc: Global,
    name: Name,
    script: Script,
    pages: &mut Vec<StreamPage>,
) -> Result<(), RunFault>
    ensures ok { OnOk result (map seen_page pages.new.items ≡ map seen_page pages.old.items ++ (opened (record { name = name; read = Ok script }) ∷ [])) }
    ensures ready { OnOk result (All IsReadyPage pages.old.items → All IsReadyPage pages.new.items) }
    ensures err { OnErr result (result ≡ Err RunFault.Memory) }
{
    // Capacity is reserved first, so that no page has to be dropped if that fails.
    let Ok(()) = pages.reserve(1) else {
        return Err(RunFault::Memory);
    };
    let Ok(page) = Page::new(alloc, script.version()) else {
        return Err(RunFault::Memory);
    };
    let running = Running {
        script,
        page,
        next: 0,
        is_stopped: false,
    };
    pages.push_reserved(StreamPage {
        name,
        standing: Standing::Opened(running),
    });
    Ok(())
}

// Adds a page whose script was rejected, and writes the line that says so.
fn refuse_page<K: Sink>(
    alloc: Global,
    name: Name,
    line: &TraceLine,
    refusal: Refusal,
    pages: &mut Vec<StreamPage>,
    sink: &mut K,
) -> Result<(), RunFault>
    requires { HasReach (seen_line line.now) }
    ensures wrote { Wrote result (K.taken sink.old) (K.taken sink.new) (K.faults sink.old) (K.faults sink.new) (named_text name (seen_line line.now ∷ [])) }
    ensures pages { OnOk result (pages.new.items ≡ pages.old.items ++ (record { name = name; standing = Refused refusal } ∷ [])) }
{
    let Ok(()) = pages.reserve(1) else {
        return Err(RunFault::Memory);
    };
    pages.push_reserved(StreamPage {
        name,
        standing: Standing::Refused(refusal),
    });
    let mut gathered = GatherSink::new(alloc);
    let Ok(()) = write_one(alloc, line, &mut gathered) else {
        return Err(RunFault::Memory);
    };
    write_named(alloc, &name, gathered.taken(), sink)
}

// The laws by which a line ends in its only line feed.
fn ends_once(line: &TraceLine)
    requires { HasReach (seen_line line.now) }
    ensures { IsOneLine (seen_line line.now) }
{
    value_is_a_line(line);
    line_ends_once();
}

// Opens a page with the text of its script.
fn open_page<K: Sink>(
    alloc: Global,
    name: Name,
    text: ScriptText,
    pages: &mut Vec<StreamPage>,
    sink: &mut K,
) -> Result<(), RunFault>
    ensures wrote { Wrote result (K.taken sink.old) (K.taken sink.new) (K.faults sink.old) (K.faults sink.new) (refused_text (record { name = name; read = reading text })) }
    ensures lines { OnOk result (All IsOneLine (refused_lines (reading text))) }
    ensures pages { OnOk result (map seen_page pages.new.items ≡ map seen_page pages.old.items ++ (opened (record { name = name; read = reading text }) ∷ [])) }
    ensures ready { OnOk result (All IsReadyPage pages.old.items → All IsReadyPage pages.new.items) }
{
    match text.parse(alloc) {
        Ok(script) => add_page(alloc, name, script, pages),
        Err(ParseFault::Syntax { line, column }) => {
            let line = TraceLine::Syntax(line, column);
            ends_once(&line);
            refuse_page(alloc, name, &line, Refusal::Faulty, pages, sink)
        }
        Err(ParseFault::ScriptLimit { kind, line }) => {
            let line = TraceLine::Limit(kind, line, kind.common());
            ends_once(&line);
            refuse_page(alloc, name, &line, Refusal::LimitMet, pages, sink)
        }
        Err(ParseFault::Memory) => Err(RunFault::Memory),
    }
}

// Appends a line of the source to the text of a page's script, if it belongs to that page.
fn feed_part(
    text: &mut ScriptText,
    source: &[u8],
    part: &Part,
    page: usize,
) -> Result<(), AllocError>
    requires from { part.now.from ≤ part.now.to }
    requires to { part.now.to ≤ length source.now }
    ensures own { OnOk result (part.now.page ≡ page → text.new ≡ take 16777217 (text.old ++ slice_range source.now part.now.from part.now.to)) }
    ensures other { OnOk result ((part.now.page ≡ page → ⊥) → text.new ≡ text.old) }
{
    if part.page != page {
        return Ok(());
    }
    text.feed(&source[part.from..part.to])
}

// Returns the text of a page's script, of which only the bytes that are looked at are kept. No line is copied but into it.
fn text_of(alloc: Global, stream: &Stream<'_>, page: usize) -> Result<ScriptText, RunFault>
    requires { page < length (pages_of stream.now) }
    ensures text { IfOk result (λ text. reading text ≡ reading (script_of page stream.now)) }
    ensures memory { OnErr result (result ≡ Err RunFault.Memory) }
{
    let source = stream.source();
    let parts = stream.parts();
    let mut text = ScriptText::new(alloc);
    for part in parts {
        let Ok(()) = feed_part(&mut text, source, part, page) else {
            return Err(RunFault::Memory);
        };
    }
    Ok(text)
}

// Opens the pages of a stream, before the first item of any of them is run.
fn open_pages<K: Sink>(
    alloc: Global,
    stream: &Stream<'_>,
    pages: &mut Vec<StreamPage>,
    sink: &mut K,
) -> Result<(), RunFault>
    requires { pages.old.items ≡ [] }
    ensures wrote { Wrote result (K.taken sink.old) (K.taken sink.new) (K.faults sink.old) (K.faults sink.new) (stream_opened (scripts_of stream.now)).text }
    ensures lines { OnOk result (All IsOneLine (opening_lines (scripts_of stream.now))) }
    ensures pages { OnOk result (map seen_page pages.new.items ≡ (stream_opened (scripts_of stream.now)).pages) }
    ensures ready { OnOk result (All IsReadyPage pages.new.items) }
{
    let names = stream.pages();
    for place in 0..names.len() {
        let text = text_of(alloc, stream, place)?;
        open_page(alloc, names[place], text, pages, sink)?;
    }
    Ok(())
}

// Runs the lines of a stream, one after another: each is a turn of its page.
fn run_parts<K: Sink, L: Ledger>(
    alloc: Global,
    pages: &mut [StreamPage],
    parts: &[Part],
    sink: &mut K,
    steps: &mut Steps<L>,
) -> Result<(), RunFault>
    requires { All IsReadyPage pages.old }
    ensures wrote { Wrote result (K.taken sink.old) (K.taken sink.new) (K.faults sink.old) (K.faults sink.new) (parts_run (map seen_page pages.old) parts.now).text }
    ensures lines { OnOk result (All IsOneLine (lines_from (map seen_page pages.old) parts.now)) }
    ensures pages { OnOk result (map seen_page pages.new ≡ (parts_run (map seen_page pages.old) parts.now).pages) }
{
    for part in parts {
        if part.page < pages.len() {
            let page = &mut pages[part.page];
            take_turn(alloc, page, part.line, sink, steps)?;
        }
    }
    Ok(())
}

fn any_faulty(pages: &[StreamPage]) -> bool
    ensures { result ≡ list_any (λ page. is_faulty (ending_at (seen_standing page.standing))) pages.now }
{
    pages.iter().any(|page| page.standing.is_faulty())
}

fn any_limited(pages: &[StreamPage]) -> bool
    ensures { result ≡ list_any (λ page. met_limit (ending_at (seen_standing page.standing))) pages.now }
{
    pages.iter().any(|page| page.standing.met_limit())
}

// A fault in some page's script takes precedence over a limit that some page met.
#[tactic(auto, using(crate::proofs::SideBySide::status_seen))]
fn status_by(pages: &[StreamPage]) -> Status
    ensures { result ≡ stream_status (map seen_page pages.now) }
{
    if any_faulty(pages) {
        Status::Syntax
    } else if any_limited(pages) {
        Status::Limit
    } else {
        Status::Done
    }
}

// Runs a stream whose pages were opened.
fn run_opened<K: Sink, L: Ledger>(
    alloc: Global,
    stream: &Stream<'_>,
    pages: &mut [StreamPage],
    sink: &mut K,
    steps: &mut Steps<L>,
) -> Status
    requires opened { map seen_page pages.old ≡ (stream_opened (scripts_of stream.now)).pages }
    requires ready { All IsReadyPage pages.old }
    requires lines { All IsOneLine (opening_lines (scripts_of stream.now)) }
    // after what was written when the pages were opened
    ensures tells { (before : Option (List ℕ)) (faults : ℕ) → Appends before (K.taken sink.old) (stream_opened (scripts_of stream.now)).text → K.faults sink.old ≡ faults
        → Tells result (run_reply (stream_run stream.now)) before (K.taken sink.new) faults (K.faults sink.new) }
    ensures lines { is_whole result ≡ true → All IsOneLine (stream_lines stream.now) }
{
    let wrote = run_parts(alloc, pages, stream.parts(), sink, steps);
    status_of(wrote, status_by(pages))
}

// Runs a stream with capacity for its pages.
fn run_with<K: Sink, L: Ledger>(
    alloc: Global,
    stream: &Stream<'_>,
    pages: &mut Vec<StreamPage>,
    sink: &mut K,
    steps: &mut Steps<L>,
) -> Status
    requires { pages.old.items ≡ [] }
    ensures tells { Tells result (run_reply (stream_run stream.now)) (K.taken sink.old) (K.taken sink.new) (K.faults sink.old) (K.faults sink.new) }
    ensures lines { is_whole result ≡ true → All IsOneLine (stream_lines stream.now) }
{
    match open_pages(alloc, stream, pages, sink) {
        Ok(()) => run_opened(alloc, stream, pages, sink, steps),
        Err(fault) => status_of(Err(fault), Status::Done),
    }
}

// Runs a stream, and drops its pages.
fn run_stream<K: Sink, L: Ledger>(
    alloc: Global,
    stream: &Stream<'_>,
    sink: &mut K,
    steps: &mut Steps<L>,
) -> Status
    ensures tells { Tells result (run_reply (stream_run stream.now)) (K.taken sink.old) (K.taken sink.new) (K.faults sink.old) (K.faults sink.new) }
    ensures alone { is_whole result ≡ true → TellsAlone stream.now (stream_run stream.now).text }
{
    // the laws by which lines that end in their only line feed tell each page apart
    lines_of_the_stream_are_those_of_its_pages();
    each_page_is_as_if_it_ran_alone();
    let mut pages = Vec::new(alloc);
    run_with(alloc, stream, &mut pages, sink, steps)
}

// Runs the bytes of a source.
fn run_bytes<K: Sink, L: Ledger>(
    alloc: Global,
    source: &[u8],
    sink: &mut K,
    steps: &mut Steps<L>,
) -> Status
    requires { length source.now ≤ 16777216 }
    ensures tells { Tells result (pages_reply source.now) (K.taken sink.old) (K.taken sink.new) (K.faults sink.old) (K.faults sink.new) }
    ensures alone { IsolatesPages result source.now }
{
    match split(alloc, source, MOST_PAGES) {
        Ok(stream) => run_stream(alloc, &stream, sink, steps),
        Err(StreamFault::NoPage) => refuse_at(alloc, 1, 1, sink),
        Err(StreamFault::TooManyPages { line }) => meet_limit(alloc, LimitKind::Pages, line, sink),
        Err(StreamFault::Memory) => Status::NoMemory,
    }
}

/// Runs the scripts of the pages in the source side by side, and writes each line as it is produced, with the name of its
/// page.
///
/// - `Done`, `Syntax` and `Limit`: exactly as the reply to the source's bytes says, and all of its text was written. `Usage`
///   doesn't occur.
/// - `ReadFault` and `WriteFault`: only if that fault count rose in this call; nothing was written, or a prefix of the text,
///   respectively. With any other status that count is unchanged. `NoMemory` if an allocation fails, after a prefix of the text.
/// - The source is at its end after `Done`, `Syntax`, `Limit` and `WriteFault`; of more than 16,777,216 bytes one more than that
///   many were consumed. After `NoMemory` and `ReadFault` no more than these were.
pub fn run_pages<S: Source, K: Sink, L: Ledger>(
    alloc: Global,
    source: &mut S,
    sink: &mut K,
    steps: &mut Steps<L>,
) -> Status
    ensures usage { result ≡ Status.Usage → ⊥ }
    ensures ends { IfSome (S.left source.old) (λ text.
        Ends result (pages_reply text) (K.taken sink.old) (K.taken sink.new) (K.faults sink.old) (K.faults sink.new)) }
    ensures alone { IfSome (S.left source.old) (λ text. IsolatesPages result text) }
    ensures read { IfSome (S.left source.old) (λ text. IsTaken result 16777217 text (S.left source.new)) }
    // Nothing is written before the source is read.
    ensures out_of_memory { result ≡ Status.NoMemory → (sink.new ≡ sink.old) ⊎ IfSome (S.left source.old) (λ text. S.left source.new ≡ Some (drop 16777217 text)) }
    ensures read_fault { result ≡ Status.ReadFault → Rose (S.faults source.old) (S.faults source.new) × (sink.new ≡ sink.old) }
    ensures write_fault { result ≡ Status.WriteFault → Rose (K.faults sink.old) (K.faults sink.new) }
    ensures unfailed_read { (result ≡ Status.ReadFault → ⊥) → S.faults source.new ≡ S.faults source.old }
    ensures unfailed_write { (result ≡ Status.WriteFault → ⊥) → K.faults sink.new ≡ K.faults sink.old }
{
    match read_all(alloc, source, MOST_STREAM) {
        Ok(bytes) => run_bytes(alloc, &bytes, sink, steps),
        Err(TextFault::TooLong { feeds }) => {
            meet_limit(alloc, LimitKind::Script, feeds + 1, sink)
        }
        Err(TextFault::ReadFault) => Status::ReadFault,
        Err(_) => Status::NoMemory,
    }
}
