//! Reading lines from their texts.

ghost use Rattle.std.specs.Prelude.{◌≡◌, IfOk, OnErr, option_map};
ghost use Rattle.script_model.specs.TraceLines.{TraceLine as LineModel};
ghost use Rattle.script_model.specs.TraceText.{line_text};
ghost use Rattle.trace_text.specs.Seen.{seen_line, seen_event};
ghost use Rattle.trace_text.specs.Ranges.{IsLine};
ghost use Rattle.trace_text.specs.Reading.{event_by, event_at, line_by, ended, line_of};
ghost use Rattle.trace_text.specs.Views.{read_of};

use crate::fields::{
    behind_message, bool_at, device_at, event_kind_at, limit_at, meets_at, name_at, names_at,
    point_at, ratio_at, rect_at, rect_behind, size_behind, split_field, throw_at, u32_at, u64_at,
    window_at,
};
use crate::kinds::LineKind;
use crate::{EventLine, TraceFault, TraceLine};
use text_io::EventKind;

/// Returns the line with this text, its line feed included. Each length, edge, width and height of it is within ±2^50
/// units.
///
/// # Errors
/// `NotALine` exactly where no such line has this text.
pub fn read_line(text: &[u8]) -> Result<TraceLine, TraceFault>
    ensures ok { IfOk result (λ line. line_text (seen_line line) ≡ text.now) }
    ensures range { IfOk result (λ line. IsLine (seen_line line)) }
    ensures err { OnErr result ((line : LineModel) → IsLine line → line_text line ≡ text.now → ⊥) }
{
    match line_of(text) {
        Some(line) => Ok(line),
        None => Err(TraceFault::NotALine),
    }
}

#[tactic(auto, unfolding(crate::specs::Reading::line_of))]
fn line_of(text: &[u8]) -> Option<TraceLine>
    ensures { option_map seen_line result ≡ line_of text.now }
{
    let (word, fields) = split_field(text);
    let kind = LineKind::named(word)?;
    let Some((line, rest)) = line_by(kind, fields) else {
        return None;
    };
    ended(line, rest)
}

/// Returns the line, if exactly a line feed follows its fields.
fn ended(line: TraceLine, rest: &[u8]) -> Option<TraceLine>
    ensures { option_map seen_line result ≡ ended (seen_line line, rest.now) }
{
    if rest == b"\n".as_slice() {
        Some(line)
    } else {
        None
    }
}

/// Reads the fields of a line of this kind.
fn line_by(kind: LineKind, text: &[u8]) -> Option<(TraceLine, &[u8])>
    ensures { read_of seen_line result ≡ line_by kind text.now }
{
    match kind {
        LineKind::Tick => tick_at(text),
        LineKind::Timer => timer_at(text),
        LineKind::Frame => frame_at(text),
        LineKind::Task => task_at(text),
        LineKind::Event => fired_at(text),
        LineKind::Resize => resize_at(text),
        LineKind::Round => round_at(text),
        LineKind::Intersect => intersect_at(text),
        LineKind::Take => take_at(text),
        LineKind::Say => say_at(text),
        LineKind::Read => read_at(text),
        LineKind::Throw => threw_at(text),
        LineKind::Limit => limited_at(text),
        LineKind::Syntax => syntax_at(text),
    }
}

#[tactic(auto, unfolding(crate::specs::Reading::line_by))]
fn tick_at(text: &[u8]) -> Option<(TraceLine, &[u8])>
    ensures { read_of seen_line result ≡ line_by LineKind.Tick text.now }
{
    let (time, rest) = u64_at(text)?;
    Some((TraceLine::Tick(time), rest))
}

#[tactic(auto, unfolding(crate::specs::Reading::line_by))]
fn timer_at(text: &[u8]) -> Option<(TraceLine, &[u8])>
    ensures { read_of seen_line result ≡ line_by LineKind.Timer text.now }
{
    let Some(((document, key), rest)) = names_at(text) else {
        return None;
    };
    Some((TraceLine::Timer(document, key), rest))
}

#[tactic(auto, unfolding(crate::specs::Reading::line_by))]
fn frame_at(text: &[u8]) -> Option<(TraceLine, &[u8])>
    ensures { read_of seen_line result ≡ line_by LineKind.Frame text.now }
{
    let Some(((document, key), rest)) = names_at(text) else {
        return None;
    };
    Some((TraceLine::Frame(document, key), rest))
}

#[tactic(auto, unfolding(crate::specs::Reading::line_by))]
fn task_at(text: &[u8]) -> Option<(TraceLine, &[u8])>
    ensures { read_of seen_line result ≡ line_by LineKind.Task text.now }
{
    let Some(((document, handler), rest)) = names_at(text) else {
        return None;
    };
    Some((TraceLine::Task(document, handler), rest))
}

#[tactic(auto, unfolding(crate::specs::Reading::line_by))]
fn fired_at(text: &[u8]) -> Option<(TraceLine, &[u8])>
    ensures { read_of seen_line result ≡ line_by LineKind.Event text.now }
{
    let Some((event, rest)) = event_at(text) else {
        return None;
    };
    Some((TraceLine::Event(event), rest))
}

/// Reads the type of an event and its fields.
#[tactic(auto, unfolding(crate::specs::Reading::event_at))]
fn event_at(text: &[u8]) -> Option<(EventLine, &[u8])>
    ensures { read_of seen_event result ≡ event_at text.now }
{
    let (kind, rest) = event_kind_at(text)?;
    event_by(kind, rest)
}

#[tactic(auto, unfolding(crate::specs::Reading::event_by))]
fn event_by(kind: EventKind, text: &[u8]) -> Option<(EventLine, &[u8])>
    ensures { read_of seen_event result ≡ event_by kind text.now }
{
    match kind {
        EventKind::Resize => {
            let Some((document, rest)) = window_at(text) else {
                return None;
            };
            Some((EventLine::Resize(document), rest))
        }
        EventKind::Scroll => {
            let Some((target, rest)) = name_at(text) else {
                return None;
            };
            Some((EventLine::Scroll(target), rest))
        }
        EventKind::Change => changed_at(text),
        EventKind::Error => failed_at(text),
    }
}

#[tactic(auto, unfolding(crate::specs::Reading::event_by))]
fn changed_at(text: &[u8]) -> Option<(EventLine, &[u8])>
    ensures { read_of seen_event result ≡ event_by EventKind.Change text.now }
{
    let Some((query, rest)) = name_at(text) else {
        return None;
    };
    let (matches, rest) = bool_at(rest)?;
    Some((EventLine::Change(query, matches), rest))
}

#[tactic(auto, unfolding(crate::specs::Reading::event_by))]
fn failed_at(text: &[u8]) -> Option<(EventLine, &[u8])>
    ensures { read_of seen_event result ≡ event_by EventKind.Error text.now }
{
    let Some((document, rest)) = window_at(text) else {
        return None;
    };
    let rest = behind_message(rest)?;
    Some((EventLine::Error(document), rest))
}

#[tactic(auto, unfolding(crate::specs::Reading::line_by))]
fn resize_at(text: &[u8]) -> Option<(TraceLine, &[u8])>
    ensures { read_of seen_line result ≡ line_by LineKind.Resize text.now }
{
    let Some(((observer, target), rest)) = names_at(text) else {
        return None;
    };
    let (rect, rest) = rect_behind(b"rect", rest)?;
    let (border, rest) = size_behind(b"border", rest)?;
    let (device, rest) = device_at(rest)?;
    let line = TraceLine::Resize {
        observer,
        target,
        rect,
        border,
        device,
    };
    Some((line, rest))
}

#[tactic(auto, unfolding(crate::specs::Reading::line_by))]
fn round_at(text: &[u8]) -> Option<(TraceLine, &[u8])>
    ensures { read_of seen_line result ≡ line_by LineKind.Round text.now }
{
    let Some((document, rest)) = name_at(text) else {
        return None;
    };
    let (depth, rest) = u32_at(rest)?;
    Some((TraceLine::Round(document, depth), rest))
}

#[tactic(auto, unfolding(crate::specs::Reading::line_by))]
fn intersect_at(text: &[u8]) -> Option<(TraceLine, &[u8])>
    ensures { read_of seen_line result ≡ line_by LineKind.Intersect text.now }
{
    let Some(((observer, target), rest)) = names_at(text) else {
        return None;
    };
    let (time, rest) = u64_at(rest)?;
    let (meets, rest) = meets_at(rest)?;
    let ((part, whole), rest) = ratio_at(rest)?;
    let (root, rest) = rect_behind(b"root", rest)?;
    let (bounds, rest) = rect_behind(b"box", rest)?;
    let (cut, rest) = rect_behind(b"cut", rest)?;
    let line = TraceLine::Intersect {
        observer,
        target,
        time,
        meets,
        part,
        whole,
        root,
        bounds,
        cut,
    };
    Some((line, rest))
}

#[tactic(auto, unfolding(crate::specs::Reading::line_by))]
fn take_at(text: &[u8]) -> Option<(TraceLine, &[u8])>
    ensures { read_of seen_line result ≡ line_by LineKind.Take text.now }
{
    let Some((observer, rest)) = name_at(text) else {
        return None;
    };
    let (count, rest) = u64_at(rest)?;
    Some((TraceLine::Take(observer, count), rest))
}

#[tactic(auto, unfolding(crate::specs::Reading::line_by))]
fn say_at(text: &[u8]) -> Option<(TraceLine, &[u8])>
    ensures { read_of seen_line result ≡ line_by LineKind.Say text.now }
{
    let Some((word, rest)) = name_at(text) else {
        return None;
    };
    Some((TraceLine::Say(word), rest))
}

#[tactic(auto, unfolding(crate::specs::Reading::line_by))]
fn read_at(text: &[u8]) -> Option<(TraceLine, &[u8])>
    ensures { read_of seen_line result ≡ line_by LineKind.Read text.now }
{
    let Some((target, rest)) = name_at(text) else {
        return None;
    };
    let (rect, rest) = rect_at(rest)?;
    let (scroll, rest) = point_at(rest)?;
    let line = TraceLine::Read {
        target,
        rect,
        scroll,
    };
    Some((line, rest))
}

#[tactic(auto, unfolding(crate::specs::Reading::line_by))]
fn threw_at(text: &[u8]) -> Option<(TraceLine, &[u8])>
    ensures { read_of seen_line result ≡ line_by LineKind.Throw text.now }
{
    let (number, rest) = u32_at(text)?;
    let (kind, rest) = throw_at(rest)?;
    Some((TraceLine::Throw(number, kind), rest))
}

#[tactic(auto, unfolding(crate::specs::Reading::line_by))]
fn limited_at(text: &[u8]) -> Option<(TraceLine, &[u8])>
    ensures { read_of seen_line result ≡ line_by LineKind.Limit text.now }
{
    let (kind, rest) = limit_at(text)?;
    let (number, rest) = u32_at(rest)?;
    let (most, rest) = u64_at(rest)?;
    Some((TraceLine::Limit(kind, number, most), rest))
}

#[tactic(auto, unfolding(crate::specs::Reading::line_by))]
fn syntax_at(text: &[u8]) -> Option<(TraceLine, &[u8])>
    ensures { read_of seen_line result ≡ line_by LineKind.Syntax text.now }
{
    let (number, rest) = u32_at(text)?;
    let (column, rest) = u32_at(rest)?;
    Some((TraceLine::Syntax(number, column), rest))
}
