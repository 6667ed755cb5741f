//! Laws of lines and their texts, each stated as the contract of a function that does nothing.

ghost use Rattle.std.specs.Prelude.{◌≡◌, ◌≢◌, ℕ, List, [], ◌∷◌, ◌++◌};
ghost use Rattle.std.specs.List.{All};
ghost use Rattle.script_model.specs.TraceLines.{TraceLine as LineModel};
ghost use Rattle.script_model.specs.TraceText.{line_text};
ghost use Rattle.trace_text.specs.Seen.{seen_line, seen_event};
ghost use Rattle.trace_text.specs.Ranges.{HasReach, IsName, EventFits, IsLine};

use crate::{EventLine, TraceLine};
use text_io::Name;

/// No two different lines have the same text.
pub fn text_has_one_line()
    ensures { (a b : LineModel) → IsLine a → IsLine b → line_text a ≡ line_text b → a ≡ b }
{}

/// A line's text ends in a line feed, and contains no other.
#[tactic(auto, using(crate::proofs::Whole::feed_once))]
pub fn line_ends_once()
    ensures { (line : LineModel) → IsLine line → (front : List ℕ) × (line_text line ≡ front ++ (10 ∷ [])) × All (λ byte. byte ≢ 10) front }
{}

/// Each value whose lengths are within their bound is such a line: its names are well formed, and its numbers fit their types.
pub fn value_is_a_line(line: &TraceLine)
    requires { HasReach (seen_line line.now) }
    ensures { IsLine (seen_line line.now) }
{
    match line {
        TraceLine::Tick(time) => {
            let _time = *time;
        }
        TraceLine::Timer(document, key) => have_form(document, key),
        TraceLine::Frame(document, key) => have_form(document, key),
        TraceLine::Task(document, handler) => have_form(document, handler),
        TraceLine::Event(event) => event_fits(event),
        TraceLine::Resize {
            observer,
            target,
            ..
        } => have_form(observer, target),
        TraceLine::Round(document, depth) => {
            let _depth = *depth;
            have_form(document, document)
        }
        TraceLine::Intersect {
            observer,
            target,
            time,
            part,
            whole,
            ..
        } => {
            let _time = *time;
            let _areas = (*part, *whole);
            have_form(observer, target)
        }
        TraceLine::Take(observer, count) => {
            let _count = *count;
            have_form(observer, observer)
        }
        TraceLine::Say(word) => have_form(word, word),
        TraceLine::Read { target, .. } => have_form(target, target),
        TraceLine::Throw(number, _) => {
            let _number = *number;
        }
        TraceLine::Limit(_, number, most) => {
            let _number = *number;
            let _most = *most;
        }
        TraceLine::Syntax(number, column) => {
            let _number = *number;
            let _column = *column;
        }
    }
}

fn have_form(first: &Name, second: &Name)
    ensures first { IsName first.now }
    ensures second { IsName second.now }
{
    let _first = first.bytes();
    let _second = second.bytes();
}

fn event_fits(event: &EventLine)
    ensures { EventFits (seen_event event.now) }
{
    match event {
        EventLine::Resize(name)
        | EventLine::Scroll(name)
        | EventLine::Change(name, _)
        | EventLine::Error(name) => have_form(name, name),
    }
}
