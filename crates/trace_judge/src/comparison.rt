//! Comparing two traces.

ghost use Rattle.std.specs.Prelude.{◌≡◌, ◌<◌, ◌≤◌, IsTrue, length, nat_eq};
ghost use Rattle.std.specs.List.{common_prefix_len};
ghost use Rattle.trace_judge.specs.Lines.{is_trace_line};
ghost use Rattle.trace_judge.specs.Judging.{how_lines_differ, judgement};

use crate::judgement::{How, Judgement};
use text_lines::split_line;
use trace_text::read_line;

fn is_trace_line(line: &[u8]) -> bool
    ensures answer { result ≡ is_trace_line line.now }
    ensures short { IsTrue result → length line.now < 4096 }
{
    read_line(line).is_ok()
}

// Returns the length of the common prefix of two lines.
fn common_bytes(expected: &[u8], recorded: &[u8]) -> usize
    ensures { result ≡ common_prefix_len nat_eq expected.now recorded.now }
{
    expected
        .iter()
        .zip(recorded.iter())
        .take_while(|pair| pair.0 == pair.1)
        .count()
}

// Returns how a recorded line differs from the expected one.
fn how_lines_differ(expected: &[u8], recorded: &[u8]) -> How
    ensures { result ≡ how_lines_differ expected.now recorded.now }
{
    if is_trace_line(recorded) {
        How::Text(common_bytes(expected, recorded) as u32 + 1)
    } else {
        How::NotALine
    }
}

// Returns how two lines differ. A line is empty if its trace has ended.
fn how_first_lines_differ(expected: &[u8], recorded: &[u8]) -> How
    ensures extra { length expected.now ≤ 0 → result ≡ How.Extra }
    ensures missing { 0 < length expected.now → length recorded.now ≤ 0 → result ≡ How.Missing }
    ensures other { 0 < length expected.now → 0 < length recorded.now → result ≡ how_lines_differ expected.now recorded.now }
{
    if expected.is_empty() {
        How::Extra
    } else if recorded.is_empty() {
        How::Missing
    } else {
        how_lines_differ(expected, recorded)
    }
}

/// Compares a recorded trace with the expected one: returns whether they are equal, and otherwise where and how they first differ.
/// Allocates nothing.
///
/// A trace is split after each line feed, and a rest without one is a line too.
pub fn judge(expected: &[u8], recorded: &[u8]) -> Judgement
    ensures { result ≡ judgement expected.now recorded.now }
{
    let mut lines = 0;
    let mut expected_rest = expected;
    let mut recorded_rest = recorded;
    'lines: loop {
        let (expected_line, expected_behind) = split_line(expected_rest);
        let (recorded_line, recorded_behind) = split_line(recorded_rest);
        if expected_line != recorded_line {
            return Judgement::Differs {
                line: lines + 1,
                how: how_first_lines_differ(expected_line, recorded_line),
            };
        }
        // both traces have ended, since a line is never empty
        if expected_line.is_empty() {
            return Judgement::Equal { lines };
        }
        lines += 1;
        expected_rest = expected_behind;
        recorded_rest = recorded_behind;
    }
}
