//! Texts with their lines and words, cut at each place and in pieces of several sizes, and lines at the bound.

ghost use Rattle.std.specs.Prelude.{◌≡◌, ◌≤◌, length};

use crate::same::{same, same_bytes};
use crate::scripts::{lines_in_pieces, lines_of};
use script_lexer::{LexFault, Line, Span, Text};
use std::alloc::{AllocError, Global};
use std::process::Abort;
use std::test::Fail;

/// One digit of a small number.
fn digit(number: usize) -> u8 {
    b"0123456789".get(number).copied().unwrap_or(b'+')
}

fn push_word(out: &mut Vec<u8>, text: &Text, line: &Line, span: &Span) -> Result<(), AllocError>
    requires { span.now.from ≤ span.now.to × span.now.to ≤ length text.now.bytes }
{
    out.push(digit(line.number as usize))?;
    out.push(b':')?;
    out.push(digit(span.from.saturating_sub(line.start).saturating_add(1)))?;
    out.extend_from_slice(&text.bytes()[span.from..span.to])?;
    out.push(b' ')?;
    Ok(())
}

/// Appends each word as LINE, `:`, COLUMN, the word and a space.
fn push_words(out: &mut Vec<u8>, text: &Text) -> Result<(), AllocError> {
    for line in text.lines() {
        for span in text.words(line) {
            push_word(out, text, line, span)?;
        }
    }
    Ok(())
}

/// A text, its words, how many lines it has, and the line and column of a byte that no line may have.
type Row = (&'static [u8], &'static [u8], u32, Option<(u32, u32)>);

const ROWS: [Row; 17] = [
    (b"", b"", 0, None),
    (b"\n", b"", 1, None),
    (b"a", b"1:1a ", 1, None),
    (b"a\n", b"1:1a ", 1, None),
    (b"a\r\nb", b"1:1a 2:1b ", 2, None),
    (b"\tab\tc \n", b"1:2ab 1:5c ", 1, None),
    (b"a #b c\n# d\ne#f", b"1:1a 3:1e#f ", 3, None),
    (b" \n\n  x~!", b"3:3x~! ", 3, None),
    (b"a \r\n\r\nb", b"1:1a 3:1b ", 3, None),
    (b"a\rb\n", b"", 0, Some((1, 2))),
    (b"a\r", b"", 0, Some((1, 2))),
    (b"a\r\r\n", b"", 0, Some((1, 2))),
    (b"a\nb\x7fc\n", b"1:1a ", 1, Some((2, 2))),
    (b"a\n\n\x00", b"1:1a ", 2, Some((3, 1))),
    (b"\xc3\xa9", b"", 0, Some((1, 1))),
    (b"# \x01\x02", b"", 0, Some((1, 3))),
    (b"a b\x0bc\nd", b"", 0, Some((1, 4))),
];

fn see_text(rt: &impl Abort, alloc: Global, found: &Text, row: Row) -> Result<(), Fail> {
    let (text, words, count, bad) = row;
    let fault = bad.map(|(line, column)| LexFault::BadByte { line, column });
    same_bytes(rt, found.bytes(), text, "bytes");
    same(rt, &found.line_count(), &count, "lines");
    same(rt, &found.fault(), &fault, "fault");
    let mut out = Vec::new(alloc);
    push_words(&mut out, found)?;
    same_bytes(rt, out.as_slice(), words, "words");
    Ok(())
}

fn see_cuts(rt: &impl Abort, alloc: Global, row: Row) -> Result<(), Fail> {
    for cut in 0..row.0.len() + 1 {
        let found = lines_of(rt, alloc, row.0, cut)?;
        see_text(rt, alloc, &found, row)?;
    }
    Ok(())
}

#[test]
fn each_cut_gives_the_same_lines_and_words(rt: HostRuntime) -> Result<(), Fail> {
    for row in ROWS {
        see_cuts(&rt, rt.alloc(), row)?;
    }
    Ok(())
}

/// Sizes of pieces that cut each row of the tests at many places, or nowhere.
const SIZES: [usize; 4] = [1, 2, 3, 4096];

fn see_pieces(rt: &impl Abort, alloc: Global, row: Row) -> Result<(), Fail> {
    for size in SIZES {
        let found = lines_in_pieces(rt, alloc, row.0, size)?;
        see_text(rt, alloc, &found, row)?;
    }
    Ok(())
}

#[test]
fn pieces_of_any_size_give_the_same_lines_and_words(rt: HostRuntime) -> Result<(), Fail> {
    for row in ROWS {
        see_pieces(&rt, rt.alloc(), row)?;
    }
    Ok(())
}

/// What stands before a line's bytes, how many these are, what stands behind them; how many lines have a word, and which
/// line is too long.
type LongRow = (&'static [u8], usize, &'static [u8], usize, Option<u32>);

const LONG_LINES: [LongRow; 7] = [
    (b"", 4096, b"", 1, None),
    (b"", 4096, b"\n", 1, None),
    (b"", 4095, b"\r\n", 1, None),
    (b"", 4096, b"\r\n", 0, Some(1)),
    (b"", 4097, b"", 0, Some(1)),
    (b"", 4096, b"\x00", 0, Some(1)),
    (b"a\n\n", 4097, b"\x00", 1, Some(3)),
];

fn push_line(text: &mut Vec<u8>, row: LongRow) -> Result<(), AllocError> {
    let (front, count, end, _, _) = row;
    text.extend_from_slice(front)?;
    for _ in 0..count {
        text.push(b'x')?;
    }
    text.extend_from_slice(end)
}

fn see_long_line(rt: &impl Abort, found: &Text, row: LongRow) -> Result<(), Fail> {
    same(rt, &found.lines().len(), &row.3, "lines with words");
    let fault = row.4.map(|line| LexFault::LineTooLong { line });
    same(rt, &found.fault(), &fault, "fault");
    Ok(())
}

fn see_long_row(rt: &impl Abort, alloc: Global, row: LongRow) -> Result<(), Fail> {
    let mut text = Vec::new(alloc);
    push_line(&mut text, row)?;
    see_long_line(rt, &lines_of(rt, alloc, text.as_slice(), 2000)?, row)?;
    for size in SIZES {
        see_long_line(rt, &lines_in_pieces(rt, alloc, text.as_slice(), size)?, row)?;
    }
    Ok(())
}

#[test]
fn a_line_has_at_most_4096_bytes(rt: HostRuntime) -> Result<(), Fail> {
    for row in LONG_LINES {
        see_long_row(&rt, rt.alloc(), row)?;
    }
    Ok(())
}
