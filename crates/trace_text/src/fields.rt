//! Reading the fields of a line, each after a space. A function whose name ends in `_at` returns the value at the start of the text, and
//! the rest of the text.

ghost use Rattle.std.specs.Prelude.{◌≡◌, ◌-◌, ◌^◌, ◌≤◌, length, IfSome};
ghost use Rattle.std.specs.List.{prefix_len};
ghost use Rattle.px_units.specs.Rects.{InReach};
ghost use Rattle.text_io.specs.Kinds.{event_of};
ghost use Rattle.script_model.specs.TraceText.{loop_error};
ghost use Rattle.trace_text.specs.Fields.{is_field_byte};
ghost use Rattle.trace_text.specs.Reading.{field_of, behind_field, field_at, value_at, behind_word, behind_text, behind_space, name_at, names_at, window_of, window_at, number_at, ratio_at, bool_of, bool_at, meets_of, meets_at, pixels_at, whole_at, point_at, size_at, device_at, edge_of, rect_of, rect_at, behind, throw_at, limit_at};
ghost use Rattle.trace_text.specs.Views.{read_of, same, behind_of};

use crate::decimals::{number_of, ratio_of, whole_of};
use crate::lengths::pixels_of;
use px_units::{Point, Rect, Size};
use text_io::{EventKind, LimitKind, Name, ThrowKind};

/// The message of an `error` event (Resize Observer, 3.4.6).
pub const MESSAGE: &[u8] = b"ResizeObserver loop completed with undelivered notifications.";

/// The largest absolute value of a length, in units.
const REACH: i64 = 1 << 50;

/// Splits the text before the first space or line feed.
#[tactic(auto, unfolding(crate::specs::Reading::field_of, crate::specs::Reading::behind_field))]
pub fn split_field(text: &[u8]) -> (&[u8], &[u8])
    ensures field { result.0.now ≡ field_of text.now }
    ensures rest { result.1.now ≡ behind_field text.now }
{
    text.split_at(field_length(text))
}

fn field_length(text: &[u8]) -> usize
    ensures count { result ≡ prefix_len is_field_byte text.now }
    ensures bound { result ≤ length text.now }
{
    text.iter().take_while(|byte| **byte > b' ').count()
}

/// Reads a space and a field.
#[tactic(auto, unfolding(crate::specs::Reading::field_at))]
fn field_at(text: &[u8]) -> Option<(&[u8], &[u8])>
    ensures { read_of (λ field. field.now) result ≡ field_at text.now }
{
    match text {
        [b' ', behind @ ..] => Some(split_field(behind)),
        _ => None,
    }
}

/// Reads a space and this word as a field, and returns the rest.
#[tactic(auto, unfolding(crate::specs::Reading::behind_word))]
fn behind_word<'a>(word: &[u8], text: &'a [u8]) -> Option<&'a [u8]>
    ensures { behind_of result ≡ behind_word word.now text.now }
{
    let (field, rest) = field_at(text)?;
    if field == word { Some(rest) } else { None }
}

/// Strips this prefix, and returns the rest.
#[tactic(auto, unfolding(crate::specs::Reading::behind_text))]
fn behind_text<'a>(front: &[u8], text: &'a [u8]) -> Option<&'a [u8]>
    ensures { behind_of result ≡ behind_text front.now text.now }
{
    text.strip_prefix(front)
}

/// Strips a space and this prefix, and returns the rest.
#[tactic(auto, unfolding(crate::specs::Reading::behind_space))]
fn behind_space<'a>(front: &[u8], text: &'a [u8]) -> Option<&'a [u8]>
    ensures { behind_of result ≡ behind_space front.now text.now }
{
    match text {
        [b' ', behind @ ..] => behind_text(front, behind),
        _ => None,
    }
}

/// Strips a space and the message of an `error` event, and returns the rest.
pub fn behind_message(text: &[u8]) -> Option<&[u8]>
    ensures { behind_of result ≡ behind_space loop_error text.now }
{
    behind_space(MESSAGE, text)
}

#[tactic(auto, unfolding(crate::specs::Reading::name_at))]
pub fn name_at(text: &[u8]) -> Option<(Name, &[u8])>
    ensures { read_of same result ≡ name_at text.now }
{
    let (field, rest) = field_at(text)?;
    let name = Name::read(field)?;
    Some((name, rest))
}

#[tactic(auto, unfolding(crate::specs::Reading::names_at))]
pub fn names_at(text: &[u8]) -> Option<((Name, Name), &[u8])>
    ensures { read_of same result ≡ names_at text.now }
{
    let Some((first, rest)) = name_at(text) else {
        return None;
    };
    let Some((second, rest)) = name_at(rest) else {
        return None;
    };
    Some(((first, second), rest))
}

#[tactic(auto, unfolding(crate::specs::Reading::window_of))]
fn window_of(field: &[u8]) -> Option<Name>
    ensures { result ≡ window_of field.now }
{
    match field {
        [b'@', document @ ..] => Name::read(document),
        _ => None,
    }
}

/// Reads a window: an `@` and the name of its document.
#[tactic(auto, unfolding(crate::specs::Reading::window_at))]
pub fn window_at(text: &[u8]) -> Option<(Name, &[u8])>
    ensures { read_of same result ≡ window_at text.now }
{
    let (field, rest) = field_at(text)?;
    let document = window_of(field)?;
    Some((document, rest))
}

#[tactic(auto, unfolding(crate::specs::Reading::number_at))]
fn number_at(text: &[u8], most: u128) -> Option<(u128, &[u8])>
    ensures value { read_of same result ≡ number_at most text.now }
    ensures bound { IfSome result (λ read. read.0 ≤ most) }
{
    let (field, rest) = field_at(text)?;
    let number = number_of(field, most)?;
    Some((number, rest))
}

pub fn u32_at(text: &[u8]) -> Option<(u32, &[u8])>
    ensures { read_of same result ≡ number_at (2 ^ 32 - 1) text.now }
{
    let (number, rest) = number_at(text, u128::from(u32::MAX))?;
    Some((number as u32, rest))
}

pub fn u64_at(text: &[u8]) -> Option<(u64, &[u8])>
    ensures { read_of same result ≡ number_at (2 ^ 64 - 1) text.now }
{
    let (number, rest) = number_at(text, u128::from(u64::MAX))?;
    Some((number as u64, rest))
}

#[tactic(auto, unfolding(crate::specs::Reading::ratio_at))]
pub fn ratio_at(text: &[u8]) -> Option<((u128, u128), &[u8])>
    ensures { read_of same result ≡ ratio_at text.now }
{
    let (field, rest) = field_at(text)?;
    let ratio = ratio_of(field)?;
    Some((ratio, rest))
}

#[tactic(auto, unfolding(crate::specs::Reading::bool_of, text_io::specs::Kinds::named))]
fn bool_of(field: &[u8]) -> Option<bool>
    ensures { result ≡ bool_of field.now }
{
    if field == b"true".as_slice() {
        return Some(true);
    }
    if field == b"false".as_slice() {
        return Some(false);
    }
    None
}

/// Reads `true` or `false`.
#[tactic(auto, unfolding(crate::specs::Reading::bool_at))]
pub fn bool_at(text: &[u8]) -> Option<(bool, &[u8])>
    ensures { read_of same result ≡ bool_at text.now }
{
    let (field, rest) = field_at(text)?;
    let value = bool_of(field)?;
    Some((value, rest))
}

#[tactic(auto, unfolding(crate::specs::Reading::meets_of, text_io::specs::Kinds::named))]
fn meets_of(field: &[u8]) -> Option<bool>
    ensures { result ≡ meets_of field.now }
{
    if field == b"yes".as_slice() {
        return Some(true);
    }
    if field == b"no".as_slice() {
        return Some(false);
    }
    None
}

/// Reads `yes` or `no`.
#[tactic(auto, unfolding(crate::specs::Reading::meets_at))]
pub fn meets_at(text: &[u8]) -> Option<(bool, &[u8])>
    ensures { read_of same result ≡ meets_at text.now }
{
    let (field, rest) = field_at(text)?;
    let value = meets_of(field)?;
    Some((value, rest))
}

pub fn event_kind_at(text: &[u8]) -> Option<(EventKind, &[u8])>
    ensures { read_of same result ≡ value_at event_of text.now }
{
    let (field, rest) = field_at(text)?;
    let kind = EventKind::named(field)?;
    Some((kind, rest))
}

#[tactic(auto, unfolding(crate::specs::Reading::throw_at))]
pub fn throw_at(text: &[u8]) -> Option<(ThrowKind, &[u8])>
    ensures { read_of same result ≡ throw_at text.now }
{
    let (field, rest) = field_at(text)?;
    let kind = ThrowKind::named(field)?;
    Some((kind, rest))
}

#[tactic(auto, unfolding(crate::specs::Reading::limit_at))]
pub fn limit_at(text: &[u8]) -> Option<(LimitKind, &[u8])>
    ensures { read_of same result ≡ limit_at text.now }
{
    let (field, rest) = field_at(text)?;
    let kind = LimitKind::named(field)?;
    Some((kind, rest))
}

/// Reads a length into units.
#[tactic(auto, unfolding(crate::specs::Reading::pixels_at))]
fn pixels_at(text: &[u8]) -> Option<(i64, &[u8])>
    ensures value { read_of same result ≡ pixels_at text.now }
    ensures reach { IfSome result (λ read. InReach read.0) }
{
    let (field, rest) = field_at(text)?;
    let units = pixels_of(field)?;
    Some((units, rest))
}

#[tactic(auto, unfolding(crate::specs::Reading::point_at))]
pub fn point_at(text: &[u8]) -> Option<(Point, &[u8])>
    ensures value { read_of same result ≡ point_at text.now }
    ensures left { IfSome result (λ read. InReach read.0.left) }
    ensures top { IfSome result (λ read. InReach read.0.top) }
{
    let (left, rest) = pixels_at(text)?;
    let (top, rest) = pixels_at(rest)?;
    Some((Point { left, top }, rest))
}

#[tactic(auto, unfolding(crate::specs::Reading::size_at))]
fn size_at(text: &[u8]) -> Option<(Size, &[u8])>
    ensures value { read_of same result ≡ size_at text.now }
    ensures width { IfSome result (λ read. InReach read.0.width) }
    ensures height { IfSome result (λ read. InReach read.0.height) }
{
    let (width, rest) = pixels_at(text)?;
    let (height, rest) = pixels_at(rest)?;
    Some((Size { width, height }, rest))
}

/// Reads a whole number, which may be negative.
#[tactic(auto, unfolding(crate::specs::Reading::whole_at))]
fn whole_at(text: &[u8]) -> Option<(i64, &[u8])>
    ensures { read_of same result ≡ whole_at text.now }
{
    let (field, rest) = field_at(text)?;
    let number = whole_of(field)?;
    Some((number, rest))
}

/// Reads an optional size in device pixels: `None` if no field follows.
#[tactic(auto, unfolding(crate::specs::Reading::device_at))]
pub fn device_at(text: &[u8]) -> Option<(Option<Size>, &[u8])>
    ensures { read_of same result ≡ device_at text.now }
{
    match text {
        [b' ', ..] => {
            let rest = behind_word(b"device", text)?;
            let (width, rest) = whole_at(rest)?;
            let (height, rest) = whole_at(rest)?;
            Some((Some(Size { width, height }), rest))
        }
        _ => Some((None, text)),
    }
}

/// Returns the rectangle with this corner and size, or `None` if an edge is out of range.
#[tactic(auto, unfolding(crate::specs::Reading::rect_of))]
fn rect_of(corner: Point, size: Size) -> Option<Rect>
    requires left { InReach corner.left }
    requires top { InReach corner.top }
    requires width { InReach size.width }
    requires height { InReach size.height }
    ensures { result ≡ rect_of (corner, size) }
{
    let right = edge_of(corner.left, size.width)?;
    let bottom = edge_of(corner.top, size.height)?;
    Some(Rect {
        left: corner.left,
        top: corner.top,
        right,
        bottom,
    })
}

/// Returns the end of a length that starts at `start`, or `None` if it is out of range.
#[tactic(auto, unfolding(crate::specs::Reading::edge_of))]
fn edge_of(start: i64, length: i64) -> Option<i64>
    requires start { InReach start }
    requires length { InReach length }
    ensures { result ≡ edge_of start length }
{
    let end = start + length;
    if -REACH <= end && end <= REACH {
        Some(end)
    } else {
        None
    }
}

/// Reads a rectangle, given by its corner and its size.
#[tactic(auto, unfolding(crate::specs::Reading::rect_at))]
pub fn rect_at(text: &[u8]) -> Option<(Rect, &[u8])>
    ensures { read_of same result ≡ rect_at text.now }
{
    let (corner, rest) = point_at(text)?;
    let (size, rest) = size_at(rest)?;
    let rect = rect_of(corner, size)?;
    Some((rect, rest))
}

/// Reads this word and a rectangle.
pub fn rect_behind<'a>(word: &[u8], text: &'a [u8]) -> Option<(Rect, &'a [u8])>
    ensures { read_of same result ≡ behind word.now rect_at text.now }
{
    let rest = behind_word(word, text)?;
    rect_at(rest)
}

/// Reads this word and a size.
pub fn size_behind<'a>(word: &[u8], text: &'a [u8]) -> Option<(Size, &'a [u8])>
    ensures { read_of same result ≡ behind word.now size_at text.now }
{
    let rest = behind_word(word, text)?;
    size_at(rest)
}
