//! Writing lines as text.

ghost use Rattle.std.specs.Prelude.{◌≡◌, [], ◌∷◌, ◌++◌, OnOk, OnErr, Some, IfSome, codes};
ghost use Rattle.std.specs.Io.{StartsWith};
ghost use Rattle.word_model.specs.Numbers.{decimal};
ghost use Rattle.px_units.specs.Texts.{sign_text, pixel_text};
ghost use Rattle.text_io.specs.Kinds.{limit_word, throw_word};
ghost use Rattle.script_model.specs.TraceLines.{ResizeLine, ReadLine};
ghost use Rattle.script_model.specs.TraceText.{window_text, bool_text, meets_text, rect_fields, size_fields, whole_text, device_fields, point_fields, ratio_text, event_fields, fields_of, line_text};
ghost use Rattle.trace_text.specs.Seen.{seen_line, seen_event};
ghost use Rattle.trace_text.specs.Ranges.{HasReach, RectReaches, SizeReaches, PointReaches};
ghost use Rattle.trace_text.specs.Fields.{with_fields};

use crate::fields::MESSAGE;
use crate::kinds::LineKind;
use crate::{EventLine, TraceLine};
use px_units::{Point, Px, Rect, Size, push_px};
use std::alloc::{AllocError, Global};
use text_io::{LimitKind, Name, ThrowKind};
use word_model::push_decimal;

/// Appends the line's text, which ends with a line feed. Each length, edge, width and height of the line must be within
/// ±2^50 units. If an allocation fails, nothing is appended.
#[tactic(auto, using(crate::proofs::Joined::line_text_is))]
pub fn write_line(alloc: Global, line: &TraceLine, into: &mut Vec<u8>) -> Result<(), AllocError>
    requires { HasReach (seen_line line.now) }
    ensures ok { OnOk result (into.new.items ≡ into.old.items ++ line_text (seen_line line.now)) }
    ensures err { OnErr result (into.new.items ≡ into.old.items) }
{
    let mut text = Vec::new(alloc);
    text.extend_from_slice(LineKind::of(line).text().as_bytes())?;
    push_fields(&mut text, line)?;
    text.push(b'\n')?;
    into.extend_from_slice(text.as_slice())
}

/// Appends a space and a field. If an allocation fails, the previous contents are kept, but something may have been appended.
#[tactic(auto, using(crate::proofs::Kept::keeps_more, crate::proofs::Kept::keeps_same))]
pub fn push_field(out: &mut Vec<u8>, field: &[u8]) -> Result<(), AllocError>
    ensures ok { OnOk result (out.new.items ≡ with_fields out.old.items (field.now ∷ [])) }
    ensures kept { StartsWith out.new.items out.old.items }
{
    out.push(b' ')?;
    out.extend_from_slice(field)
}

fn push_names(out: &mut Vec<u8>, first: &Name, second: &Name) -> Result<(), AllocError>
    ensures { OnOk result (out.new.items ≡ with_fields out.old.items (first.now ∷ second.now ∷ [])) }
{
    push_field(out, first.bytes())?;
    push_field(out, second.bytes())
}

/// Appends the window of a document.
fn push_window(out: &mut Vec<u8>, document: &Name) -> Result<(), AllocError>
    ensures { OnOk result (out.new.items ≡ with_fields out.old.items (window_text document.now ∷ [])) }
{
    out.extend_from_slice(b" @")?;
    out.extend_from_slice(document.bytes())
}

/// Appends a space and a number in decimal. If an allocation fails, the previous contents are kept, but something may have
/// been appended.
#[tactic(auto, using(crate::proofs::Kept::keeps_more, crate::proofs::Kept::keeps_same))]
pub fn push_number(out: &mut Vec<u8>, number: u128) -> Result<(), AllocError>
    ensures ok { OnOk result (out.new.items ≡ with_fields out.old.items (decimal number ∷ [])) }
    ensures kept { StartsWith out.new.items out.old.items }
{
    out.push(b' ')?;
    push_decimal(out, number)
}

/// Appends a length given in units.
#[tactic(auto, using(crate::proofs::Kept::keeps_more, crate::proofs::Kept::keeps_same))]
fn push_length(out: &mut Vec<u8>, units: i64) -> Result<(), AllocError>
    ensures ok { OnOk result (out.new.items ≡ with_fields out.old.items (pixel_text units ∷ [])) }
    ensures kept { StartsWith out.new.items out.old.items }
{
    out.push(b' ')?;
    push_px(out, Px(units))
}

/// Appends the minus sign of a negative number.
#[tactic(auto, unfolding(px_units::specs::Texts::sign_text))]
fn push_sign(out: &mut Vec<u8>, number: i64) -> Result<(), AllocError>
    ensures { OnOk result (out.new.items ≡ out.old.items ++ sign_text number) }
{
    if number < 0 {
        out.push(b'-')?;
    }
    Ok(())
}

/// Appends a whole number, with a minus sign if it is negative.
#[tactic(auto, using(crate::proofs::Joined::whole_pushed))]
fn push_whole(out: &mut Vec<u8>, number: i64) -> Result<(), AllocError>
    ensures { OnOk result (out.new.items ≡ with_fields out.old.items (whole_text number ∷ [])) }
{
    out.push(b' ')?;
    push_sign(out, number)?;
    push_decimal(out, u128::from(number.unsigned_abs()))
}

/// Appends the areas of an intersection and of its target, in square units.
#[tactic(auto, unfolding(script_model::specs::TraceText::ratio_text))]
fn push_ratio(out: &mut Vec<u8>, part: u128, whole: u128) -> Result<(), AllocError>
    ensures { OnOk result (out.new.items ≡ with_fields out.old.items (ratio_text part whole ∷ [])) }
{
    push_number(out, part)?;
    out.push(b'/')?;
    push_decimal(out, whole)
}

/// Appends a rectangle's left and top edge, its width and its height, each after a space. If an allocation fails, the previous
/// contents are kept, but something may have been appended.
#[tactic(auto, using(crate::proofs::Kept::keeps_on))]
pub fn push_rect(out: &mut Vec<u8>, rect: &Rect) -> Result<(), AllocError>
    requires { RectReaches rect.now }
    ensures ok { OnOk result (out.new.items ≡ with_fields out.old.items (rect_fields rect.now)) }
    ensures kept { StartsWith out.new.items out.old.items }
{
    push_length(out, rect.left)?;
    push_length(out, rect.top)?;
    push_length(out, rect.right - rect.left)?;
    push_length(out, rect.bottom - rect.top)
}

fn push_size(out: &mut Vec<u8>, size: &Size) -> Result<(), AllocError>
    requires { SizeReaches size.now }
    ensures { OnOk result (out.new.items ≡ with_fields out.old.items (size_fields size.now)) }
{
    push_length(out, size.width)?;
    push_length(out, size.height)
}

fn push_point(out: &mut Vec<u8>, point: &Point) -> Result<(), AllocError>
    requires { PointReaches point.now }
    ensures { OnOk result (out.new.items ≡ with_fields out.old.items (point_fields point.now)) }
{
    push_length(out, point.left)?;
    push_length(out, point.top)
}

/// Appends a word and a rectangle.
fn push_rect_behind(out: &mut Vec<u8>, word: &[u8], rect: &Rect) -> Result<(), AllocError>
    requires { RectReaches rect.now }
    ensures { OnOk result (out.new.items ≡ with_fields out.old.items (word.now ∷ rect_fields rect.now)) }
{
    push_field(out, word)?;
    push_rect(out, rect)
}

/// Appends the type of an event and its fields.
#[tactic(auto, unfolding(script_model::specs::TraceText::event_fields))]
fn push_event(out: &mut Vec<u8>, event: &EventLine) -> Result<(), AllocError>
    ensures { OnOk result (out.new.items ≡ with_fields out.old.items (event_fields (seen_event event.now))) }
{
    match event {
        EventLine::Resize(document) => {
            push_field(out, b"resize")?;
            push_window(out, document)
        }
        EventLine::Scroll(target) => {
            push_field(out, b"scroll")?;
            push_field(out, target.bytes())
        }
        EventLine::Change(query, matches) => {
            push_field(out, b"change")?;
            push_field(out, query.bytes())?;
            push_bool(out, *matches)
        }
        EventLine::Error(document) => {
            push_field(out, b"error")?;
            push_window(out, document)?;
            push_field(out, MESSAGE)
        }
    }
}

fn push_bool(out: &mut Vec<u8>, value: bool) -> Result<(), AllocError>
    ensures { OnOk result (out.new.items ≡ with_fields out.old.items (bool_text value ∷ [])) }
{
    if value {
        push_field(out, b"true")
    } else {
        push_field(out, b"false")
    }
}

fn push_meets(out: &mut Vec<u8>, meets: bool) -> Result<(), AllocError>
    ensures { OnOk result (out.new.items ≡ with_fields out.old.items (meets_text meets ∷ [])) }
{
    if meets {
        push_field(out, b"yes")
    } else {
        push_field(out, b"no")
    }
}

/// Appends a name and a count or a depth.
fn push_counted(out: &mut Vec<u8>, name: &Name, count: u64) -> Result<(), AllocError>
    ensures { OnOk result (out.new.items ≡ with_fields out.old.items (name.now ∷ decimal count ∷ [])) }
{
    push_field(out, name.bytes())?;
    push_number(out, u128::from(count))
}

fn push_numbers(out: &mut Vec<u8>, first: u64, second: u64) -> Result<(), AllocError>
    ensures { OnOk result (out.new.items ≡ with_fields out.old.items (decimal first ∷ decimal second ∷ [])) }
{
    push_number(out, u128::from(first))?;
    push_number(out, u128::from(second))
}

fn push_throw(out: &mut Vec<u8>, number: u32, kind: ThrowKind) -> Result<(), AllocError>
    ensures { OnOk result (out.new.items ≡ with_fields out.old.items (decimal number ∷ throw_word kind ∷ [])) }
{
    push_number(out, u128::from(number))?;
    push_field(out, kind.text().as_bytes())
}

fn push_limit(out: &mut Vec<u8>, kind: LimitKind, number: u32, most: u64) -> Result<(), AllocError>
    ensures { OnOk result (out.new.items ≡ with_fields out.old.items (limit_word kind ∷ decimal number ∷ decimal most ∷ [])) }
{
    push_field(out, kind.text().as_bytes())?;
    push_numbers(out, u64::from(number), most)
}

/// Appends a size in device pixels.
fn push_pixels(out: &mut Vec<u8>, size: &Size) -> Result<(), AllocError>
    requires { SizeReaches size.now }
    ensures { OnOk result (out.new.items ≡ with_fields out.old.items (device_fields (Some size.now))) }
{
    push_field(out, b"device")?;
    push_whole(out, size.width)?;
    push_whole(out, size.height)
}

/// Appends a size in device pixels, if there is one.
#[tactic(auto, unfolding(script_model::specs::TraceText::device_fields))]
fn push_device(out: &mut Vec<u8>, device: &Option<Size>) -> Result<(), AllocError>
    requires { IfSome device.now SizeReaches }
    ensures { OnOk result (out.new.items ≡ with_fields out.old.items (device_fields device.now)) }
{
    match device {
        Some(size) => push_pixels(out, size),
        None => Ok(()),
    }
}

/// Appends a content rectangle, the size of the border box and, if there is one, the size in device pixels.
fn push_boxes(
    out: &mut Vec<u8>,
    rect: &Rect,
    border: &Size,
    device: &Option<Size>,
) -> Result<(), AllocError>
    requires rect { RectReaches rect.now }
    requires border { SizeReaches border.now }
    requires device { IfSome device.now SizeReaches }
    ensures { OnOk result (out.new.items ≡ with_fields out.old.items ((codes "rect" ∷ rect_fields rect.now) ++ (codes "border" ∷ size_fields border.now) ++ device_fields device.now)) }
{
    push_rect_behind(out, b"rect", rect)?;
    push_field(out, b"border")?;
    push_size(out, border)?;
    push_device(out, device)
}

fn push_resize(
    out: &mut Vec<u8>,
    observer: &Name,
    target: &Name,
    rect: &Rect,
    border: &Size,
    device: &Option<Size>,
) -> Result<(), AllocError>
    requires rect { RectReaches rect.now }
    requires border { SizeReaches border.now }
    requires device { IfSome device.now SizeReaches }
    ensures { OnOk result (out.new.items ≡ with_fields out.old.items (fields_of (ResizeLine observer.now target.now rect.now border.now device.now))) }
{
    push_names(out, observer, target)?;
    push_boxes(out, rect, border, device)
}

fn push_read(
    out: &mut Vec<u8>,
    target: &Name,
    rect: &Rect,
    scroll: &Point,
) -> Result<(), AllocError>
    requires rect { RectReaches rect.now }
    requires scroll { PointReaches scroll.now }
    ensures { OnOk result (out.new.items ≡ with_fields out.old.items (fields_of (ReadLine target.now rect.now scroll.now))) }
{
    push_field(out, target.bytes())?;
    push_rect(out, rect)?;
    push_point(out, scroll)
}

/// Appends the observer, the target, the time, whether the target is intersecting, and the areas.
fn push_seen(
    out: &mut Vec<u8>,
    observer: &Name,
    target: &Name,
    time: u64,
    meets: bool,
    part: u128,
    whole: u128,
) -> Result<(), AllocError>
    ensures { OnOk result (out.new.items ≡ with_fields out.old.items (observer.now ∷ target.now ∷ decimal time ∷ meets_text meets ∷ ratio_text part whole ∷ [])) }
{
    push_names(out, observer, target)?;
    push_number(out, u128::from(time))?;
    push_meets(out, meets)?;
    push_ratio(out, part, whole)
}

/// Appends the rectangles of the root, the target and the intersection.
fn push_rects(out: &mut Vec<u8>, root: &Rect, bounds: &Rect, cut: &Rect) -> Result<(), AllocError>
    requires root { RectReaches root.now }
    requires bounds { RectReaches bounds.now }
    requires cut { RectReaches cut.now }
    ensures { OnOk result (out.new.items ≡ with_fields out.old.items ((codes "root" ∷ rect_fields root.now) ++ (codes "box" ∷ rect_fields bounds.now) ++ (codes "cut" ∷ rect_fields cut.now))) }
{
    push_rect_behind(out, b"root", root)?;
    push_rect_behind(out, b"box", bounds)?;
    push_rect_behind(out, b"cut", cut)
}

/// Appends the fields after the kind.
#[tactic(auto, unfolding(script_model::specs::TraceText::fields_of))]
fn push_fields(out: &mut Vec<u8>, line: &TraceLine) -> Result<(), AllocError>
    requires { HasReach (seen_line line.now) }
    ensures { OnOk result (out.new.items ≡ with_fields out.old.items (fields_of (seen_line line.now))) }
{
    match line {
        TraceLine::Tick(time) => push_number(out, u128::from(*time)),
        TraceLine::Timer(document, key) => push_names(out, document, key),
        TraceLine::Frame(document, key) => push_names(out, document, key),
        TraceLine::Task(document, handler) => push_names(out, document, handler),
        TraceLine::Event(event) => push_event(out, event),
        TraceLine::Resize {
            observer,
            target,
            rect,
            border,
            device,
        } => push_resize(out, observer, target, rect, border, device),
        TraceLine::Round(document, depth) => push_counted(out, document, u64::from(*depth)),
        TraceLine::Intersect {
            observer,
            target,
            time,
            meets,
            part,
            whole,
            root,
            bounds,
            cut,
        } => {
            push_seen(out, observer, target, *time, *meets, *part, *whole)?;
            push_rects(out, root, bounds, cut)
        }
        TraceLine::Take(observer, count) => push_counted(out, observer, *count),
        TraceLine::Say(word) => push_field(out, word.bytes()),
        TraceLine::Read {
            target,
            rect,
            scroll,
        } => push_read(out, target, rect, scroll),
        TraceLine::Throw(number, kind) => push_throw(out, *number, *kind),
        TraceLine::Limit(kind, number, most) => push_limit(out, *kind, *number, *most),
        TraceLine::Syntax(number, column) => {
            push_numbers(out, u64::from(*number), u64::from(*column))
        }
    }
}
