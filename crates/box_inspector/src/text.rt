//! The text of a box.

ghost use Rattle.std.specs.Prelude.{◌≡◌, ◌++◌, IfSome, OnOk, OnErr};
ghost use Rattle.trace_text.specs.Fields.{with_fields};
ghost use Rattle.trace_text.specs.Ranges.{RectReaches};
ghost use Rattle.box_inspector.specs.BoxText.{box_fields, box_text, seen_fields};
ghost use Rattle.box_inspector.specs.Ranges.{BoxReaches};

use crate::lines::BoxLine;
use px_units::Rect;
use std::alloc::{AllocError, Global};
use trace_text::{push_field, push_number, push_rect};

// Appends the visible part of a box.
fn push_seen(out: &mut Vec<u8>, seen: &Option<Rect>) -> Result<(), AllocError>
    requires { IfSome seen.now RectReaches }
    ensures { OnOk result (out.new.items ≡ with_fields out.old.items (seen_fields seen.now)) }
{
    match seen {
        Some(part) => {
            push_field(out, b"seen")?;
            push_rect(out, part)
        }
        None => push_field(out, b"hidden"),
    }
}

fn push_fields(out: &mut Vec<u8>, line: &BoxLine) -> Result<(), AllocError>
    requires { BoxReaches line.now }
    ensures { OnOk result (out.new.items ≡ with_fields out.old.items (box_fields line.now)) }
{
    push_field(out, line.name.bytes())?;
    push_number(out, u128::from(line.depth))?;
    push_rect(out, &line.place)?;
    push_seen(out, &line.seen)
}

/// Appends the text of a box, which ends with a line feed: `box`, its element's name and depth, its place as left, top, width
/// and height, and its visible part, all in CSS pixels. Each edge, width and height of the line lies between -2^50 and 2^50
/// units.
///
/// # Errors
///
/// If an allocation fails; nothing is appended then.
#[tactic(auto, using(crate::proofs::Texts::box_text_is))]
pub fn write_box(alloc: Global, line: &BoxLine, into: &mut Vec<u8>) -> Result<(), AllocError>
    requires { BoxReaches line.now }
    ensures ok { OnOk result (into.new.items ≡ into.old.items ++ box_text line.now) }
    ensures err { OnErr result (into.new.items ≡ into.old.items) }
{
    let mut text = Vec::from_slice(alloc, b"box")?;
    push_fields(&mut text, line)?;
    text.push(b'\n')?;
    into.extend_from_slice(text.as_slice())
}
