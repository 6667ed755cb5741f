//! Used widths and heights of a box, and the edges around its content.

ghost use Rattle.std.specs.Prelude.{◌≡◌, ◌^◌, ◌<◌, ◌≤◌};
ghost use Rattle.px_units.specs.Lengths.{cap};
ghost use Rattle.layout_model.specs.Boxes.{used_side, used_insets, left_between, is_stretched, used_width, used_height, automatic_width, automatic_height, on_sides};
ghost use Rattle.style_values.specs.Seen.{seen_style};
ghost use Rattle.block_layout.specs.Around.{seen_edges, seen_extent, seen_given, IsAround};
ghost use Rattle.block_layout.specs.Ranges.{IsSides};
ghost use Rattle.block_layout.specs.Seen.{seen_kind, seen_item, as_size, as_point};

use crate::ItemKind;
use crate::boxes::Given;
use crate::numbers::{Axis, inset, used_side};
use layout_model::{LARGEST, capped};
use px_units::{Point, Size};
use style_values::Style;

// The automatic size of a frame, 300 by 150 pixels (CSS 2.2, 10.3.2 and 10.6.2).
const FRAME_WIDTH: u64 = 19_200;

const FRAME_HEIGHT: u64 = 9_600;

// One length per side.
#[derive(Clone, Copy, Debug, PartialEq, Eq)]
pub(crate) struct Edges {
    pub(crate) top: u64,
    pub(crate) right: u64,
    pub(crate) bottom: u64,
    pub(crate) left: u64,
}

// The edges around the content of a box.
#[derive(Clone, Copy, Debug, PartialEq, Eq)]
pub(crate) struct Around {
    pub(crate) margin: Edges,
    pub(crate) border: Edges,
    pub(crate) padding: Edges,
}

// Two lengths, to the right and downwards: a size, or an offset.
#[derive(Clone, Copy)]
pub(crate) struct Extent {
    pub(crate) across: u64,
    pub(crate) down: u64,
}

impl Extent {
    pub(crate) fn size(self) -> Size
        requires across { self.across < 2 ^ 63 }
        requires down { self.down < 2 ^ 63 }
        ensures { result ≡ as_size (seen_extent self) }
    {
        Size {
            width: self.across as i64,
            height: self.down as i64,
        }
    }

    pub(crate) fn point(self) -> Point
        requires across { self.across < 2 ^ 63 }
        requires down { self.down < 2 ^ 63 }
        ensures { result ≡ as_point (seen_extent self) }
    {
        Point {
            left: self.across as i64,
            top: self.down as i64,
        }
    }
}

fn margins(style: &Style, width: u64) -> Edges
    ensures value { seen_edges result ≡ on_sides (used_side width) (seen_style style.now).margin }
    ensures bound { IsSides (seen_edges result) }
{
    Edges {
        top: used_side(width, style.margin_top),
        right: used_side(width, style.margin_right),
        bottom: used_side(width, style.margin_bottom),
        left: used_side(width, style.margin_left),
    }
}

fn borders(style: &Style) -> Edges
    ensures value { seen_edges result ≡ on_sides cap (seen_style style.now).border }
    ensures bound { IsSides (seen_edges result) }
{
    Edges {
        top: capped(style.border_top.0.unsigned_abs()),
        right: capped(style.border_right.0.unsigned_abs()),
        bottom: capped(style.border_bottom.0.unsigned_abs()),
        left: capped(style.border_left.0.unsigned_abs()),
    }
}

fn paddings(style: &Style, width: u64) -> Edges
    ensures value { seen_edges result ≡ on_sides (used_side width) (seen_style style.now).padding }
    ensures bound { IsSides (seen_edges result) }
{
    Edges {
        top: used_side(width, style.padding_top),
        right: used_side(width, style.padding_right),
        bottom: used_side(width, style.padding_bottom),
        left: used_side(width, style.padding_left),
    }
}

pub(crate) fn around_content(style: &Style, width: u64) -> Around
    ensures margin { seen_edges result.margin ≡ on_sides (used_side width) (seen_style style.now).margin }
    ensures border { seen_edges result.border ≡ on_sides cap (seen_style style.now).border }
    ensures padding { seen_edges result.padding ≡ on_sides (used_side width) (seen_style style.now).padding }
    ensures bound { IsAround result }
{
    Around {
        margin: margins(style, width),
        border: borders(style),
        padding: paddings(style, width),
    }
}

// Returns what insets on both sides and the edges around the content leave of a containing block, capped at the largest
// length.
fn left_between(containing: u64, one: Option<i64>, other: Option<i64>, around: u64) -> u64
    ensures { result ≡ cap (left_between containing one other around) }
{
    let insets = i128::from(one.unwrap_or(0)) + i128::from(other.unwrap_or(0));
    let left = i128::from(containing) - insets - i128::from(around);
    left.max(0).min(i128::from(LARGEST)) as u64
}

// The insets on both sides of an axis.
#[derive(Clone, Copy)]
struct Insets {
    one: Option<i64>,
    other: Option<i64>,
}

fn horizontal(style: &Style, inputs: Given) -> Insets
    ensures one { result.one ≡ (used_insets (seen_style style.now).inset (seen_given inputs)).left }
    ensures other { result.other ≡ (used_insets (seen_style style.now).inset (seen_given inputs)).right }
{
    Insets {
        one: inset(style.left, Some(inputs.width)),
        other: inset(style.right, Some(inputs.width)),
    }
}

fn vertical(style: &Style, inputs: Given) -> Insets
    ensures one { result.one ≡ (used_insets (seen_style style.now).inset (seen_given inputs)).top }
    ensures other { result.other ≡ (used_insets (seen_style style.now).inset (seen_given inputs)).bottom }
{
    Insets {
        one: inset(style.top, inputs.height),
        other: inset(style.bottom, inputs.height),
    }
}

// Whether a box out of flow has both vertical insets, so that a block of automatic height is stretched between them.
pub(crate) fn is_stretched(style: &Style, inputs: Given) -> bool
    ensures { result ≡ is_stretched (seen_given inputs) (used_insets (seen_style style.now).inset (seen_given inputs)) }
{
    let insets = vertical(style, inputs);
    !inputs.flow && insets.one.is_some() && insets.other.is_some()
}

// Returns the width for `auto`, exact once capped at the largest length.
fn automatic_width(style: &Style, kind: ItemKind, inputs: Given, around: u64) -> u64
    ensures { cap result ≡ cap (automatic_width (seen_kind kind) (seen_given inputs) (used_insets (seen_style style.now).inset (seen_given inputs)) around) }
{
    match kind {
        ItemKind::Block if inputs.flow => inputs.width.saturating_sub(around),
        ItemKind::Block => {
            let insets = horizontal(style, inputs);
            left_between(inputs.width, insets.one, insets.other, around)
        }
        ItemKind::Image(natural) => natural.width.unsigned_abs(),
        ItemKind::Frame => FRAME_WIDTH,
    }
}

// Returns the height for `auto`, exact once capped at the largest length.
fn automatic_height(style: &Style, kind: ItemKind, inputs: Given, inside: u64, around: u64) -> u64
    ensures { cap result ≡ cap (automatic_height (seen_kind kind) (seen_given inputs) (used_insets (seen_style style.now).inset (seen_given inputs)) inside around) }
{
    match kind {
        ItemKind::Block if is_stretched(style, inputs) => {
            let insets = vertical(style, inputs);
            left_between(inputs.height.unwrap_or(0), insets.one, insets.other, around)
        }
        ItemKind::Block => inside,
        ItemKind::Image(natural) => natural.height.unsigned_abs(),
        ItemKind::Frame => FRAME_HEIGHT,
    }
}

// Returns the used content width (CSS 2.2, 10.3 and 10.4).
pub(crate) fn used_width(style: &Style, kind: ItemKind, inputs: Given, around: Around) -> u64
    requires { IsAround around }
    ensures value { result ≡ used_width (seen_item style.now kind) (seen_given inputs) (seen_edges around.margin) (seen_edges around.border) (seen_edges around.padding) }
    ensures bound { result ≤ 2147483647 }
{
    let Around {
        margin,
        border,
        padding,
    } = around;
    let edges = border.left + padding.left + padding.right + border.right;
    let axis = Axis {
        sizing: style.box_sizing,
        edges,
        basis: Some(inputs.width),
        size: style.width,
        least: style.min_width,
        most: style.max_width,
    };
    axis.used(automatic_width(style, kind, inputs, margin.left + edges + margin.right))
}

// Returns the used content height, `inside` being the sum of the heights in it (CSS 2.2, 10.5 to 10.7).
pub(crate) fn used_height(
    style: &Style,
    kind: ItemKind,
    inputs: Given,
    inside: u64,
    around: Around,
) -> u64
    requires { IsAround around }
    ensures value { result ≡ used_height (seen_item style.now kind) (seen_given inputs) inside (seen_edges around.margin) (seen_edges around.border) (seen_edges around.padding) }
    ensures bound { result ≤ 2147483647 }
{
    let Around {
        margin,
        border,
        padding,
    } = around;
    let edges = border.top + padding.top + padding.bottom + border.bottom;
    let axis = Axis {
        sizing: style.box_sizing,
        edges,
        basis: inputs.height,
        size: style.height,
        least: style.min_height,
        most: style.max_height,
    };
    axis.used(automatic_height(
        style,
        kind,
        inputs,
        inside,
        margin.top + edges + margin.bottom,
    ))
}
