//! The box of one element: computed from its inputs and from the heights in it, and read.

ghost use Rattle.std.specs.Prelude.{◌≡◌, ◌+◌, ◌≤◌, pos, ◌≤ℤ◌, cond, Some, None, unsigned_abs, IfSome};
ghost use Rattle.layout_model.specs.Boxes.{computed, child_inputs, content_size, border_size, padding_size, content_corner, inner_corner, padding_corner, margin_height, has_definite_height};
ghost use Rattle.layout_model.specs.Items.{Item};
ghost use Rattle.style_values.specs.Seen.{seen_style};
ghost use Rattle.block_layout.specs.Ranges.{IsInputs, IsBox};
ghost use Rattle.block_layout.specs.Around.{seen_given, seen_extent};
ghost use Rattle.block_layout.specs.Seen.{seen_inputs, seen_item, as_size, as_point};

use crate::numbers::against;
use crate::sizes::{Around, Extent, around_content, is_stretched, used_height, used_width};
use crate::{Inputs, ItemKind, Styled};
use px_units::{BoxKind, Point, Size};
use std::marker::Model;
use std::sync::ledger::Ledger;
use step_count::Steps;
use style_values::Style;

/// The box of an element: the used size of its content, and its margins, borders and paddings (CSS 2.2, 8.1). Each is
/// from 0 to 2,147,483,647 units. A contract sees it as the box of the definitions of layout.
///
/// Only `compute_box`, `fresh_box` and `FreshBoxes::fill` create one.
#[derive(Clone, Copy, Debug, PartialEq, Eq)]
pub struct BoxOf {
    width: u64,
    height: u64,
    around: Around,
}

impl Model for BoxOf {
    ghost use Rattle.layout_model.specs.Boxes.{Box};
    ghost use Rattle.block_layout.specs.Around.{seen_edges, as_edges};
    ghost use Rattle.block_layout.specs.Ranges.{IsBox};

    ghost Value = { Box };

    ghost view = { λ b. record { width = b.width; height = b.height; margin = seen_edges b.around.margin; border = seen_edges b.around.border; padding = seen_edges b.around.padding } };

    ghost inverse = { λ v. record { width = v.width; height = v.height; around = record { margin = as_edges v.margin; border = as_edges v.border; padding = as_edges v.padding } } };

    ghost invariant = { λ b. IsBox (record { width = b.width; height = b.height; margin = seen_edges b.around.margin; border = seen_edges b.around.border; padding = seen_edges b.around.padding }) };
}

impl BoxOf {
    /// Returns the size of the content box or of the border box; for `Device` that of the content box, from which device
    /// pixels are computed.
    pub fn size(&self, kind: BoxKind) -> Size
        ensures content { kind ≡ BoxKind.Content → result ≡ as_size (content_size self.now) }
        ensures border { kind ≡ BoxKind.Border → result ≡ as_size (border_size self.now) }
        ensures device { kind ≡ BoxKind.Device → result ≡ as_size (content_size self.now) }
        ensures range { IsBox self.now }
    {
        match kind {
            BoxKind::Content | BoxKind::Device => self.content_extent().size(),
            BoxKind::Border => self.border_extent().size(),
        }
    }

    /// Returns the size of the padding box.
    pub fn padding_size(&self) -> Size
        ensures value { result ≡ as_size (padding_size self.now) }
        ensures range { IsBox self.now }
    {
        self.padding_extent().size()
    }

    /// Returns the top left corner of the content box relative to the padding box: the left and top paddings.
    pub fn content_corner(&self) -> Point
        ensures value { result ≡ as_point (content_corner self.now) }
        ensures range { IsBox self.now }
    {
        let padding = self.around.padding;
        Point {
            left: padding.left as i64,
            top: padding.top as i64,
        }
    }

    /// Returns the top left corner of the content box relative to the border box: the left and top borders and paddings.
    pub fn inner(&self) -> Point
        ensures value { result ≡ as_point (inner_corner self.now) }
        ensures range { IsBox self.now }
    {
        self.inner_corner().point()
    }

    /// Returns the top left corner of the padding box relative to the border box: the left and top borders.
    pub fn padding_corner(&self) -> Point
        ensures value { result ≡ as_point (padding_corner self.now) }
        ensures range { IsBox self.now }
    {
        self.padding_offset().point()
    }

    /// Returns the top left corner of the border box relative to the margin box: the left and top margins.
    pub fn margin_corner(&self) -> Point
        ensures value { result ≡ as_point (self.now.margin.left, self.now.margin.top) }
        ensures range { IsBox self.now }
    {
        self.margin_offset().point()
    }

    /// Returns the height of the margin box.
    pub fn margin_height(&self) -> i64
        ensures value { result ≡ pos (margin_height self.now) }
        ensures range { IsBox self.now }
    {
        self.margin_units() as i64
    }

    fn content_extent(&self) -> Extent
        ensures value { seen_extent result ≡ content_size self.now }
        ensures range { IsBox self.now }
    {
        Extent {
            across: self.width,
            down: self.height,
        }
    }

    pub(crate) fn padding_extent(&self) -> Extent
        ensures value { seen_extent result ≡ padding_size self.now }
        ensures range { IsBox self.now }
    {
        let padding = self.around.padding;
        Extent {
            across: padding.left + self.width + padding.right,
            down: padding.top + self.height + padding.bottom,
        }
    }

    pub(crate) fn border_extent(&self) -> Extent
        ensures value { seen_extent result ≡ border_size self.now }
        ensures range { IsBox self.now }
    {
        let inside = self.padding_extent();
        let border = self.around.border;
        Extent {
            across: border.left + inside.across + border.right,
            down: border.top + inside.down + border.bottom,
        }
    }

    pub(crate) fn inner_corner(&self) -> Extent
        ensures value { seen_extent result ≡ inner_corner self.now }
        ensures range { IsBox self.now }
    {
        let Around {
            border,
            padding,
            ..
        } = self.around;
        Extent {
            across: border.left + padding.left,
            down: border.top + padding.top,
        }
    }

    pub(crate) fn padding_offset(&self) -> Extent
        ensures value { seen_extent result ≡ padding_corner self.now }
        ensures range { IsBox self.now }
    {
        let border = self.around.border;
        Extent {
            across: border.left,
            down: border.top,
        }
    }

    pub(crate) fn margin_offset(&self) -> Extent
        ensures value { seen_extent result ≡ (self.now.margin.left, self.now.margin.top) }
        ensures range { IsBox self.now }
    {
        let margin = self.around.margin;
        Extent {
            across: margin.left,
            down: margin.top,
        }
    }

    pub(crate) fn margin_units(&self) -> u64
        ensures value { result ≡ margin_height self.now }
        ensures range { IsBox self.now }
    {
        let margin = self.around.margin;
        margin.top + self.border_extent().down + margin.bottom
    }
}

// Inputs by their absolute values.
#[derive(Clone, Copy)]
pub(crate) struct Given {
    pub(crate) width: u64,
    pub(crate) height: Option<u64>,
    pub(crate) flow: bool,
}

fn unsigned(inputs: Inputs) -> Given
    ensures { seen_given result ≡ seen_inputs inputs }
{
    Given {
        width: inputs.width.unsigned_abs(),
        height: inputs.height.map(|height| height.unsigned_abs()),
        flow: inputs.flow,
    }
}

// The box of an element of this style and kind.
fn laid_out(style: &Style, kind: ItemKind, inputs: Given, inside: u64) -> BoxOf
    ensures value { result ≡ computed (seen_item style.now kind) (seen_given inputs) inside }
    ensures range { IsBox result }
{
    let around = around_content(style, inputs.width);
    BoxOf {
        width: used_width(style, kind, inputs, around),
        height: used_height(style, kind, inputs, inside, around),
        around,
    }
}

fn signed(units: u64) -> i64
    requires { units ≤ 2147483647 }
    ensures { result ≡ pos units }
{
    units as i64
}

// Returns the used height if it doesn't depend on the children: it is given, or determined by insets (CSS 2.2, 10.5 and
// 10.6.4).
fn definite_height(style: &Style, inputs: Given, used: u64) -> Option<i64>
    requires { used ≤ 2147483647 }
    ensures value { (item : Item) → item.style ≡ seen_style style.now → result ≡ cond (has_definite_height item (seen_given inputs)) (Some (pos used)) None }
    ensures tall { IfSome result (λ height. pos 0 ≤ℤ height) }
    ensures low { IfSome result (λ height. height ≤ℤ pos 2147483647) }
{
    if against(style.height, inputs.height).is_some() || is_stretched(style, inputs) {
        Some(signed(used))
    } else {
        None
    }
}

fn handed_down(style: &Style, kind: ItemKind, inputs: Given) -> Inputs
    ensures value { seen_inputs result ≡ child_inputs (seen_item style.now kind) (seen_given inputs) }
    ensures range { IsInputs result }
{
    let whole = laid_out(style, kind, inputs, 0);
    Inputs {
        width: signed(whole.width),
        height: definite_height(style, inputs, whole.height),
        flow: true,
    }
}

/// Returns the inputs of an element's children in flow, from its own: its used content width, and its used content height if
/// its `height` is a length, or a percentage of a definite height, or if the element is out of flow and stretched between its
/// `top` and `bottom` (CSS 2.2, 10.1, 10.5 and 10.6.4). They don't depend on the children.
pub fn child_inputs<P: Styled>(item: &P, inputs: Inputs) -> Inputs
    ensures value { seen_inputs result ≡ child_inputs (record { style = P.style item.now; kind = P.kind item.now }) (seen_inputs inputs) }
    ensures range { IsInputs result }
{
    handed_down(item.style(), item.kind(), unsigned(inputs))
}

/// Computes the box of an element from its inputs and from `inside`, the sum of the margin box heights of its children in
/// flow that have a box (CSS 2.2, 8 to 10). It takes one step.
pub fn compute_box<P: Styled, L: Ledger>(
    item: &P,
    inputs: Inputs,
    inside: i64,
    steps: &mut Steps<L>,
) -> BoxOf
    ensures value { result ≡ computed (record { style = P.style item.now; kind = P.kind item.now }) (seen_inputs inputs) (unsigned_abs inside) }
    ensures range { IsBox result }
    ensures ticks { steps.new ≡ steps.old + 1 }
{
    steps.tick();
    laid_out(
        item.style(),
        item.kind(),
        unsigned(inputs),
        inside.unsigned_abs(),
    )
}
