ghost use Rattle.std.specs.Prelude.{◌≡◌, ◌<◌, ◌+ℤ◌, ◌-ℤ◌, length, option_and_then, IfOk, OnErr, IfErr};
ghost use Rattle.script_model.specs.MarginText.{completed, margins_of};
ghost use Rattle.page_model.specs.Chains.{moved_out};
ghost use Rattle.px_units.specs.Rects.{RectInReach};
ghost use Rattle.thresholds.specs.Parts.{seen_part, IsWithinForm, read_all, after};
ghost use Rattle.thresholds.specs.Roots.{IsRootRect, IsMargin, IsNear};
ghost use Rattle.thresholds.specs.declared.ThresholdFault.TheVariants.{MarginSyntax};

use crate::ThresholdFault;
use crate::parts::{Part, first_part, units};
use px_units::{Px, Rect};
use std::marker::Model;

/// The four root margins of an intersection observer (Intersection Observer, 2.2.1: `rootMargin`). Contracts see them as the
/// margins of the definitions.
#[derive(Clone, Copy)]
pub struct Margins {
    top: Part,
    right: Part,
    bottom: Part,
    left: Part,
}

impl Model for Margins {
    ghost use Rattle.script_model.specs.Margins.{Margins as RootMargins};

    ghost Value = { RootMargins };

    ghost use Rattle.thresholds.specs.Parts.{seen_part, part_for, IsWithinForm};
    ghost use Rattle.thresholds.specs.Sides.{made_again};

    ghost view = { λ m. record { top = seen_part m.top; right = seen_part m.right; bottom = seen_part m.bottom; left = seen_part m.left } };

    ghost invariant = { λ m. IsWithinForm m.top × IsWithinForm m.right × IsWithinForm m.bottom × IsWithinForm m.left };

    ghost inverse = { λ m. record { top = part_for m.top; right = part_for m.right; bottom = part_for m.bottom; left = part_for m.left } };

    ghost inverse_ok = { λ m _. made_again m };
}

/// Builds margins from four components.
fn sides(top: Part, right: Part, bottom: Part, left: Part) -> Margins
    requires top { IsWithinForm top }
    requires right { IsWithinForm right }
    requires bottom { IsWithinForm bottom }
    requires left { IsWithinForm left }
    ensures { result ≡ record { top = seen_part top; right = seen_part right; bottom = seen_part bottom; left = seen_part left } }
{
    Margins {
        top,
        right,
        bottom,
        left,
    }
}

/// Returns the rectangle with each edge moved outward by the given number of units.
#[tactic(auto, using(crate::proofs::Sums::less, crate::proofs::Sums::more))]
fn outward(root: Rect, left: i64, top: i64, right: i64, bottom: i64) -> Rect
    requires root { IsRootRect root }
    requires left { IsMargin left }
    requires top { IsMargin top }
    requires right { IsMargin right }
    requires bottom { IsMargin bottom }
    ensures moved { result ≡ record { left = root.left -ℤ left; top = root.top -ℤ top; right = root.right +ℤ right; bottom = root.bottom +ℤ bottom } }
    ensures bound { RectInReach result }
    ensures near { IsNear root result }
{
    Rect {
        left: root.left - left,
        top: root.top - top,
        right: root.right + right,
        bottom: root.bottom + bottom,
    }
}

/// Parses the fourth component, the first three being given.
#[tactic(auto, using(crate::proofs::Reading::too_many, crate::proofs::Reading::never_empty), unfolding(script_model::specs::MarginText::completed, script_model::specs::MarginText::parts_read))]
fn from_fourth(top: Part, right: Part, bottom: Part, text: &[u8]) -> Option<Margins>
    requires top { IsWithinForm top }
    requires right { IsWithinForm right }
    requires bottom { IsWithinForm bottom }
    ensures { result ≡ option_and_then completed (after (seen_part top) (after (seen_part right) (after (seen_part bottom) (read_all text.now)))) }
{
    let (left, rest) = first_part(text)?;
    match rest {
        None => Some(sides(top, right, bottom, left)),
        Some(_) => None,
    }
}

/// Parses the third and any further component, the first two being given.
#[tactic(auto, unfolding(script_model::specs::MarginText::completed, script_model::specs::MarginText::parts_read))]
fn from_third(top: Part, right: Part, text: &[u8]) -> Option<Margins>
    requires top { IsWithinForm top }
    requires right { IsWithinForm right }
    ensures { result ≡ option_and_then completed (after (seen_part top) (after (seen_part right) (read_all text.now))) }
{
    let (bottom, rest) = first_part(text)?;
    match rest {
        None => Some(sides(top, right, bottom, right)),
        Some(rest) => from_fourth(top, right, bottom, rest),
    }
}

/// Parses the second and any further component, the first being given.
#[tactic(auto, unfolding(script_model::specs::MarginText::completed, script_model::specs::MarginText::parts_read))]
fn from_second(top: Part, text: &[u8]) -> Option<Margins>
    requires { IsWithinForm top }
    ensures { result ≡ option_and_then completed (after (seen_part top) (read_all text.now)) }
{
    let (right, rest) = first_part(text)?;
    match rest {
        None => Some(sides(top, right, top, right)),
        Some(rest) => from_third(top, right, rest),
    }
}

/// Parses a text that isn't empty.
#[tactic(auto, using(crate::proofs::Reading::margins_is), unfolding(script_model::specs::MarginText::completed, script_model::specs::MarginText::parts_read))]
fn read_margins(text: &[u8]) -> Option<Margins>
    requires { 0 < length text.now }
    ensures { result ≡ margins_of text.now }
{
    let (top, rest) = first_part(text)?;
    match rest {
        None => Some(sides(top, top, top, top)),
        Some(rest) => from_second(top, rest),
    }
}

impl Margins {
    /// Parses root margins (Intersection Observer, 3.1: parse a root margin): zero to four components separated by single
    /// spaces, each a number with `px` or `%`, completed to top, right, bottom and left as in CSS. An empty text means 0px on
    /// each side.
    ///
    /// A number is an optional `-`, 1 to 7 digits, and optionally a point and 1 or 2 digits; its magnitude is at most
    /// 1,000,000 pixels, truncated toward zero to units of 1/64 pixel, or 10,000 percent.
    ///
    /// `MarginSyntax` exactly when the text isn't of this form; a number without a unit is an error, zero included.
    pub fn parse(text: &[u8]) -> Result<Margins, ThresholdFault>
        ensures ok { IfOk result (λ margins. margins_of text.now ≡ Some margins) }
        ensures none { OnErr result (margins_of text.now ≡ None) }
        ensures err { IfErr result (λ fault. fault ≡ MarginSyntax) }
    {
        if text.is_empty() {
            let zero = Part::Pixels(Px(0));
            return Ok(sides(zero, zero, zero, zero));
        }
        read_margins(text).ok_or(ThresholdFault::MarginSyntax)
    }

    /// Returns the root rectangle with its edges moved outward by these margins (Intersection Observer, 2.2.1: root
    /// intersection rectangle), in units of 1/64 pixel, x to the right and y downwards. A percentage is resolved against the
    /// rectangle's width before it is moved, on all four sides, and truncated toward zero. Negative margins may invert the
    /// rectangle.
    ///
    /// The edges of the rectangle lie between -2^48 and 2^48 and its width between -2^42 and 2^42; the edges of the result
    /// lie between -2^50 and 2^50, each at most 439,804,651,110,400 units from that of the rectangle.
    pub fn dilate(&self, root: Rect) -> Rect
        requires { IsRootRect root }
        ensures moved { result ≡ moved_out self.now root }
        ensures bound { RectInReach result }
        ensures near { IsNear root result }
    {
        let width = root.right - root.left;
        let left = units(self.left, width);
        let top = units(self.top, width);
        let right = units(self.right, width);
        let bottom = units(self.bottom, width);
        outward(root, left, top, right, bottom)
    }
}
