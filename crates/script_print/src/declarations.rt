//! Printing of declarations: the words of a property and its value.

ghost use Rattle.std.specs.Prelude.{◌≡◌, ◌++◌, ◌∷◌, [], option_map, unsigned_abs, OnOk};
ghost use Rattle.px_units.specs.Lengths.{Automatic, Pixels, Percentage, AutomaticInset, InsetPixels, InsetPercentage, seen_length, seen_inset};
ghost use Rattle.script_print.specs.Spaced.{spaced};
ghost use Rattle.script_text.specs.DeclarationText.{side_text, display_text, size_text, none_or_text, box_sizing_text, overflow_text, position_text, inset_text, property_text, value_text};
ghost use Rattle.style_values.specs.Seen.{seen_display, seen_box_sizing, seen_overflow, seen_position, seen_sides, seen_declaration};

use crate::numbers::{push_percent, push_signed, push_signed_percent};
use media_queries::push_length;
use px_units::{Length, Percent, Px};
use std::alloc::AllocError;
use style_values::{BoxSizing, Declaration, Display, Overflow, Position, Sides};

fn side_text(sides: Sides) -> &'static [u8]
    ensures { result.now ≡ side_text (seen_sides sides) }
{
    match sides {
        Sides::Top => b"-top",
        Sides::Right => b"-right",
        Sides::Bottom => b"-bottom",
        Sides::Left => b"-left",
        Sides::All => b"",
    }
}

fn display_text(display: Display) -> &'static [u8]
    ensures { result.now ≡ display_text (seen_display display) }
{
    match display {
        Display::Block => b"block",
        Display::Hidden => b"none",
    }
}

fn box_sizing_text(box_sizing: BoxSizing) -> &'static [u8]
    ensures { result.now ≡ box_sizing_text (seen_box_sizing box_sizing) }
{
    match box_sizing {
        BoxSizing::Content => b"content-box",
        BoxSizing::Border => b"border-box",
    }
}

fn overflow_text(overflow: Overflow) -> &'static [u8]
    ensures { result.now ≡ overflow_text (seen_overflow overflow) }
{
    match overflow {
        Overflow::Visible => b"visible",
        Overflow::Hidden => b"hidden",
        Overflow::Clip => b"clip",
        Overflow::Scroll => b"scroll",
        Overflow::Auto => b"auto",
    }
}

fn position_text(position: Position) -> &'static [u8]
    ensures { result.now ≡ position_text (seen_position position) }
{
    match position {
        Position::Static => b"static",
        Position::Relative => b"relative",
        Position::Absolute => b"absolute",
        Position::Fixed => b"fixed",
    }
}

#[tactic(auto, using(crate::proofs::Digits::pixels_pushed))]
fn push_pixels(into: &mut Vec<u8>, px: Px) -> Result<(), AllocError>
    ensures { OnOk result (into.new.items ≡ into.old.items ++ size_text (Pixels (unsigned_abs px.0))) }
{
    let units = px.0.unsigned_abs();
    push_length(into, units)?;
    Ok(())
}

#[tactic(auto, using(crate::proofs::Digits::percentage_pushed))]
fn push_percentage(into: &mut Vec<u8>, percent: Percent) -> Result<(), AllocError>
    ensures { OnOk result (into.new.items ≡ into.old.items ++ size_text (Percentage (unsigned_abs percent.0))) }
{
    let hundredths = percent.0.unsigned_abs();
    push_percent(into, u64::from(hundredths))?;
    Ok(())
}

#[tactic(auto, unfolding(script_text::specs::DeclarationText::size_text))]
fn push_auto(into: &mut Vec<u8>) -> Result<(), AllocError>
    ensures { OnOk result (into.new.items ≡ into.old.items ++ size_text Automatic) }
{
    into.extend_from_slice(b"auto")
}

/// Appends `auto`, a length or a percentage.
fn push_size(into: &mut Vec<u8>, value: Length) -> Result<(), AllocError>
    ensures { OnOk result (into.new.items ≡ into.old.items ++ size_text (seen_length value)) }
{
    match value {
        Length::Auto => push_auto(into),
        Length::Px(px) => push_pixels(into, px),
        Length::Percent(percent) => push_percentage(into, percent),
    }
}

fn push_none_or_size(into: &mut Vec<u8>, value: Option<Length>) -> Result<(), AllocError>
    ensures { OnOk result (into.new.items ≡ into.old.items ++ none_or_text (option_map seen_length value)) }
{
    match value {
        None => into.extend_from_slice(b"none"),
        Some(value) => push_size(into, value),
    }
}

#[tactic(auto, using(crate::proofs::Digits::inset_pixels_pushed))]
fn push_inset_pixels(into: &mut Vec<u8>, px: Px) -> Result<(), AllocError>
    ensures { OnOk result (into.new.items ≡ into.old.items ++ inset_text (InsetPixels px.0)) }
{
    push_signed(into, px.0)
}

#[tactic(auto, using(crate::proofs::Digits::inset_percentage_pushed))]
fn push_inset_percentage(into: &mut Vec<u8>, percent: Percent) -> Result<(), AllocError>
    ensures { OnOk result (into.new.items ≡ into.old.items ++ inset_text (InsetPercentage percent.0)) }
{
    push_signed_percent(into, i64::from(percent.0))
}

#[tactic(auto, unfolding(script_text::specs::DeclarationText::inset_text))]
fn push_automatic_inset(into: &mut Vec<u8>) -> Result<(), AllocError>
    ensures { OnOk result (into.new.items ≡ into.old.items ++ inset_text AutomaticInset) }
{
    into.extend_from_slice(b"auto")
}

/// Appends `auto`, or a length or a percentage with its sign.
fn push_inset(into: &mut Vec<u8>, value: Length) -> Result<(), AllocError>
    ensures { OnOk result (into.new.items ≡ into.old.items ++ inset_text (seen_inset value)) }
{
    match value {
        Length::Auto => push_automatic_inset(into),
        Length::Px(px) => push_inset_pixels(into, px),
        Length::Percent(percent) => push_inset_percentage(into, percent),
    }
}

/// Appends the name of a property with sides.
#[tactic(auto, using(media_queries::proofs::Appends::two_parts))]
fn push_sided(into: &mut Vec<u8>, name: &[u8], sides: Sides) -> Result<(), AllocError>
    ensures { OnOk result (into.new.items ≡ into.old.items ++ (name.now ++ side_text (seen_sides sides))) }
{
    into.extend_from_slice(name)?;
    into.extend_from_slice(side_text(sides))
}

fn push_property(into: &mut Vec<u8>, declaration: Declaration) -> Result<(), AllocError>
    ensures { OnOk result (into.new.items ≡ into.old.items ++ property_text (seen_declaration declaration)) }
{
    match declaration {
        Declaration::Display(_) => into.extend_from_slice(b"display"),
        Declaration::Width(_) => into.extend_from_slice(b"width"),
        Declaration::Height(_) => into.extend_from_slice(b"height"),
        Declaration::MinWidth(_) => into.extend_from_slice(b"min-width"),
        Declaration::MinHeight(_) => into.extend_from_slice(b"min-height"),
        Declaration::MaxWidth(_) => into.extend_from_slice(b"max-width"),
        Declaration::MaxHeight(_) => into.extend_from_slice(b"max-height"),
        Declaration::Margin(sides, _) => push_sided(into, b"margin", sides),
        Declaration::Padding(sides, _) => push_sided(into, b"padding", sides),
        Declaration::Border(sides, _) => push_sided(into, b"border", sides),
        Declaration::BoxSizing(_) => into.extend_from_slice(b"box-sizing"),
        Declaration::Overflow(_) => into.extend_from_slice(b"overflow"),
        Declaration::Position(_) => into.extend_from_slice(b"position"),
        Declaration::Top(_) => into.extend_from_slice(b"top"),
        Declaration::Right(_) => into.extend_from_slice(b"right"),
        Declaration::Bottom(_) => into.extend_from_slice(b"bottom"),
        Declaration::Left(_) => into.extend_from_slice(b"left"),
    }
}

fn push_value(into: &mut Vec<u8>, declaration: Declaration) -> Result<(), AllocError>
    ensures { OnOk result (into.new.items ≡ into.old.items ++ value_text (seen_declaration declaration)) }
{
    match declaration {
        Declaration::Display(display) => into.extend_from_slice(display_text(display)),
        Declaration::Width(value)
        | Declaration::Height(value)
        | Declaration::MinWidth(value)
        | Declaration::MinHeight(value)
        | Declaration::Margin(_, value)
        | Declaration::Padding(_, value) => push_size(into, value),
        Declaration::MaxWidth(value) | Declaration::MaxHeight(value) => {
            push_none_or_size(into, value)
        }
        Declaration::Border(_, width) => push_length(into, width.0.unsigned_abs()),
        Declaration::BoxSizing(value) => into.extend_from_slice(box_sizing_text(value)),
        Declaration::Overflow(value) => into.extend_from_slice(overflow_text(value)),
        Declaration::Position(value) => into.extend_from_slice(position_text(value)),
        Declaration::Top(value)
        | Declaration::Right(value)
        | Declaration::Bottom(value)
        | Declaration::Left(value) => push_inset(into, value),
    }
}

/// Appends a declaration's two words, each after a space.
#[tactic(auto, using(crate::proofs::LineWords::two_words_pushed))]
pub fn push_declaration(into: &mut Vec<u8>, declaration: Declaration) -> Result<(), AllocError>
    ensures { OnOk result (into.new.items ≡ into.old.items ++ spaced (property_text (seen_declaration declaration) ∷ value_text (seen_declaration declaration) ∷ [])) }
{
    into.push(b' ')?;
    push_property(into, declaration)?;
    into.push(b' ')?;
    push_value(into, declaration)
}
