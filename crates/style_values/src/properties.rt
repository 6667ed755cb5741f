//! The properties, and the values that each accepts.

ghost use Rattle.std.specs.Prelude.{◌≡◌, option_map, is_some, IfSome};
ghost use Rattle.text_io.specs.declared.kinds.Version.{Version};
ghost use Rattle.text_io.specs.declared.kinds.Version.TheVariants.{Second};
ghost use Rattle.script_model.specs.Keywords.{lookup};
ghost use Rattle.script_model.specs.Properties.{properties, positioned_properties, property_of};
ghost use Rattle.style_values.specs.Properties.{reader_of};
ghost use Rattle.style_values.specs.Ranges.{IsAllowed};
ghost use Rattle.style_values.specs.Seen.{seen_declaration};
ghost use Rattle.style_values.specs.Versions.{reads};

use crate::keywords::{box_sizing, display, lookup, overflow, position};
use crate::lengths::{auto_or_size, border, inset, none_or_size, size};
use crate::{Declaration, Sides};
use text_io::Version;

/// A property, with the sides that it applies to.
#[derive(Clone, Copy)]
pub enum Property {
    Display,
    Width,
    Height,
    MinWidth,
    MinHeight,
    MaxWidth,
    MaxHeight,
    Margin(Sides),
    Padding(Sides),
    Border(Sides),
    BoxSizing,
    Overflow,
    Position,
    Top,
    Right,
    Bottom,
    Left,
}

/// The properties of the first version of the script language.
const PROPERTIES: [(&[u8], Property); 24] = [
    (b"display", Property::Display),
    (b"width", Property::Width),
    (b"height", Property::Height),
    (b"min-width", Property::MinWidth),
    (b"min-height", Property::MinHeight),
    (b"max-width", Property::MaxWidth),
    (b"max-height", Property::MaxHeight),
    (b"margin-top", Property::Margin(Sides::Top)),
    (b"margin-right", Property::Margin(Sides::Right)),
    (b"margin-bottom", Property::Margin(Sides::Bottom)),
    (b"margin-left", Property::Margin(Sides::Left)),
    (b"margin", Property::Margin(Sides::All)),
    (b"padding-top", Property::Padding(Sides::Top)),
    (b"padding-right", Property::Padding(Sides::Right)),
    (b"padding-bottom", Property::Padding(Sides::Bottom)),
    (b"padding-left", Property::Padding(Sides::Left)),
    (b"padding", Property::Padding(Sides::All)),
    (b"border-top", Property::Border(Sides::Top)),
    (b"border-right", Property::Border(Sides::Right)),
    (b"border-bottom", Property::Border(Sides::Bottom)),
    (b"border-left", Property::Border(Sides::Left)),
    (b"border", Property::Border(Sides::All)),
    (b"box-sizing", Property::BoxSizing),
    (b"overflow", Property::Overflow),
];

/// The properties that only the second version has.
const POSITIONED: [(&[u8], Property); 5] = [
    (b"position", Property::Position),
    (b"top", Property::Top),
    (b"right", Property::Right),
    (b"bottom", Property::Bottom),
    (b"left", Property::Left),
];

/// Returns the property of this name among those of the first version.
fn unpositioned(name: &[u8]) -> Option<Property>
    ensures { option_map reader_of result ≡ lookup properties name.now }
{
    lookup(&PROPERTIES, name)
}

/// Returns the property of this name among those that only the second version has.
fn positioned(name: &[u8]) -> Option<Property>
    ensures { option_map reader_of result ≡ lookup positioned_properties name.now }
{
    lookup(&POSITIONED, name)
}

/// Returns the property of this name in either version of the script language.
pub fn property_named(name: &[u8]) -> Option<Property>
    ensures { option_map reader_of result ≡ property_of Second name.now }
{
    match positioned(name) {
        Some(property) => Some(property),
        None => unpositioned(name),
    }
}

/// Returns the first version of the script language that has a property of this name, or `None` if neither has.
pub fn first_version(name: &[u8]) -> Option<Version>
    ensures { (version : Version) → is_some (property_of version name.now) ≡ reads version result }
{
    if unpositioned(name).is_some() {
        return Some(Version::First);
    }
    if positioned(name).is_some() {
        return Some(Version::Second);
    }
    None
}

/// Parses the word as a value of the property, and returns the declaration, or `None` if the value isn't valid for the property.
pub fn read_value(property: Property, word: &[u8]) -> Option<Declaration>
    ensures value { option_map seen_declaration result ≡ reader_of property word.now }
    ensures range { IfSome result (λ declaration. IsAllowed declaration) }
{
    match property {
        Property::Display => display(word).map(Declaration::Display),
        Property::Width => auto_or_size(word).map(Declaration::Width),
        Property::Height => auto_or_size(word).map(Declaration::Height),
        Property::MinWidth => size(word).map(Declaration::MinWidth),
        Property::MinHeight => size(word).map(Declaration::MinHeight),
        Property::MaxWidth => none_or_size(word).map(Declaration::MaxWidth),
        Property::MaxHeight => none_or_size(word).map(Declaration::MaxHeight),
        Property::Margin(sides) => size(word).map(|value| Declaration::Margin(sides, value)),
        Property::Padding(sides) => size(word).map(|value| Declaration::Padding(sides, value)),
        Property::Border(sides) => border(word).map(|value| Declaration::Border(sides, value)),
        Property::BoxSizing => box_sizing(word).map(Declaration::BoxSizing),
        Property::Overflow => overflow(word).map(Declaration::Overflow),
        Property::Position => position(word).map(Declaration::Position),
        Property::Top => inset(word).map(Declaration::Top),
        Property::Right => inset(word).map(Declaration::Right),
        Property::Bottom => inset(word).map(Declaration::Bottom),
        Property::Left => inset(word).map(Declaration::Left),
    }
}
