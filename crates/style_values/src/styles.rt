//! Styles, and applying declarations to them.

ghost use Rattle.std.specs.Prelude.{◌≡◌, unsigned_abs, IfErr, OnOk, OnErr};
ghost use Rattle.px_units.specs.Lengths.{seen_length};
ghost use Rattle.layout_model.specs.Styles.{SetMargin, SetPadding, SetBorder, first_style, declared};
ghost use Rattle.style_values.specs.Ranges.{IsUnits, IsSize, IsAllowed, IsStyle};
ghost use Rattle.style_values.specs.Reading.{IsRead, declaration_of, set_if_read};
ghost use Rattle.style_values.specs.Seen.{seen_sides, seen_style, seen_declaration};

use crate::{BoxSizing, Declaration, Display, Overflow, Position, Sides, Style, StyleFault};
use px_units::{Length, Px};

/// A length of 0.
const NOTHING: Length = Length::Px(Px(0));

impl Style {
    /// Returns the style of a new element: each property has its initial value (CSS 2.2, 6.1.1).
    pub fn new() -> Style
        ensures value { seen_style result ≡ first_style }
        ensures range { IsStyle result }
    {
        Style {
            display: Display::Block,
            box_sizing: BoxSizing::Content,
            overflow: Overflow::Visible,
            width: Length::Auto,
            height: Length::Auto,
            min_width: NOTHING,
            min_height: NOTHING,
            max_width: None,
            max_height: None,
            margin_top: NOTHING,
            margin_right: NOTHING,
            margin_bottom: NOTHING,
            margin_left: NOTHING,
            padding_top: NOTHING,
            padding_right: NOTHING,
            padding_bottom: NOTHING,
            padding_left: NOTHING,
            border_top: Px(0),
            border_right: Px(0),
            border_bottom: Px(0),
            border_left: Px(0),
            position: Position::Static,
            top: Length::Auto,
            right: Length::Auto,
            bottom: Length::Auto,
            left: Length::Auto,
        }
    }

    fn set_margin(&mut self, sides: Sides, value: Length)
        ensures value { seen_style self.new ≡ declared (SetMargin (seen_sides sides) (seen_length value)) (seen_style self.old) }
        ensures range { IsSize value → IsStyle self.old → IsStyle self.new }
    {
        match sides {
            Sides::Top => self.margin_top = value,
            Sides::Right => self.margin_right = value,
            Sides::Bottom => self.margin_bottom = value,
            Sides::Left => self.margin_left = value,
            Sides::All => {
                self.margin_top = value;
                self.margin_right = value;
                self.margin_bottom = value;
                self.margin_left = value;
            }
        }
    }

    fn set_padding(&mut self, sides: Sides, value: Length)
        ensures value { seen_style self.new ≡ declared (SetPadding (seen_sides sides) (seen_length value)) (seen_style self.old) }
        ensures range { IsSize value → IsStyle self.old → IsStyle self.new }
    {
        match sides {
            Sides::Top => self.padding_top = value,
            Sides::Right => self.padding_right = value,
            Sides::Bottom => self.padding_bottom = value,
            Sides::Left => self.padding_left = value,
            Sides::All => {
                self.padding_top = value;
                self.padding_right = value;
                self.padding_bottom = value;
                self.padding_left = value;
            }
        }
    }

    fn set_border(&mut self, sides: Sides, value: Px)
        ensures value { seen_style self.new ≡ declared (SetBorder (seen_sides sides) (unsigned_abs value.0)) (seen_style self.old) }
        ensures range { IsUnits value.0 → IsStyle self.old → IsStyle self.new }
    {
        match sides {
            Sides::Top => self.border_top = value,
            Sides::Right => self.border_right = value,
            Sides::Bottom => self.border_bottom = value,
            Sides::Left => self.border_left = value,
            Sides::All => {
                self.border_top = value;
                self.border_right = value;
                self.border_bottom = value;
                self.border_left = value;
            }
        }
    }

    /// Sets one property: a single side, or, for a shorthand, all four sides (CSS 2.2, 4.1.8 and 8.3 to 8.5). All other
    /// properties keep their values, if the style and the declaration have values that their properties allow.
    pub fn apply(&mut self, declaration: Declaration)
        ensures value { seen_style self.new ≡ declared (seen_declaration declaration) (seen_style self.old) }
        ensures range { IsAllowed declaration → IsStyle self.old → IsStyle self.new }
    {
        match declaration {
            Declaration::Display(value) => self.display = value,
            Declaration::Width(value) => self.width = value,
            Declaration::Height(value) => self.height = value,
            Declaration::MinWidth(value) => self.min_width = value,
            Declaration::MinHeight(value) => self.min_height = value,
            Declaration::MaxWidth(value) => self.max_width = value,
            Declaration::MaxHeight(value) => self.max_height = value,
            Declaration::Margin(sides, value) => self.set_margin(sides, value),
            Declaration::Padding(sides, value) => self.set_padding(sides, value),
            Declaration::Border(sides, value) => self.set_border(sides, value),
            Declaration::BoxSizing(value) => self.box_sizing = value,
            Declaration::Overflow(value) => self.overflow = value,
            Declaration::Position(value) => self.position = value,
            Declaration::Top(value) => self.top = value,
            Declaration::Right(value) => self.right = value,
            Declaration::Bottom(value) => self.bottom = value,
            Declaration::Left(value) => self.left = value,
        }
    }

    /// Parses a declaration from a property's word and a value's word, and applies it.
    ///
    /// # Errors
    /// `UnknownProperty` exactly where there is no property of this name; `BadValue` exactly where there is one but the
    /// value isn't valid for it. The style is unchanged then.
    pub fn set(&mut self, property: &[u8], value: &[u8]) -> Result<(), StyleFault>
        ensures value { seen_style self.new ≡ set_if_read (declaration_of property.now value.now) (seen_style self.old) }
        ensures unchanged { OnErr result (self.new ≡ self.old) }
        ensures err { IfErr result (λ fault. declaration_of property.now value.now ≡ Err fault) }
        ensures ok { OnOk result (IsRead (declaration_of property.now value.now)) }
        ensures range { IsStyle self.old → IsStyle self.new }
    {
        self.apply(Declaration::read(property, value)?);
        Ok(())
    }
}
