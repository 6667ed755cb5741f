//! Parsing of declarations.

ghost use Rattle.std.specs.Prelude.{◌≡◌, IfOk, IfErr};
ghost use Rattle.style_values.specs.Ranges.{IsAllowed};
ghost use Rattle.style_values.specs.Reading.{declaration_of};
ghost use Rattle.style_values.specs.Seen.{seen_declaration};
ghost use Rattle.style_values.specs.Versions.{version_of};

use crate::properties::{property_named, read_value};
use crate::{Declaration, StyleFault};
use text_io::Version;

impl Declaration {
    /// Parses a declaration from a property's word and a value's word. A length has 1 to 7 digits, optionally a point and 1 or
    /// 2 digits, then `px`, and is truncated to units of 1/64 pixel; it is at most 1,000,000 pixels. A percentage has the
    /// same form with `%`, is stored in hundredths of a percent, and is at most 10,000 percent.
    ///
    /// # Errors
    /// `UnknownProperty` exactly where there is no property of this name; `BadValue` exactly where there is one but the
    /// value isn't valid for it.
    pub fn read(property: &[u8], value: &[u8]) -> Result<Declaration, StyleFault>
        ensures ok { IfOk result (λ declaration. declaration_of property.now value.now ≡ Ok (seen_declaration declaration)) }
        ensures err { IfErr result (λ fault. declaration_of property.now value.now ≡ Err fault) }
        ensures range { IfOk result (λ declaration. IsAllowed declaration) }
    {
        let known = property_named(property).ok_or(StyleFault::UnknownProperty)?;
        read_value(known, value).ok_or(StyleFault::BadValue)
    }

    /// Returns the first version of the script language that has the property.
    pub fn version(&self) -> Version
        ensures { result ≡ version_of (seen_declaration self.now) }
    {
        match self {
            Declaration::Position(_)
            | Declaration::Top(_)
            | Declaration::Right(_)
            | Declaration::Bottom(_)
            | Declaration::Left(_) => Version::Second,
            _ => Version::First,
        }
    }
}
