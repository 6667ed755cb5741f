//! Media features and their parsers (Media Queries 4, 2.4, 4.1, 4.2 and 4.4).

ghost use Rattle.std.specs.Prelude.{◌≡◌};
ghost use Rattle.script_model.specs.Media.{dimension_at, sized_at, bounded_at, oriented_at, tested_at, feature_at};
ghost use Rattle.media_queries.specs.Seen.{comparison_of, sized_of, feature_of, read_of};

use crate::bytes::{Stopped, byte_at, colon_at, skip, word_at};
use crate::lengths::length_at;
use word_model::begins_with;

/// How a dimension of the viewport is compared with a length.
#[derive(Clone, Copy)]
pub enum Comparison {
    Exactly,
    /// `min-`
    AtLeast,
    /// `max-`
    AtMost,
}

#[derive(Clone, Copy)]
pub enum Dimension {
    Width,
    Height,
}

#[derive(Clone, Copy)]
pub enum Orientation {
    Portrait,
    Landscape,
}

/// A media feature, which tests the viewport.
#[derive(Clone, Copy)]
pub enum Feature {
    /// The length is in units of 1/64 CSS pixel.
    Sized(Dimension, Comparison, u64),
    Oriented(Orientation),
}

#[tactic(auto, unfolding(script_model::specs::Media::dimension_at, script_model::specs::Media::says))]
fn dimension_at(compared: Comparison, text: &[u8]) -> Result<(Dimension, &[u8]), Stopped>
    ensures { read_of (sized_of (comparison_of compared)) result ≡ dimension_at (comparison_of compared) text.now }
{
    if begins_with(text, b'w') {
        return Ok((Dimension::Width, word_at(b"width", text)?));
    }
    Ok((Dimension::Height, word_at(b"height", text)?))
}

#[tactic(auto, unfolding(script_model::specs::Media::sized_at))]
fn sized_at(compared: Comparison, text: &[u8]) -> Result<(Feature, &[u8]), Stopped>
    ensures { read_of feature_of result ≡ sized_at (comparison_of compared) text.now }
{
    let (dimension, colon) = dimension_at(compared, text)?;
    let value = colon_at(colon)?;
    let (units, rest) = length_at(value)?;
    Ok((Feature::Sized(dimension, compared, units), rest))
}

/// Parses `min-` or `max-` before a dimension, and the value.
#[tactic(auto, unfolding(script_model::specs::Media::bounded_at))]
fn bounded_at(text: &[u8]) -> Result<(Feature, &[u8]), Stopped>
    ensures { read_of feature_of result ≡ bounded_at text.now }
{
    let rest = byte_at(b'm', text)?;
    if begins_with(rest, b'i') {
        return sized_at(Comparison::AtLeast, word_at(b"in-", rest)?);
    }
    sized_at(Comparison::AtMost, word_at(b"ax-", rest)?)
}

#[tactic(auto, unfolding(script_model::specs::Media::oriented_at, script_model::specs::Media::says))]
fn oriented_at(text: &[u8]) -> Result<(Feature, &[u8]), Stopped>
    ensures { read_of feature_of result ≡ oriented_at text.now }
{
    let name = word_at(b"orientation", text)?;
    let value = colon_at(name)?;
    if begins_with(value, b'p') {
        return Ok((
            Feature::Oriented(Orientation::Portrait),
            word_at(b"portrait", value)?,
        ));
    }
    Ok((
        Feature::Oriented(Orientation::Landscape),
        word_at(b"landscape", value)?,
    ))
}

#[tactic(auto, unfolding(script_model::specs::Media::tested_at))]
fn tested_at(text: &[u8]) -> Result<(Feature, &[u8]), Stopped>
    ensures { read_of feature_of result ≡ tested_at text.now }
{
    if begins_with(text, b'm') {
        return bounded_at(text);
    }
    if begins_with(text, b'o') {
        return oriented_at(text);
    }
    sized_at(Comparison::Exactly, text)
}

/// Parses a feature in parentheses.
#[tactic(auto, unfolding(script_model::specs::Media::feature_at))]
pub fn feature_at(text: &[u8]) -> Result<(Feature, &[u8]), Stopped>
    ensures { read_of feature_of result ≡ feature_at text.now }
{
    let inside = byte_at(b'(', text)?;
    let (feature, end) = tested_at(skip(inside))?;
    let rest = byte_at(b')', skip(end))?;
    Ok((feature, rest))
}
