//! Printing of media query lists: one space for each mandatory gap and no other, and each length as its shortest text. If an
//! allocation fails, the previous contents of the buffer are kept, but something may have been appended.

ghost use Rattle.std.specs.Prelude.{◌≡◌, ℕ, ◌++◌, map, OnOk, codes};
ghost use Rattle.script_model.specs.Queries.{Typed, NotFeature, AllFeatures, AnyFeatures};
ghost use Rattle.word_model.specs.Numbers.{decimal};
ghost use Rattle.media_queries.specs.LengthText.{tenths_text, hundredths_text, length_text};
ghost use Rattle.media_queries.specs.QueryText.{feature_text, joined_text, medium_text, prefix_text, query_text, commas_text, list_text};
ghost use Rattle.media_queries.specs.Seen.{comparison_of, sized_of, orientation_of, feature_of, medium_of, prefix_of, query_of, Keeps};

use crate::features::{Comparison, Dimension, Feature, Orientation};
use crate::queries::{MediaQuery, MediaType, Prefix};
use std::alloc::AllocError;
use word_model::push_decimal;

/// Appends a length given in tenths of a pixel.
#[tactic(auto, using(crate::proofs::Appends::tenths_pushed, crate::proofs::Appends::keeps_more))]
fn push_tenths(out: &mut Vec<u8>, tenths: u128) -> Result<(), AllocError>
    ensures ok { OnOk result (out.new.items ≡ out.old.items ++ tenths_text tenths) }
    ensures kept { Keeps out.old.items out.new.items }
{
    push_decimal(out, tenths / 10)?;
    out.extend_from_slice(&[b'.', b'0' + (tenths % 10) as u8, b'p', b'x'])
}

/// Appends a length given in hundredths of a pixel.
#[tactic(auto, using(crate::proofs::Appends::hundredths_pushed, crate::proofs::Appends::keeps_more))]
fn push_hundredths(out: &mut Vec<u8>, hundredths: u128) -> Result<(), AllocError>
    ensures ok { OnOk result (out.new.items ≡ out.old.items ++ hundredths_text hundredths) }
    ensures kept { Keeps out.old.items out.new.items }
{
    let tenth = b'0' + (hundredths / 10 % 10) as u8;
    let hundredth = b'0' + (hundredths % 10) as u8;
    push_decimal(out, hundredths / 100)?;
    out.extend_from_slice(&[b'.', tenth, hundredth, b'p', b'x'])
}

/// Appends a whole number of pixels.
#[tactic(auto, using(crate::proofs::Appends::two_parts, crate::proofs::Appends::keeps_more))]
fn push_whole(out: &mut Vec<u8>, pixels: u128) -> Result<(), AllocError>
    ensures ok { OnOk result (out.new.items ≡ out.old.items ++ (decimal pixels ++ codes "px")) }
    ensures kept { Keeps out.old.items out.new.items }
{
    push_decimal(out, pixels)?;
    out.extend_from_slice(b"px")
}

/// Appends a length given in units of 1/64 CSS pixel, as the shortest text that parses as it, the first of these in byte order. If an
/// allocation fails, the previous contents are kept, but something may have been appended.
#[tactic(auto, unfolding(crate::specs::LengthText::length_text))]
pub fn push_length(out: &mut Vec<u8>, length: u64) -> Result<(), AllocError>
    ensures ok { OnOk result (out.new.items ≡ out.old.items ++ length_text length) }
    ensures kept { Keeps out.old.items out.new.items }
{
    let units = u128::from(length);
    if units % 64 == 0 {
        return push_whole(out, units / 64);
    }
    let tenths = (units * 10 + 63) / 64;
    if tenths * 64 / 10 == units {
        return push_tenths(out, tenths);
    }
    push_hundredths(out, (units * 100 + 63) / 64)
}

/// Returns the text before the length of a feature.
#[tactic(auto, unfolding(crate::specs::QueryText::feature_text))]
fn sized_name(dimension: Dimension, compared: Comparison) -> &'static [u8]
    ensures { (units : ℕ) → feature_text (sized_of (comparison_of compared) dimension units) ≡ result.now ++ (length_text units ++ codes ")") }
{
    match (dimension, compared) {
        (Dimension::Width, Comparison::Exactly) => b"(width:",
        (Dimension::Width, Comparison::AtLeast) => b"(min-width:",
        (Dimension::Width, Comparison::AtMost) => b"(max-width:",
        (Dimension::Height, Comparison::Exactly) => b"(height:",
        (Dimension::Height, Comparison::AtLeast) => b"(min-height:",
        (Dimension::Height, Comparison::AtMost) => b"(max-height:",
    }
}

#[tactic(auto, using(crate::proofs::Appends::three_parts, crate::proofs::Appends::keeps_more, crate::proofs::Appends::keeps_on))]
fn push_sized(
    out: &mut Vec<u8>,
    dimension: Dimension,
    compared: Comparison,
    length: u64,
) -> Result<(), AllocError>
    ensures ok { OnOk result (out.new.items ≡ out.old.items ++ feature_text (sized_of (comparison_of compared) dimension length)) }
    ensures kept { Keeps out.old.items out.new.items }
{
    out.extend_from_slice(sized_name(dimension, compared))?;
    push_length(out, length)?;
    out.push(b')')?;
    Ok(())
}

/// Returns the text of an `orientation` feature.
#[tactic(auto, unfolding(crate::specs::QueryText::feature_text))]
fn oriented_text(orientation: Orientation) -> &'static [u8]
    ensures { result.now ≡ feature_text (orientation_of orientation) }
{
    match orientation {
        Orientation::Portrait => b"(orientation:portrait)",
        Orientation::Landscape => b"(orientation:landscape)",
    }
}

#[tactic(auto, using(crate::proofs::Appends::keeps_more, crate::proofs::Appends::keeps_same))]
fn push_feature(out: &mut Vec<u8>, feature: Feature) -> Result<(), AllocError>
    ensures ok { OnOk result (out.new.items ≡ out.old.items ++ feature_text (feature_of feature)) }
    ensures kept { Keeps out.old.items out.new.items }
{
    match feature {
        Feature::Sized(dimension, compared, length) => push_sized(out, dimension, compared, length),
        Feature::Oriented(orientation) => out.extend_from_slice(oriented_text(orientation)),
    }
}

/// Appends this word with a space before and after it.
#[tactic(auto, using(crate::proofs::Appends::three_parts, crate::proofs::Appends::keeps_more, crate::proofs::Appends::keeps_on))]
fn push_joint(out: &mut Vec<u8>, joint: &[u8]) -> Result<(), AllocError>
    ensures ok { OnOk result (out.new.items ≡ out.old.items ++ (codes " " ++ (joint.now ++ codes " "))) }
    ensures kept { Keeps out.old.items out.new.items }
{
    out.push(b' ')?;
    out.extend_from_slice(joint)?;
    out.push(b' ')?;
    Ok(())
}

/// Appends features, each after this word.
#[tactic(auto, using(crate::proofs::Appends::keeps_same, crate::proofs::Appends::keeps_on))]
fn push_joined(out: &mut Vec<u8>, joint: &[u8], features: &[Feature]) -> Result<(), AllocError>
    ensures ok { OnOk result (out.new.items ≡ out.old.items ++ joined_text joint.now (map feature_of features.now)) }
    ensures kept { Keeps out.old.items out.new.items }
{
    for feature in features {
        push_joint(out, joint)?;
        push_feature(out, *feature)?;
    }
    Ok(())
}

fn medium_text(medium: MediaType) -> &'static [u8]
    ensures { result.now ≡ medium_text (medium_of medium) }
{
    match medium {
        MediaType::All => b"all",
        MediaType::Screen => b"screen",
        MediaType::Print => b"print",
    }
}

fn prefix_text(before: Prefix) -> &'static [u8]
    ensures { result.now ≡ prefix_text (prefix_of before) }
{
    match before {
        Prefix::Absent => b"",
        Prefix::Not => b"not ",
        Prefix::Only => b"only ",
    }
}

#[tactic(auto, using(crate::proofs::Appends::typed_pushed, crate::proofs::Appends::keeps_more, crate::proofs::Appends::keeps_on))]
fn push_typed(
    out: &mut Vec<u8>,
    before: Prefix,
    medium: MediaType,
    features: &[Feature],
) -> Result<(), AllocError>
    ensures ok { OnOk result (out.new.items ≡ out.old.items ++ query_text (Typed (prefix_of before) (medium_of medium) (map feature_of features.now))) }
    ensures kept { Keeps out.old.items out.new.items }
{
    out.extend_from_slice(prefix_text(before))?;
    out.extend_from_slice(medium_text(medium))?;
    push_joined(out, b"and", features)
}

#[tactic(auto, using(crate::proofs::Appends::not_pushed, crate::proofs::Appends::keeps_more, crate::proofs::Appends::keeps_on))]
fn push_not(out: &mut Vec<u8>, feature: Feature) -> Result<(), AllocError>
    ensures ok { OnOk result (out.new.items ≡ out.old.items ++ query_text (NotFeature (feature_of feature))) }
    ensures kept { Keeps out.old.items out.new.items }
{
    out.extend_from_slice(b"not ")?;
    push_feature(out, feature)
}

#[tactic(auto, using(crate::proofs::Appends::every_pushed, crate::proofs::Appends::keeps_more, crate::proofs::Appends::keeps_on))]
fn push_every(out: &mut Vec<u8>, first: Feature, others: &[Feature]) -> Result<(), AllocError>
    ensures ok { OnOk result (out.new.items ≡ out.old.items ++ query_text (AllFeatures (feature_of first) (map feature_of others.now))) }
    ensures kept { Keeps out.old.items out.new.items }
{
    push_feature(out, first)?;
    push_joined(out, b"and", others)
}

#[tactic(auto, using(crate::proofs::Appends::either_pushed, crate::proofs::Appends::keeps_more, crate::proofs::Appends::keeps_on))]
fn push_either(
    out: &mut Vec<u8>,
    first: Feature,
    second: Feature,
    others: &[Feature],
) -> Result<(), AllocError>
    ensures ok { OnOk result (out.new.items ≡ out.old.items ++ query_text (AnyFeatures (feature_of first) (feature_of second) (map feature_of others.now))) }
    ensures kept { Keeps out.old.items out.new.items }
{
    push_feature(out, first)?;
    push_joint(out, b"or")?;
    push_feature(out, second)?;
    push_joined(out, b"or", others)
}

fn push_query(out: &mut Vec<u8>, query: &MediaQuery) -> Result<(), AllocError>
    ensures ok { OnOk result (out.new.items ≡ out.old.items ++ query_text (query_of query.now)) }
    ensures kept { Keeps out.old.items out.new.items }
{
    match query {
        MediaQuery::Typed(before, medium, features) => {
            push_typed(out, *before, *medium, features.as_slice())
        }
        MediaQuery::NotFeature(feature) => push_not(out, *feature),
        MediaQuery::Every(first, others) => push_every(out, *first, others.as_slice()),
        MediaQuery::Either(first, second, others) => {
            push_either(out, *first, *second, others.as_slice())
        }
    }
}

/// Appends queries, each after a comma.
#[tactic(auto, using(crate::proofs::Appends::keeps_same, crate::proofs::Appends::keeps_more, crate::proofs::Appends::keeps_on))]
fn push_others(out: &mut Vec<u8>, queries: &[MediaQuery]) -> Result<(), AllocError>
    ensures ok { OnOk result (out.new.items ≡ out.old.items ++ commas_text (map query_of queries.now)) }
    ensures kept { Keeps out.old.items out.new.items }
{
    for query in queries {
        out.push(b',')?;
        push_query(out, query)?;
    }
    Ok(())
}

/// Appends the queries, separated by commas.
#[tactic(auto, using(crate::proofs::Appends::keeps_same, crate::proofs::Appends::keeps_on))]
pub fn push_queries(out: &mut Vec<u8>, queries: &[MediaQuery]) -> Result<(), AllocError>
    ensures ok { OnOk result (out.new.items ≡ out.old.items ++ list_text (map query_of queries.now)) }
    ensures kept { Keeps out.old.items out.new.items }
{
    match queries {
        [first, others @ ..] => {
            push_query(out, first)?;
            push_others(out, others)
        }
        [] => Ok(()),
    }
}
