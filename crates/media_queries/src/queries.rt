//! Media queries and their parsers (Media Queries 4, 2 and 3).

ghost use Rattle.std.specs.Prelude.{◌≡◌, map, IfOk};
ghost use Rattle.script_model.specs.Media.{medium_at, query_ends, joined_at, others_at, typed_at, all_at, any_at, features_from, condition_at, not_feature_at, not_at, only_at, query_at, queries_at};
ghost use Rattle.media_queries.specs.Seen.{medium_of, prefix_of, feature_of, query_of, next_of, read_of, Reads, ReadsAll};

use crate::bytes::{Stopped, byte_at, gap_at, skip, word_at};
use crate::features::{Feature, feature_at};
use std::alloc::{AllocError, AllocFailed, Global};
use word_model::begins_with;

#[derive(Clone, Copy)]
pub enum MediaType {
    All,
    Screen,
    Print,
}

/// The word before a media type, if any.
#[derive(Clone, Copy)]
pub enum Prefix {
    Absent,
    Not,
    Only,
}

#[derive(Drop)]
pub enum MediaQuery {
    /// A media type, with features joined to it by `and`.
    Typed(Prefix, MediaType, Vec<Feature>),
    /// `not` before a feature.
    NotFeature(Feature),
    /// Features joined by `and`.
    Every(Feature, Vec<Feature>),
    /// Features joined by `or`.
    Either(Feature, Feature, Vec<Feature>),
}

/// Why a parser that allocates failed.
#[derive(Clone, Copy)]
pub enum ReadFault {
    At(Stopped),
    Memory,
}

impl From<Stopped> for ReadFault {
    ghost use Rattle.std.specs.Prelude.{◌≡◌};
    ghost use Rattle.media_queries.specs.declared.queries.ReadFault.TheVariants.{At};

    ghost from_gives = { λ stopped fault. fault ≡ At stopped };

    fn from(stopped: Stopped) -> ReadFault {
        ReadFault::At(stopped)
    }
}

impl From<AllocError> for ReadFault {
    ghost use Rattle.std.specs.Prelude.{◌≡◌};
    ghost use Rattle.media_queries.specs.declared.queries.ReadFault.TheVariants.{Memory};

    ghost from_gives = { λ _ fault. fault ≡ Memory };

    fn from(_error: AllocError) -> ReadFault {
        ReadFault::Memory
    }
}

impl<T: Drop> From<AllocFailed<T>> for ReadFault {
    ghost use Rattle.std.specs.Prelude.{◌≡◌};
    ghost use Rattle.media_queries.specs.declared.queries.ReadFault.TheVariants.{Memory};

    ghost from_gives = { λ _ fault. fault ≡ Memory };

    fn from(_failed: AllocFailed<T>) -> ReadFault {
        ReadFault::Memory
    }
}

#[tactic(auto, unfolding(script_model::specs::Media::medium_at, script_model::specs::Media::says))]
fn medium_at(text: &[u8]) -> Result<(MediaType, &[u8]), Stopped>
    ensures { read_of medium_of result ≡ medium_at text.now }
{
    if begins_with(text, b'a') {
        return Ok((MediaType::All, word_at(b"all", text)?));
    }
    if begins_with(text, b's') {
        return Ok((MediaType::Screen, word_at(b"screen", text)?));
    }
    Ok((MediaType::Print, word_at(b"print", text)?))
}

/// Whether the query ends here: at the end of the text or before a comma.
#[tactic(auto, unfolding(script_model::specs::Media::query_ends))]
fn query_ends(text: &[u8]) -> bool
    ensures { result ≡ query_ends text.now }
{
    text.is_empty() || begins_with(skip(text), b',')
}

/// Parses this word, `and` or `or`, with gaps around it, and a feature.
#[tactic(auto, unfolding(script_model::specs::Media::joined_at))]
fn joined_at<'a>(joint: &[u8], text: &'a [u8]) -> Result<(Feature, &'a [u8]), Stopped>
    ensures { read_of feature_of result ≡ joined_at joint.now text.now }
{
    let next = gap_at(text)?;
    let rest = word_at(joint, next)?;
    feature_at(gap_at(rest)?)
}

/// Parses all features joined by this word, up to the end of the query.
#[tactic(auto, using(crate::proofs::Joined::none_behind))]
fn others_at<'a>(
    alloc: Global,
    joint: &[u8],
    text: &'a [u8],
) -> Result<(Vec<Feature>, &'a [u8]), ReadFault>
    ensures { Reads (λ features. map feature_of features.items) result (others_at joint.now text.now) }
{
    let mut features = Vec::new(alloc);
    let mut rest = text;
    while !query_ends(rest) {
        let (feature, behind) = joined_at(joint, rest)?;
        features.push(feature)?;
        rest = behind;
    }
    Ok((features, rest))
}

#[tactic(auto, unfolding(script_model::specs::Media::typed_at))]
fn typed_at(alloc: Global, before: Prefix, text: &[u8]) -> Result<(MediaQuery, &[u8]), ReadFault>
    ensures { Reads query_of result (typed_at (prefix_of before) text.now) }
{
    let (medium, next) = medium_at(text)?;
    let (features, rest) = others_at(alloc, b"and", next)?;
    Ok((MediaQuery::Typed(before, medium, features), rest))
}

#[tactic(auto, unfolding(script_model::specs::Media::all_at))]
fn all_at(alloc: Global, first: Feature, text: &[u8]) -> Result<(MediaQuery, &[u8]), ReadFault>
    ensures { Reads query_of result (all_at (feature_of first) text.now) }
{
    let (others, rest) = others_at(alloc, b"and", text)?;
    Ok((MediaQuery::Every(first, others), rest))
}

#[tactic(auto, unfolding(script_model::specs::Media::any_at))]
fn any_at(alloc: Global, first: Feature, text: &[u8]) -> Result<(MediaQuery, &[u8]), ReadFault>
    ensures { Reads query_of result (any_at (feature_of first) text.now) }
{
    let (second, next) = joined_at(b"or", text)?;
    let (others, rest) = others_at(alloc, b"or", next)?;
    Ok((MediaQuery::Either(first, second, others), rest))
}

/// Parses what follows the first feature; the byte after the gap tells whether features are joined by `or`.
#[tactic(auto, unfolding(script_model::specs::Media::features_from))]
fn features_from(
    alloc: Global,
    first: Feature,
    text: &[u8],
) -> Result<(MediaQuery, &[u8]), ReadFault>
    ensures { Reads query_of result (features_from (feature_of first) text.now) }
{
    if begins_with(skip(text), b'o') {
        any_at(alloc, first, text)
    } else {
        all_at(alloc, first, text)
    }
}

#[tactic(auto, unfolding(script_model::specs::Media::condition_at))]
fn condition_at(alloc: Global, text: &[u8]) -> Result<(MediaQuery, &[u8]), ReadFault>
    ensures { Reads query_of result (condition_at text.now) }
{
    let (first, rest) = feature_at(text)?;
    features_from(alloc, first, rest)
}

#[tactic(auto, unfolding(script_model::specs::Media::not_feature_at))]
fn not_feature_at(text: &[u8]) -> Result<(MediaQuery, &[u8]), ReadFault>
    ensures { Reads query_of result (not_feature_at text.now) }
{
    let (feature, rest) = feature_at(text)?;
    Ok((MediaQuery::NotFeature(feature), rest))
}

#[tactic(auto, unfolding(script_model::specs::Media::not_at))]
fn not_at(alloc: Global, text: &[u8]) -> Result<(MediaQuery, &[u8]), ReadFault>
    ensures { Reads query_of result (not_at text.now) }
{
    let next = word_at(b"not", text)?;
    let rest = gap_at(next)?;
    if begins_with(rest, b'(') {
        not_feature_at(rest)
    } else {
        typed_at(alloc, Prefix::Not, rest)
    }
}

#[tactic(auto, unfolding(script_model::specs::Media::only_at))]
fn only_at(alloc: Global, text: &[u8]) -> Result<(MediaQuery, &[u8]), ReadFault>
    ensures { Reads query_of result (only_at text.now) }
{
    let next = word_at(b"only", text)?;
    let rest = gap_at(next)?;
    typed_at(alloc, Prefix::Only, rest)
}

#[tactic(auto, unfolding(script_model::specs::Media::query_at))]
fn query_at(alloc: Global, text: &[u8]) -> Result<(MediaQuery, &[u8]), ReadFault>
    ensures { Reads query_of result (query_at text.now) }
{
    if begins_with(text, b'n') {
        return not_at(alloc, text);
    }
    if begins_with(text, b'o') {
        return only_at(alloc, text);
    }
    if begins_with(text, b'(') {
        return condition_at(alloc, text);
    }
    typed_at(alloc, Prefix::Absent, text)
}

/// Parses a comma, with optional spaces and tabs around it, and a query.
fn next_query(alloc: Global, text: &[u8]) -> Result<(MediaQuery, &[u8]), ReadFault>
    ensures { Reads query_of result (next_of text.now) }
{
    let rest = byte_at(b',', skip(text))?;
    query_at(alloc, skip(rest))
}

/// Parses a whole text as a list of queries.
#[tactic(auto, using(crate::proofs::Lists::list_first, crate::proofs::Lists::first_fails))]
pub fn queries_at(alloc: Global, text: &[u8]) -> Result<Vec<MediaQuery>, ReadFault>
    ensures { ReadsAll (λ queries. map query_of queries.items) result (queries_at text.now) }
{
    let (first, others) = query_at(alloc, text)?;
    let mut queries = Vec::new(alloc);
    queries.push(first)?;
    let mut rest = others;
    while !rest.is_empty() {
        let (query, behind) = next_query(alloc, rest)?;
        queries.push(query)?;
        rest = behind;
    }
    Ok(queries)
}

/// Returns an equal query.
fn copy_query(alloc: Global, query: &MediaQuery) -> Result<MediaQuery, AllocError>
    ensures { IfOk result (λ copy. query_of copy ≡ query_of query.now) }
{
    match query {
        MediaQuery::Typed(before, medium, features) => {
            let copy = Vec::from_slice(alloc, features.as_slice())?;
            Ok(MediaQuery::Typed(*before, *medium, copy))
        }
        MediaQuery::NotFeature(feature) => Ok(MediaQuery::NotFeature(*feature)),
        MediaQuery::Every(first, others) => {
            let copy = Vec::from_slice(alloc, others.as_slice())?;
            Ok(MediaQuery::Every(*first, copy))
        }
        MediaQuery::Either(first, second, others) => {
            let copy = Vec::from_slice(alloc, others.as_slice())?;
            Ok(MediaQuery::Either(*first, *second, copy))
        }
    }
}

/// Returns equal queries.
#[tactic(auto, using(crate::proofs::Copies::copy_on, crate::proofs::Copies::copy_ends))]
pub fn copy_queries(alloc: Global, queries: &[MediaQuery]) -> Result<Vec<MediaQuery>, AllocError>
    ensures { IfOk result (λ copy. map query_of copy.items ≡ map query_of queries.now) }
{
    let mut copy = Vec::new(alloc);
    for query in queries {
        let equal = copy_query(alloc, query)?;
        copy.push(equal)?;
    }
    Ok(copy)
}
