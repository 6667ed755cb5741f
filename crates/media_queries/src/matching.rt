//! Which viewports a list matches (Media Queries 4, 2.3 and 3). Sizes are in units of 1/64 CSS pixel.

ghost use Rattle.std.specs.Prelude.{◌≡◌, map};
ghost use Rattle.std.specs.List.{list_all, list_any};
ghost use Rattle.script_model.specs.Media.{compares, feature_matches, medium_matches, turned, query_matches};
ghost use Rattle.media_queries.specs.Seen.{comparison_of, feature_of, medium_of, prefix_of, query_of};

use crate::features::{Comparison, Dimension, Feature, Orientation};
use crate::queries::{MediaQuery, MediaType, Prefix};

fn compares(compared: Comparison, have: u64, wanted: u64) -> bool
    ensures { result ≡ compares (comparison_of compared) have wanted }
{
    match compared {
        Comparison::Exactly => have == wanted,
        Comparison::AtLeast => have >= wanted,
        Comparison::AtMost => have <= wanted,
    }
}

fn feature_matches(feature: Feature, width: u64, height: u64) -> bool
    ensures { result ≡ feature_matches width height (feature_of feature) }
{
    match feature {
        Feature::Sized(Dimension::Width, compared, units) => compares(compared, width, units),
        Feature::Sized(Dimension::Height, compared, units) => compares(compared, height, units),
        Feature::Oriented(Orientation::Portrait) => height >= width,
        Feature::Oriented(Orientation::Landscape) => height < width,
    }
}

fn each_matches(features: &[Feature], width: u64, height: u64) -> bool
    ensures { result ≡ list_all (λ feature. feature_matches width height (feature_of feature)) features.now }
{
    features
        .iter()
        .all(|feature| feature_matches(*feature, width, height))
}

fn all_match(features: &[Feature], width: u64, height: u64) -> bool
    ensures { result ≡ list_all (feature_matches width height) (map feature_of features.now) }
{
    each_matches(features, width, height)
}

fn one_matches(features: &[Feature], width: u64, height: u64) -> bool
    ensures { result ≡ list_any (λ feature. feature_matches width height (feature_of feature)) features.now }
{
    features
        .iter()
        .any(|feature| feature_matches(*feature, width, height))
}

fn any_matches(features: &[Feature], width: u64, height: u64) -> bool
    ensures { result ≡ list_any (feature_matches width height) (map feature_of features.now) }
{
    one_matches(features, width, height)
}

fn medium_matches(medium: MediaType) -> bool
    ensures { result ≡ medium_matches (medium_of medium) }
{
    !matches!(medium, MediaType::Print)
}

/// Applies the prefix of a query to its result: `not` negates it, `only` has no effect.
fn turned(before: Prefix, holds: bool) -> bool
    ensures { result ≡ turned (prefix_of before) holds }
{
    match before {
        Prefix::Not => !holds,
        Prefix::Absent | Prefix::Only => holds,
    }
}

#[tactic(auto, unfolding(script_model::specs::Media::query_matches))]
fn query_matches(query: &MediaQuery, width: u64, height: u64) -> bool
    ensures { result ≡ query_matches width height (query_of query.now) }
{
    match query {
        MediaQuery::Typed(before, medium, features) => {
            if !medium_matches(*medium) {
                return turned(*before, false);
            }
            turned(*before, all_match(features.as_slice(), width, height))
        }
        MediaQuery::NotFeature(feature) => !feature_matches(*feature, width, height),
        MediaQuery::Every(first, others) => {
            if !feature_matches(*first, width, height) {
                return false;
            }
            all_match(others.as_slice(), width, height)
        }
        MediaQuery::Either(first, second, others) => {
            if feature_matches(*first, width, height) {
                return true;
            }
            if feature_matches(*second, width, height) {
                return true;
            }
            any_matches(others.as_slice(), width, height)
        }
    }
}

/// Whether one of the queries matches a viewport of this size.
pub fn any_query_matches(queries: &[MediaQuery], width: u64, height: u64) -> bool
    ensures { result ≡ list_any (λ query. query_matches width height (query_of query)) queries.now }
{
    queries
        .iter()
        .any(|query| query_matches(query, width, height))
}
