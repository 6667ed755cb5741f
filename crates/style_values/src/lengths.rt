//! Parsing of property values that are lengths.

ghost use Rattle.std.specs.Prelude.{◌≡◌, ◌≤◌, ◌≤ℤ◌, pos, neg_ℤ, option_map, unsigned_abs, IfSome};
ghost use Rattle.word_model.specs.Numbers.{length_of};
ghost use Rattle.px_units.specs.Lengths.{Percentage, InsetPixels, InsetPercentage, seen_length, seen_inset};
ghost use Rattle.script_model.specs.Properties.{size_of, auto_or_size_of, none_or_size_of, inset_of};
ghost use Rattle.style_values.specs.Ranges.{IsUnits, IsSize, IsAutoOrSize, IsNoneOrSize, IsInset};

use px_units::{Length, Percent, Px};

/// Returns the length of `count` units of 1/64 pixel.
fn units(count: u64) -> Px
    requires { count ≤ 64000000 }
    ensures value { unsigned_abs result.0 ≡ count }
    ensures range { IsUnits result.0 }
{
    Px(count as i64)
}

/// Returns the percentage of `count` hundredths of a percent.
fn hundredths(count: u64) -> Length
    requires { count ≤ 1000000 }
    ensures value { seen_length result ≡ Percentage count }
    ensures range { IsSize result }
{
    Length::Percent(Percent(count as i32))
}

/// Parses a length in pixels, at most 1,000,000. Returns `None` for any other word.
pub fn border(word: &[u8]) -> Option<Px>
    ensures value { option_map (λ px. unsigned_abs px.0) result ≡ length_of word.now }
    ensures range { IfSome result (λ px. IsUnits px.0) }
{
    Some(units(word_model::length(word)?))
}

/// Parses a length in pixels, at most 1,000,000, or a percentage, at most 10,000. Returns `None` for any other word.
#[tactic(auto, using(crate::proofs::Sizes::size_units, crate::proofs::Sizes::size_percent))]
pub fn size(word: &[u8]) -> Option<Length>
    ensures value { option_map seen_length result ≡ size_of word.now }
    ensures range { IfSome result (λ length. IsSize length) }
{
    if let Some(count) = word_model::length(word) {
        return Some(Length::Px(units(count)));
    }
    Some(hundredths(word_model::percent(word)?))
}

/// Parses `auto`, a length or a percentage. Returns `None` for any other word.
#[tactic(auto, using(crate::proofs::Sizes::auto_or_size_of_is))]
pub fn auto_or_size(word: &[u8]) -> Option<Length>
    ensures value { option_map seen_length result ≡ auto_or_size_of word.now }
    ensures range { IfSome result (λ length. IsAutoOrSize length) }
{
    if word == b"auto".as_slice() {
        return Some(Length::Auto);
    }
    size(word)
}

/// Parses `none` (as `Some(None)`), a length or a percentage. Returns `None` for any other word.
#[tactic(auto, using(crate::proofs::Sizes::none_or_size_of_is))]
pub fn none_or_size(word: &[u8]) -> Option<Option<Length>>
    ensures value { option_map (λ value. option_map seen_length value) result ≡ none_or_size_of word.now }
    ensures range { IfSome result (λ value. IsNoneOrSize value) }
{
    if word == b"none".as_slice() {
        return Some(None);
    }
    Some(Some(size(word)?))
}

/// Returns the inset of `count` units of 1/64 pixel.
fn inset_units(count: i64) -> Length
    requires { (neg_ℤ (pos 64000000) ≤ℤ count) × (count ≤ℤ pos 64000000) }
    ensures value { seen_inset result ≡ InsetPixels count }
    ensures range { IsInset result }
{
    Length::Px(Px(count))
}

/// Returns the inset of `count` hundredths of a percent.
fn inset_hundredths(count: i64) -> Length
    requires { (neg_ℤ (pos 1000000) ≤ℤ count) × (count ≤ℤ pos 1000000) }
    ensures value { seen_inset result ≡ InsetPercentage count }
    ensures range { IsInset result }
{
    Length::Percent(Percent(count as i32))
}

/// Parses `auto`, or a length or a percentage with an optional `-`. Returns `None` for any other word.
#[tactic(auto, using(crate::proofs::Insets::inset_auto, crate::proofs::Insets::inset_units, crate::proofs::Insets::inset_percent))]
pub fn inset(word: &[u8]) -> Option<Length>
    ensures value { option_map seen_inset result ≡ inset_of word.now }
    ensures range { IfSome result (λ length. IsInset length) }
{
    if word == b"auto".as_slice() {
        return Some(Length::Auto);
    }
    if let Some(units) = word_model::signed_length(word) {
        return Some(inset_units(units));
    }
    Some(inset_hundredths(word_model::signed_percent(word)?))
}
