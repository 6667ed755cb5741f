ghost use Rattle.std.specs.Prelude.{◌≡◌, ◌∷◌, ◌≤ℤ◌, ◌*ℤ◌, pos, negsuc, int_div, not, ◌==◌, ◌≤◌, length, None, IfSome, MatchOption, option_map};
ghost use Rattle.std.specs.Option.{option_copied};
ghost use Rattle.std.specs.List.{prefix_len};
ghost use Rattle.script_model.specs.MarginText.{part_of, parts_read, split_at_spaces};
ghost use Rattle.page_model.specs.Chains.{margin_units};
ghost use Rattle.thresholds.specs.Parts.{seen_part, IsWithinForm, texts_behind};
ghost use Rattle.thresholds.specs.Roots.{IsRootWidth, IsMargin};

use px_units::{Percent, Px};

/// One component of a root margin.
#[derive(Clone, Copy, Debug, PartialEq, Eq)]
pub enum Part {
    Pixels(Px),
    /// A percentage of the root rectangle's width, on all four sides.
    Percentage(Percent),
}

/// Parses a component: a number with `px` or `%`.
#[tactic(auto, unfolding(script_model::specs::MarginText::part_of, script_model::specs::Properties::either_of))]
pub fn read(word: &[u8]) -> Option<Part>
    ensures value { option_map seen_part result ≡ part_of word.now }
    ensures bound { IfSome result IsWithinForm }
{
    if let Some(units) = word_model::signed_length(word) {
        return Some(Part::Pixels(Px(units)));
    }
    let hundredths = word_model::signed_percent(word)?;
    Some(Part::Percentage(Percent(hundredths as i32)))
}

/// Returns the length of the text before the first space.
fn front_length(text: &[u8]) -> usize
    ensures count { result ≡ prefix_len (λ byte. not (byte == 32)) text.now }
    ensures bound { result ≤ length text.now }
{
    text.iter().take_while(|byte| **byte != b' ').count()
}

/// Splits at the first space: the text before it, and the text after it if there is a space.
#[tactic(auto, using(crate::proofs::Cuts::whole_text))]
pub fn cut(text: &[u8]) -> (&[u8], Option<&[u8]>)
    ensures { split_at_spaces text.now ≡ result.0.now ∷ texts_behind (option_copied result.1) }
{
    let place = front_length(text);
    if place >= text.len() {
        return (text, None);
    }
    let (front, rest) = text.split_at(place);
    (front, Some(&rest[1..]))
}

/// Parses the first component; also returns the text after the space that follows it, if any.
#[tactic(auto, using(crate::proofs::Reading::unread))]
pub fn first_part(text: &[u8]) -> Option<(Part, Option<&[u8]>)>
    ensures value { MatchOption result (parts_read (split_at_spaces text.now) ≡ None) (λ first. parts_read (split_at_spaces text.now) ≡ option_map (λ others. seen_part first.0 ∷ others) (parts_read (texts_behind (option_copied first.1)))) }
    ensures form { IfSome result (λ first. IsWithinForm first.0) }
{
    let (word, behind) = cut(text);
    match read(word) {
        Some(part) => Some((part, behind)),
        None => None,
    }
}

/// Returns a percentage, given in hundredths of a percent, of a width, truncated toward zero.
#[tactic(auto, using(crate::proofs::Widths::product_low, crate::proofs::Widths::product_high, crate::proofs::Widths::part_low, crate::proofs::Widths::part_high))]
fn part_of_width(hundredths: i64, width: i64) -> i64
    requires low { negsuc 999999 ≤ℤ hundredths }
    requires high { hundredths ≤ℤ pos 1000000 }
    requires width { IsRootWidth width }
    ensures value { result ≡ int_div (width *ℤ hundredths) (pos 10000) }
    ensures low { negsuc 439804651110399 ≤ℤ result }
    ensures high { result ≤ℤ pos 439804651110400 }
{
    width * hundredths / 10_000
}

/// Returns a component in units of 1/64 pixel: a percentage is of `width`, truncated toward zero.
pub fn units(part: Part, width: i64) -> i64
    requires form { IsWithinForm part }
    requires width { IsRootWidth width }
    ensures value { result ≡ margin_units width (seen_part part) }
    ensures bound { IsMargin result }
{
    match part {
        Part::Pixels(px) => px.0,
        Part::Percentage(percent) => part_of_width(i64::from(percent.0), width),
    }
}
