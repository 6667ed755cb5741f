//! Laws of the definitions, for every script, each stated as the contract of a function that does nothing.

ghost use Rattle.std.specs.Prelude.{◌≡◌, ◌↔◌, ℕ, ℤ, ◌≤◌, unsigned_abs, true, List, length, All, Some, Ok};
ghost use Rattle.word_model.specs.Numbers.{length_of, signed_of, percent_of, signed_percent_of, number_of};
ghost use Rattle.media_queries.specs.LengthText.{length_text};
ghost use Rattle.script_model.specs.Syntax.{Script};
ghost use Rattle.script_model.specs.Reading.{reading};
ghost use Rattle.script_text.specs.ByteOrder.{is_not_after};
ghost use Rattle.script_text.specs.NumberedLines.{items_lines};
ghost use Rattle.script_text.specs.ScriptText.{line_text, script_text, printed};
ghost use Rattle.script_text.specs.LineOfText.{line_numbered};
ghost use Rattle.script_text.specs.WellFormed.{IsWellFormed};
ghost use Rattle.script_text.specs.NumberText.{percent_text, signed_text, signed_percent_text, number_text};

use script_model::laws::{
    bad_byte_ends_the_text, carriage_return_before_a_line_feed, last_line_needs_no_line_feed,
    line_feed_ends_a_line, long_line_ends_the_text, script_limit_comes_first,
};

/// The printed text of a well-formed script reads as the same script, with the same line numbers.
pub fn printed_script_reads_back()
    ensures { (script : Script) → IsWellFormed script → reading (printed script) ≡ Ok script }
{
    // the laws of the language on which this one rests
    line_feed_ends_a_line();
    last_line_needs_no_line_feed();
    script_limit_comes_first();
}

/// Whatever is read is well formed.
pub fn what_is_read_is_well_formed()
    ensures { (text : List ℕ) (script : Script) → reading text ≡ Ok script → IsWellFormed script }
{
    // the laws of the language on which this one rests
    line_feed_ends_a_line();
    carriage_return_before_a_line_feed();
    last_line_needs_no_line_feed();
    bad_byte_ends_the_text();
    long_line_ends_the_text();
    script_limit_comes_first();
}

/// The well-formed scripts are exactly those that some text reads as.
pub fn well_formed_scripts_are_those_read()
    ensures { (script : Script) → IsWellFormed script ↔ ((text : List ℕ) × (reading text ≡ Ok script)) }
{
    printed_script_reads_back();
    what_is_read_is_well_formed();
}

/// The line printed for a statement is no longer than the line of this number in the text that was read, and the printed
/// text of a script, up to its last line feed, is no longer than that text.
pub fn printed_lines_are_no_longer()
    ensures lines { (text : List ℕ) (script : Script) → reading text ≡ Ok script →
        All (λ l. length (line_text l.words) ≤ length (line_numbered l.number text)) (items_lines script.items) }
    ensures text { (text : List ℕ) (script : Script) → reading text ≡ Ok script → length (script_text script) ≤ length text }
{
    // the laws of the language on which this one rests
    line_feed_ends_a_line();
    carriage_return_before_a_line_feed();
    last_line_needs_no_line_feed();
    bad_byte_ends_the_text();
    long_line_ends_the_text();
    script_limit_comes_first();
}

/// Printed lengths, percentages and numbers read as the same values.
#[tactic(auto, using(crate::proofs::Values::length_reads, crate::proofs::Values::signed_reads, crate::proofs::Values::percent_reads, crate::proofs::Values::signed_percent_reads, crate::proofs::Values::number_reads))]
pub fn printed_values_read_back()
    ensures length { (units : ℕ) → units ≤ 64000000 → length_of (length_text units) ≡ Some units }
    ensures signed { (units : ℤ) → unsigned_abs units ≤ 64000000 → signed_of (signed_text units) ≡ Some units }
    ensures percent { (hundredths : ℕ) → hundredths ≤ 1000000 → percent_of (percent_text hundredths) ≡ Some hundredths }
    ensures signed_percent { (hundredths : ℤ) → unsigned_abs hundredths ≤ 1000000 → signed_percent_of (signed_percent_text hundredths) ≡ Some hundredths }
    ensures number { (number : ℤ) → unsigned_abs number ≤ 9999999999999 → number_of (number_text number) ≡ Some number }
{}

/// No text that reads as a length, a percentage or a number is shorter than the printed one.
#[tactic(auto, using(crate::proofs::Shortness::length_shorter, crate::proofs::Shortness::signed_shorter, crate::proofs::Shortness::percent_shorter, crate::proofs::Shortness::signed_percent_shorter, crate::proofs::Shortness::number_shorter))]
pub fn printed_values_are_shortest()
    ensures length { (text : List ℕ) (units : ℕ) → length_of text ≡ Some units → length (length_text units) ≤ length text }
    ensures signed { (text : List ℕ) (units : ℤ) → signed_of text ≡ Some units → length (signed_text units) ≤ length text }
    ensures percent { (text : List ℕ) (hundredths : ℕ) → percent_of text ≡ Some hundredths → length (percent_text hundredths) ≤ length text }
    ensures signed_percent { (text : List ℕ) (hundredths : ℤ) → signed_percent_of text ≡ Some hundredths → length (signed_percent_text hundredths) ≤ length text }
    ensures number { (text : List ℕ) (number : ℤ) → number_of text ≡ Some number → length (number_text number) ≤ length text }
{}

/// Of the texts of its length that read as the value, the printed one is the first in byte order.
#[tactic(auto, using(crate::proofs::Order::length_ordered, crate::proofs::Order::signed_ordered, crate::proofs::Order::percent_ordered, crate::proofs::Order::signed_percent_ordered, crate::proofs::Order::number_ordered))]
pub fn printed_values_are_first_in_byte_order()
    ensures length { (text : List ℕ) (units : ℕ) → length_of text ≡ Some units → length text ≡ length (length_text units) → is_not_after (length_text units) text ≡ true }
    ensures signed { (text : List ℕ) (units : ℤ) → signed_of text ≡ Some units → length text ≡ length (signed_text units) → is_not_after (signed_text units) text ≡ true }
    ensures percent { (text : List ℕ) (hundredths : ℕ) → percent_of text ≡ Some hundredths → length text ≡ length (percent_text hundredths) → is_not_after (percent_text hundredths) text ≡ true }
    ensures signed_percent { (text : List ℕ) (hundredths : ℤ) → signed_percent_of text ≡ Some hundredths → length text ≡ length (signed_percent_text hundredths) → is_not_after (signed_percent_text hundredths) text ≡ true }
    ensures number { (text : List ℕ) (number : ℤ) → number_of text ≡ Some number → length text ≡ length (number_text number) → is_not_after (number_text number) text ≡ true }
{}
