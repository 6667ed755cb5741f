//! Printing of the operands of a line, with a space before each word.

ghost use Rattle.std.specs.Prelude.{◌≡◌, ◌++◌, ◌∷◌, [], Some, map, option_map, unsigned_abs, OnOk};
ghost use Rattle.media_queries.specs.QueryText.{list_text};
ghost use Rattle.script_print.specs.OperandParts.{part_of};
ghost use Rattle.script_print.specs.Spaced.{spaced};
ghost use Rattle.script_model.specs.MarginText.{parts_of};
ghost use Rattle.script_syntax.specs.Seen.{operand_of, aim_of};
ghost use Rattle.style_values.specs.Seen.{seen_axis};
ghost use Rattle.script_text.specs.NumberText.{percent_text, signed_text, number_text};
ghost use Rattle.script_text.specs.Parts.{all_words, scroll_words};
ghost use Rattle.script_text.specs.WordText.{operand_text, aim_text, box_text, dimension_text, dash_or};
ghost use Rattle.script_text.specs.ScriptText.{line_text};
ghost use Rattle.word_model.specs.Numbers.{decimal};
ghost use Rattle.media_queries.specs.LengthText.{length_text};

use crate::declarations::push_declaration;
use crate::numbers::{push_number, push_percent, push_signed};
use media_queries::{Query, push_length};
use px_units::{BoxKind, Percent};
use script_syntax::{Aim, IoMaking, MarginText, NumberList, Operand};
use std::alloc::AllocError;
use style_values::{Axis, Declaration};
use text_io::{EventKind, Name};
use word_model::push_decimal;

/// An operand of a line. Lengths are in units of 1/64 CSS pixel.
#[derive(Clone, Copy)]
pub enum Entry {
    Word(Name),
    Node(Operand),
    Aimed(Aim),
    /// `None` for `-`.
    Handler(Option<Name>),
    /// `None` for `-`.
    Root(Option<Operand>),
    Length(i64),
    Signed(i64),
    Percentage(Percent),
    Whole(u64),
    Event(EventKind),
    Observed(BoxKind),
    Dimension(Axis),
    Declared(Declaration),
}

/// Appends a space and a word.
#[tactic(auto, using(crate::proofs::LineWords::word_pushed))]
pub fn push_word(into: &mut Vec<u8>, word: &[u8]) -> Result<(), AllocError>
    ensures { OnOk result (into.new.items ≡ into.old.items ++ spaced (word.now ∷ [])) }
{
    into.push(b' ')?;
    into.extend_from_slice(word)
}

fn push_name(into: &mut Vec<u8>, name: Name) -> Result<(), AllocError>
    ensures { OnOk result (into.new.items ≡ into.old.items ++ spaced (name ∷ [])) }
{
    push_word(into, name.bytes())
}

fn push_operand(into: &mut Vec<u8>, operand: Operand) -> Result<(), AllocError>
    ensures { OnOk result (into.new.items ≡ into.old.items ++ spaced (operand_text (operand_of operand) ∷ [])) }
{
    match operand {
        Operand::Named(name) => push_name(into, name),
        Operand::Target => push_word(into, b"$target"),
    }
}

/// Appends a space, an `@` and the name of the window's document.
#[tactic(auto, using(crate::proofs::LineWords::two_pieces))]
fn push_window(into: &mut Vec<u8>, document: Name) -> Result<(), AllocError>
    ensures { OnOk result (into.new.items ≡ into.old.items ++ spaced ((64 ∷ document) ∷ [])) }
{
    into.extend_from_slice(b" @")?;
    into.extend_from_slice(document.bytes())
}

fn push_aim(into: &mut Vec<u8>, aim: Aim) -> Result<(), AllocError>
    ensures { OnOk result (into.new.items ≡ into.old.items ++ spaced (aim_text (aim_of aim) ∷ [])) }
{
    match aim {
        Aim::Plain(operand) => push_operand(into, operand),
        Aim::Window(document) => push_window(into, document),
    }
}

fn push_handler(into: &mut Vec<u8>, handler: Option<Name>) -> Result<(), AllocError>
    ensures { OnOk result (into.new.items ≡ into.old.items ++ spaced (dash_or (λ name. name) handler ∷ [])) }
{
    match handler {
        Some(name) => push_name(into, name),
        None => push_word(into, b"-"),
    }
}

fn push_root(into: &mut Vec<u8>, root: Option<Operand>) -> Result<(), AllocError>
    ensures { OnOk result (into.new.items ≡ into.old.items ++ spaced (dash_or operand_text (option_map operand_of root) ∷ [])) }
{
    match root {
        Some(operand) => push_operand(into, operand),
        None => push_word(into, b"-"),
    }
}

/// Appends a space and a length.
#[tactic(auto, using(crate::proofs::LineWords::word_pushed))]
fn push_spaced_length(into: &mut Vec<u8>, units: u64) -> Result<(), AllocError>
    ensures { OnOk result (into.new.items ≡ into.old.items ++ spaced (length_text units ∷ [])) }
{
    into.push(b' ')?;
    push_length(into, units)
}

/// Appends a space and a length, which may be negative.
#[tactic(auto, using(crate::proofs::LineWords::word_pushed))]
fn push_spaced_signed(into: &mut Vec<u8>, units: i64) -> Result<(), AllocError>
    ensures { OnOk result (into.new.items ≡ into.old.items ++ spaced (signed_text units ∷ [])) }
{
    into.push(b' ')?;
    push_signed(into, units)
}

/// Appends a space and a percentage.
#[tactic(auto, using(crate::proofs::LineWords::word_pushed))]
fn push_spaced_percent(into: &mut Vec<u8>, percent: Percent) -> Result<(), AllocError>
    ensures { OnOk result (into.new.items ≡ into.old.items ++ spaced (percent_text (unsigned_abs percent.0) ∷ [])) }
{
    let hundredths = percent.0.unsigned_abs();
    into.push(b' ')?;
    push_percent(into, u64::from(hundredths))
}

/// Appends a space and a whole number.
#[tactic(auto, using(crate::proofs::LineWords::word_pushed))]
fn push_spaced_whole(into: &mut Vec<u8>, number: u64) -> Result<(), AllocError>
    ensures { OnOk result (into.new.items ≡ into.old.items ++ spaced (decimal number ∷ [])) }
{
    into.push(b' ')?;
    push_decimal(into, u128::from(number))
}

/// Appends a space and a number.
#[tactic(auto, using(crate::proofs::LineWords::word_pushed))]
fn push_spaced_number(into: &mut Vec<u8>, number: &i64) -> Result<(), AllocError>
    ensures { OnOk result (into.new.items ≡ into.old.items ++ spaced (number_text number.now ∷ [])) }
{
    let ten_thousandths = *number;
    into.push(b' ')?;
    push_number(into, ten_thousandths)
}

fn box_text(observed: BoxKind) -> &'static [u8]
    ensures { result.now ≡ box_text observed }
{
    match observed {
        BoxKind::Content => b"content",
        BoxKind::Border => b"border",
        BoxKind::Device => b"device",
    }
}

fn dimension_text(axis: Axis) -> &'static [u8]
    ensures { result.now ≡ dimension_text (seen_axis axis) }
{
    match axis {
        Axis::Width => b"width",
        Axis::Height => b"height",
    }
}

/// Appends the words of an operand.
fn push_entry(into: &mut Vec<u8>, entry: Entry) -> Result<(), AllocError>
    ensures { OnOk result (into.new.items ≡ into.old.items ++ spaced (all_words (part_of entry ∷ []))) }
{
    match entry {
        Entry::Word(name) => push_name(into, name),
        Entry::Node(operand) => push_operand(into, operand),
        Entry::Aimed(aim) => push_aim(into, aim),
        Entry::Handler(handler) => push_handler(into, handler),
        Entry::Root(root) => push_root(into, root),
        Entry::Length(units) => push_spaced_length(into, units.unsigned_abs()),
        Entry::Signed(units) => push_spaced_signed(into, units),
        Entry::Percentage(percent) => push_spaced_percent(into, percent),
        Entry::Whole(number) => push_spaced_whole(into, number),
        Entry::Event(event) => push_word(into, event.text().as_bytes()),
        Entry::Observed(observed) => push_word(into, box_text(observed)),
        Entry::Dimension(axis) => push_word(into, dimension_text(axis)),
        Entry::Declared(declaration) => push_declaration(into, declaration),
    }
}

/// Appends the words of operands, in order.
pub fn push_entries(into: &mut Vec<u8>, entries: &[Entry]) -> Result<(), AllocError>
    ensures { OnOk result (into.new.items ≡ into.old.items ++ spaced (all_words (map part_of entries.now))) }
{
    for entry in entries {
        push_entry(into, *entry)?;
    }
    Ok(())
}

/// Appends the first word of a line and its operands.
#[tactic(auto, using(crate::proofs::LineWords::line_pushed))]
pub fn push_line(into: &mut Vec<u8>, head: &[u8], entries: &[Entry]) -> Result<(), AllocError>
    ensures { OnOk result (into.new.items ≡ into.old.items ++ line_text (head.now ∷ all_words (map part_of entries.now))) }
{
    into.extend_from_slice(head)?;
    push_entries(into, entries)
}

/// Appends a space, a word and its operands.
#[tactic(auto, using(crate::proofs::LineWords::phrase_pushed))]
pub fn push_phrase(into: &mut Vec<u8>, head: &[u8], entries: &[Entry]) -> Result<(), AllocError>
    ensures { OnOk result (into.new.items ≡ into.old.items ++ spaced (head.now ∷ all_words (map part_of entries.now))) }
{
    push_word(into, head)?;
    push_entries(into, entries)
}

/// Appends the words of a root margin and, if there is one, `scroll` and the words of a scroll margin.
#[tactic(auto, using(crate::proofs::LineWords::words_pushed))]
pub fn push_margins(into: &mut Vec<u8>, making: &IoMaking) -> Result<(), AllocError>
    ensures { OnOk result (into.new.items ≡ into.old.items ++ spaced (parts_of making.now.margin ++ scroll_words making.now.scroll)) }
{
    push_margin(into, &making.margin)?;
    push_scroll(into, making)
}

fn push_scroll(into: &mut Vec<u8>, making: &IoMaking) -> Result<(), AllocError>
    ensures { OnOk result (into.new.items ≡ into.old.items ++ spaced (scroll_words making.now.scroll)) }
{
    match &making.scroll {
        Some(margin) => push_scroll_margin(into, margin),
        None => Ok(()),
    }
}

#[tactic(auto, using(crate::proofs::LineWords::phrase_pushed))]
fn push_scroll_margin(into: &mut Vec<u8>, margin: &MarginText) -> Result<(), AllocError>
    ensures { OnOk result (into.new.items ≡ into.old.items ++ spaced (scroll_words (Some margin.now))) }
{
    push_word(into, b"scroll")?;
    push_margin(into, margin)
}

/// Appends the words of a margin as they were read.
#[tactic(auto, using(crate::proofs::LineWords::margin_pushed, crate::proofs::LineWords::no_margin))]
fn push_margin(into: &mut Vec<u8>, margin: &MarginText) -> Result<(), AllocError>
    ensures { OnOk result (into.new.items ≡ into.old.items ++ spaced (parts_of margin.now)) }
{
    let words = margin.as_slice();
    if words.is_empty() {
        return Ok(());
    }
    into.push(b' ')?;
    into.extend_from_slice(words)
}

/// Appends numbers, each after a space.
fn push_numbers(into: &mut Vec<u8>, numbers: &[i64]) -> Result<(), AllocError>
    ensures { OnOk result (into.new.items ≡ into.old.items ++ spaced (map number_text numbers.now)) }
{
    for number in numbers {
        push_spaced_number(into, number)?;
    }
    Ok(())
}

/// Appends the thresholds of an observer.
pub fn push_thresholds(into: &mut Vec<u8>, numbers: &NumberList) -> Result<(), AllocError>
    ensures { OnOk result (into.new.items ≡ into.old.items ++ spaced (map number_text numbers.now)) }
{
    push_numbers(into, numbers.as_slice())
}

/// Appends a space and a media query list.
#[tactic(auto, using(crate::proofs::LineWords::word_pushed))]
pub fn push_query(into: &mut Vec<u8>, query: &Query) -> Result<(), AllocError>
    ensures { OnOk result (into.new.items ≡ into.old.items ++ spaced (list_text query.now ∷ [])) }
{
    into.push(b' ')?;
    query.push_text(into)
}
