//! Keywords and their values.

ghost use Rattle.std.specs.Prelude.{◌≡◌, map, option_map};
ghost use Rattle.script_model.specs.Keywords.{keyword, lookup};
ghost use Rattle.script_model.specs.Properties.{displays, box_sizings, overflows, positions};
ghost use Rattle.style_values.specs.Seen.{seen_display, seen_box_sizing, seen_overflow, seen_position};

use crate::{BoxSizing, Display, Overflow, Position};

const DISPLAYS: [(&[u8], Display); 2] = [(b"block", Display::Block), (b"none", Display::Hidden)];

const BOX_SIZINGS: [(&[u8], BoxSizing); 2] = [
    (b"content-box", BoxSizing::Content),
    (b"border-box", BoxSizing::Border),
];

const OVERFLOWS: [(&[u8], Overflow); 5] = [
    (b"visible", Overflow::Visible),
    (b"hidden", Overflow::Hidden),
    (b"clip", Overflow::Clip),
    (b"scroll", Overflow::Scroll),
    (b"auto", Overflow::Auto),
];

const POSITIONS: [(&[u8], Position); 4] = [
    (b"static", Position::Static),
    (b"relative", Position::Relative),
    (b"absolute", Position::Absolute),
    (b"fixed", Position::Fixed),
];

/// Looks a word up in a table of fixed words: returns the value in the first row with that word, or `None` if there is none.
#[tactic(auto, unfolding(script_model::specs::Keywords::lookup))]
pub fn lookup<T: Copy>(mut table: &[(&[u8], T)], word: &[u8]) -> Option<T>
    ensures { result ≡ lookup (map (λ row. keyword row.0.now row.1) table.entry.now) word.now }
{
    while let [row, rest @ ..] = table {
        if word == row.0 {
            return Some(row.1);
        }
        table = rest;
    }
    None
}

/// Returns the `display` value that this word names, or `None`.
pub fn display(word: &[u8]) -> Option<Display>
    ensures { option_map seen_display result ≡ lookup displays word.now }
{
    lookup(&DISPLAYS, word)
}

/// Returns the `box-sizing` value that this word names, or `None`.
pub fn box_sizing(word: &[u8]) -> Option<BoxSizing>
    ensures { option_map seen_box_sizing result ≡ lookup box_sizings word.now }
{
    lookup(&BOX_SIZINGS, word)
}

/// Returns the `overflow` value that this word names, or `None`.
pub fn overflow(word: &[u8]) -> Option<Overflow>
    ensures { option_map seen_overflow result ≡ lookup overflows word.now }
{
    lookup(&OVERFLOWS, word)
}

/// Returns the `position` value that this word names, or `None`.
pub fn position(word: &[u8]) -> Option<Position>
    ensures { option_map seen_position result ≡ lookup positions word.now }
{
    lookup(&POSITIONS, word)
}
