//! Margins and lists of numbers in commands.

ghost use Rattle.std.specs.Prelude.{◌≡◌};

use std::marker::Model;

/// The words of a root margin or scroll margin, joined with single spaces. A contract sees its bytes.
#[derive(Drop)]
pub struct MarginText {
    bytes: Vec<u8>,
}

impl Model for MarginText {
    ghost use Rattle.std.specs.Prelude.{ℕ, List};

    ghost Value = { List ℕ };

    ghost view = { λ text. text.bytes.items };
}

impl MarginText {
    /// Creates the text with these bytes.
    pub fn new(bytes: Vec<u8>) -> MarginText
        ensures { result ≡ bytes.items }
    {
        MarginText { bytes }
    }

    /// Returns its bytes.
    pub fn as_slice(&self) -> &[u8]
        ensures { result.now ≡ self.now }
    {
        self.bytes.as_slice()
    }
}

/// A list of numbers in ten-thousandths. A contract sees the list.
#[derive(Drop)]
pub struct NumberList {
    numbers: Vec<i64>,
}

impl Model for NumberList {
    ghost use Rattle.std.specs.Prelude.{ℤ, List};

    ghost Value = { List ℤ };

    ghost view = { λ list. list.numbers.items };
}

impl NumberList {
    /// Creates the list of these numbers.
    pub fn new(numbers: Vec<i64>) -> NumberList
        ensures { result ≡ numbers.items }
    {
        NumberList { numbers }
    }

    /// Returns its numbers.
    pub fn as_slice(&self) -> &[i64]
        ensures { result.now ≡ self.now }
    {
        self.numbers.as_slice()
    }
}
