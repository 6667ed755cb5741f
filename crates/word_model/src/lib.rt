//! The lexical forms of a script's words: names, and numbers written in decimal.
#![tactic(auto)]

mod laws;
mod names;
mod numbers;
mod parts;
mod print;

pub use laws::{decimal_reads_back, forms_at_texts, text_is_its_parts};
pub use names::{is_digit, is_letter, is_name, is_name_byte};
pub use numbers::{
    is_decimal_with, is_whole, length, number, percent, signed_length, signed_percent, whole,
};
pub use parts::{begins_with, split_digits};
pub use print::push_decimal;
