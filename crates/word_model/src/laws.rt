//! Laws of the definitions, each stated as the contract of a function with an empty body.

ghost use Rattle.std.specs.Prelude.{◌≡◌, ℕ, ◌≤◌, List, negsuc, codes, true};
ghost use Rattle.word_model.specs.Numbers.{decimal, whole_of, length_of, signed_of, signed_percent_of, number_of, is_decimal_with, spelled, begins_with, unsigned, leading_digits, fraction_digits, unit_of};

/// A number printed in decimal parses back as itself.
#[tactic(auto, using(crate::proofs::RoundTrip::reads_back))]
pub fn decimal_reads_back()
    ensures { (number : ℕ) → number ≤ 1000000000000 → whole_of (decimal number) ≡ Some number }
{}

/// Every text is the concatenation of its sign, its whole digits, its point with the digits after it, and its unit.
#[tactic(auto, using(crate::proofs::Spelled::spelled_again))]
pub fn text_is_its_parts()
    ensures { (text : List ℕ) → spelled (begins_with 45 text) (leading_digits (unsigned text)) (fraction_digits (unsigned text)) (unit_of (unsigned text)) ≡ text }
{}

/// Examples of each form that show where values are truncated and where the bounds lie.
#[tactic(auto, using(crate::proofs::Rows::half, crate::proofs::Rows::cut, crate::proofs::Rows::largest, crate::proofs::Rows::above, crate::proofs::Rows::minus, crate::proofs::Rows::above_percent, crate::proofs::Rows::quarter, crate::proofs::Rows::zeros, crate::proofs::Rows::out_of_range))]
pub fn forms_at_texts()
    ensures half { length_of (codes "0.5px") ≡ Some 32 }
    ensures cut { length_of (codes "0.99px") ≡ Some 63 }
    ensures largest { length_of (codes "1000000px") ≡ Some 64000000 }
    ensures above { length_of (codes "1000000.01px") ≡ None }
    ensures minus { signed_of (codes "-0.99px") ≡ Some (negsuc 62) }
    ensures above_percent { signed_percent_of (codes "-10000.01%") ≡ None }
    ensures quarter { number_of (codes "-0.25") ≡ Some (negsuc 2499) }
    ensures zeros { whole_of (codes "00") ≡ None }
    ensures out_of_range { is_decimal_with (codes "px") (codes "-12345678.999px") ≡ true }
{}
