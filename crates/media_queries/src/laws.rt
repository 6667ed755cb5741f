//! Laws of the definitions, for every text, each stated as the contract of a function with an empty body.

ghost use Rattle.std.specs.Prelude.{◌≡◌, ℕ, ◌≤◌, List, [], length, Ok, Err, codes};
ghost use Rattle.script_model.specs.Queries.{MediaQuery};
ghost use Rattle.script_model.specs.Media.{length_at, query_list};
ghost use Rattle.media_queries.specs.LengthText.{length_text};
ghost use Rattle.media_queries.specs.QueryText.{list_text};
ghost use Rattle.media_queries.specs.Begins.{IsFirstBad};

/// The printed text of a length parses as this length, and no text that does is shorter.
#[tactic(auto, using(crate::proofs::ShortLengths::length_reads_back, crate::proofs::ShortLengths::no_shorter_length))]
pub fn printed_length_reads_back()
    ensures same { (units : ℕ) → units ≤ 64000000 → length_at (length_text units) ≡ Ok (units, []) }
    ensures shortest { (text : List ℕ) (units : ℕ) → length_at text ≡ Ok (units, []) → length (length_text units) ≤ length text }
{}

/// Lengths of each form. `0.02px` and `0.03px` are both one unit, and the first of them is printed.
#[tactic(auto, unfolding(crate::specs::LengthText::length_text))]
pub fn printed_lengths()
    ensures nothing { length_text 0 ≡ codes "0px" }
    ensures largest { length_text 64000000 ≡ codes "1000000px" }
    ensures half { length_text 32 ≡ codes "0.5px" }
    ensures tenths { length_text 40992 ≡ codes "640.5px" }
    ensures unit { length_text 1 ≡ codes "0.02px" }
    ensures below { length_text 63 ≡ codes "0.99px" }
    ensures quarter { length_text 144 ≡ codes "2.25px" }
    ensures hundredths { length_text 789 ≡ codes "12.33px" }
{}

/// The printed text of a parsed list parses as the same list, and no text that does is shorter.
#[tactic(auto, using(crate::proofs::Shortest::list_again, crate::proofs::Shortest::no_shorter))]
pub fn printed_list_reads_back()
    ensures same { (text : List ℕ) (queries : List MediaQuery) → query_list text ≡ Ok queries → query_list (list_text queries) ≡ Ok queries }
    ensures shortest { (text : List ℕ) (queries : List MediaQuery) → query_list text ≡ Ok queries → length (list_text queries) ≤ length text }
{}

/// The column of a fault is that of the first byte with which the text is no longer the beginning of a list; if the whole text
/// is only the beginning of a list, it is one past the end.
#[tactic(auto, using(crate::proofs::Columns::first_bad))]
pub fn fault_is_at_the_first_bad_byte()
    ensures { (text : List ℕ) (column : ℕ) → query_list text ≡ Err column → IsFirstBad text column }
{}
