//! Printing of conditions of `when`.

ghost use Rattle.std.specs.Prelude.{◌≡◌, ◌++◌, ◌∷◌, cond, OnOk, codes};
ghost use Rattle.script_print.specs.Spaced.{spaced};
ghost use Rattle.script_syntax.specs.Seen.{test_of, condition_of};
ghost use Rattle.script_text.specs.Parts.{all_words};
ghost use Rattle.script_text.specs.Phrases.{test_head, test_parts, condition_words};
ghost use Rattle.script_text.specs.ScriptText.{line_text};

use crate::operands::Entry::{Length, Node, Word};
use crate::operands::push_phrase;
use script_syntax::{Condition, Test};
use std::alloc::AllocError;

/// Appends the words of a test.
fn push_test(into: &mut Vec<u8>, test: Test) -> Result<(), AllocError>
    ensures { OnOk result (into.new.items ≡ into.old.items ++ spaced (test_head (test_of test) ∷ all_words (test_parts (test_of test)))) }
{
    match test {
        Test::Wider(node, px) => push_phrase(into, b"wider", &[Node(node), Length(px.0)]),
        Test::Taller(node, px) => push_phrase(into, b"taller", &[Node(node), Length(px.0)]),
        Test::Matches(query) => push_phrase(into, b"matches", &[Word(query)]),
        Test::Attached(node) => push_phrase(into, b"attached", &[Node(node)]),
        Test::Seen => push_phrase(into, b"seen", &[]),
    }
}

/// Returns the words before a test.
fn before_test(negated: bool) -> &'static [u8]
    ensures { result.now ≡ cond negated (codes "when not") (codes "when") }
{
    if negated { b"when not" } else { b"when" }
}

/// Appends the line of a `when`.
#[tactic(auto, using(crate::proofs::LineWords::condition_pushed))]
pub fn push_condition(into: &mut Vec<u8>, condition: Condition) -> Result<(), AllocError>
    ensures { OnOk result (into.new.items ≡ into.old.items ++ line_text (codes "when" ∷ condition_words (condition_of condition))) }
{
    into.extend_from_slice(before_test(condition.negated))?;
    push_test(into, condition.asks)
}
