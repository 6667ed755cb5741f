//! Splitting of a text into lines.

ghost use Rattle.std.specs.Prelude.{◌≡◌, ◌≤◌, ◌==◌, not, length};
ghost use Rattle.std.specs.List.{prefix_len};
ghost use Rattle.text_lines.specs.Lines.{first_line, behind_line};

// Returns the number of bytes before the first line feed.
fn line_length(text: &[u8]) -> usize
    ensures count { result ≡ prefix_len (λ byte. not (byte == 10)) text.now }
    ensures bound { result ≤ length text.now }
{
    text.iter().take_while(|byte| **byte != b'\n').count()
}

/// Splits a text after its first line feed: returns the first line, with its line feed if it has one, and the rest. Allocates
/// nothing.
#[tactic(auto, using(crate::proofs::Splits::first_is_taken, crate::proofs::Splits::behind_is_left, crate::proofs::Splits::first_is_whole, crate::proofs::Splits::nothing_behind))]
pub fn split_line(text: &[u8]) -> (&[u8], &[u8])
    ensures line { result.0.now ≡ first_line text.now }
    ensures rest { result.1.now ≡ behind_line text.now }
{
    let length = line_length(text);
    if length < text.len() {
        text.split_at(length + 1)
    } else {
        (text, &[])
    }
}
