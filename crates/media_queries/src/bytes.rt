//! Parsers for single bytes and words. Each returns the rest of the text.

ghost use Rattle.std.specs.Prelude.{◌≡◌};
ghost use Rattle.script_model.specs.Media.{byte_at, word_at, is_blank, skip, gap_at, colon_at};
ghost use Rattle.media_queries.specs.Seen.{rest_of};

/// Where a parser met a byte that it can't accept, or the end of the text.
#[derive(Clone, Copy)]
pub struct Stopped {
    /// The number of bytes left from there; 0 at the end of the text.
    pub left: usize,
}

/// Parses this byte.
#[tactic(auto, unfolding(script_model::specs::Media::byte_at))]
pub fn byte_at(byte: u8, text: &[u8]) -> Result<&[u8], Stopped>
    ensures { rest_of result ≡ byte_at byte text.now }
{
    match text {
        [first, rest @ ..] => {
            if *first == byte {
                Ok(rest)
            } else {
                Err(Stopped { left: text.len() })
            }
        }
        [] => Err(Stopped { left: 0 }),
    }
}

/// Parses this word.
#[tactic(auto, using(crate::proofs::Words::word_on, crate::proofs::Words::word_stops, crate::proofs::Words::word_ends))]
pub fn word_at<'a>(word: &[u8], text: &'a [u8]) -> Result<&'a [u8], Stopped>
    ensures { rest_of result ≡ word_at word.now text.now }
{
    let mut rest = text;
    for byte in word {
        rest = byte_at(*byte, rest)?;
    }
    Ok(rest)
}

fn is_blank(byte: u8) -> bool
    ensures { result ≡ is_blank byte }
{
    byte == b' ' || byte == b'\t'
}

/// Skips zero or more spaces and tabs.
#[tactic(auto, using(crate::proofs::Words::skip_on))]
pub fn skip(text: &[u8]) -> &[u8]
    ensures { result.now ≡ skip text.now }
{
    for (place, byte) in text.iter().enumerate() {
        if !is_blank(*byte) {
            return &text[place..];
        }
    }
    &[]
}

/// Parses one or more spaces and tabs.
#[tactic(auto, unfolding(script_model::specs::Media::gap_at))]
pub fn gap_at(text: &[u8]) -> Result<&[u8], Stopped>
    ensures { rest_of result ≡ gap_at text.now }
{
    match text {
        [first, rest @ ..] => {
            if is_blank(*first) {
                Ok(skip(rest))
            } else {
                Err(Stopped { left: text.len() })
            }
        }
        [] => Err(Stopped { left: 0 }),
    }
}

/// Parses a `:` with optional spaces and tabs around it.
#[tactic(auto, unfolding(script_model::specs::Media::colon_at))]
pub fn colon_at(text: &[u8]) -> Result<&[u8], Stopped>
    ensures { rest_of result ≡ colon_at text.now }
{
    let rest = byte_at(b':', skip(text))?;
    Ok(skip(rest))
}
