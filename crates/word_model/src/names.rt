ghost use Rattle.std.specs.Prelude.{◌≡◌, ◌<◌, ◌≤◌, length, IsTrue};
ghost use Rattle.std.specs.List.{list_all};
ghost use Rattle.word_model.specs.Names.{is_letter, is_digit, is_name_byte, is_name};

/// Whether the byte is an ASCII letter.
pub fn is_letter(byte: u8) -> bool
    ensures { result ≡ is_letter byte }
{
    matches!(byte, b'a'..=b'z' | b'A'..=b'Z')
}

/// Whether the byte is an ASCII digit.
pub fn is_digit(byte: u8) -> bool
    ensures { result ≡ is_digit byte }
{
    matches!(byte, b'0'..=b'9')
}

/// Whether the byte may follow the first letter of a name: a letter, a digit, `_` or `-`.
pub fn is_name_byte(byte: u8) -> bool
    ensures { result ≡ is_name_byte byte }
{
    is_letter(byte) || is_digit(byte) || byte == b'_' || byte == b'-'
}

fn are_name_bytes(bytes: &[u8]) -> bool
    ensures { result ≡ list_all is_name_byte bytes.now }
{
    bytes.iter().all(|byte| is_name_byte(*byte))
}

/// Whether the word is a name: a letter, then up to 31 letters, digits, `_` or `-`.
#[tactic(auto, using(crate::proofs::Slices::name_split))]
pub fn is_name(word: &[u8]) -> bool
    ensures value { result ≡ is_name word.now }
    ensures some { IsTrue result → 0 < length word.now }
    ensures within { IsTrue result → length word.now ≤ 32 }
{
    match word {
        [first, rest @ ..] => {
            if !is_letter(*first) || rest.len() > 31 {
                return false;
            }
            are_name_bytes(rest)
        }
        [] => false,
    }
}
