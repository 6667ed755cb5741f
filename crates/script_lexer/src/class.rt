ghost use Rattle.std.specs.Prelude.{◌≡◌};
ghost use Rattle.script_lexer.specs.Classes.{class_seen};
ghost use Rattle.script_lexer.specs.Limited.{class_within};

/// The class of a byte in its line.
#[derive(Clone, Copy)]
pub enum ByteClass {
    /// It ends the line.
    LineFeed,
    /// The line has too many bytes.
    Long,
    /// It separates words.
    Space,
    /// It belongs to a word or a comment.
    Word,
    /// It isn't allowed in a line.
    Bad,
}

/// Returns the class of the byte at a column, from 1; `feed_next` says whether a line feed follows it.
#[tactic(auto, unfolding(crate::specs::Limited::class_within))]
pub fn class_of(byte: u8, feed_next: bool, column: usize, most_line: usize) -> ByteClass
    ensures { class_seen result ≡ class_within most_line byte feed_next column }
{
    match byte {
        b'\n' => ByteClass::LineFeed,
        _ if column > most_line => ByteClass::Long,
        b' ' | b'\t' => ByteClass::Space,
        // A carriage return is allowed only directly before a line feed.
        b'\r' if feed_next => ByteClass::Space,
        b'!'..=b'~' => ByteClass::Word,
        _ => ByteClass::Bad,
    }
}
