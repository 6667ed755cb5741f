//! Laws of the definitions, for every text. Each function has an empty body; its clause is proved.
ghost use Rattle.std.specs.Prelude.{◌≡◌, ℕ, ◌+◌, ◌<◌, ◌≤◌, true, false, ◌&&◌, ◌==◌, [], List, ◌∷◌, ◌++◌, length, map, Ok, Err};
ghost use Rattle.std.specs.List.{list_all};
ghost use Rattle.word_model.specs.Numbers.{begins_with};
ghost use Rattle.text_io.specs.declared.kinds.LimitKind.TheVariants as limits;
ghost use Rattle.text_io.specs.declared.kinds.Version.{Version};
ghost use Rattle.text_io.specs.declared.kinds.LimitKind.{LimitKind};
ghost use Rattle.text_io.specs.Limits.{common_limit, IsCommon};
ghost use Rattle.script_model.specs.Lexing.{Row, BadByte, LongLine, line_start, ends, lex_on, lexed};
ghost use Rattle.script_model.specs.Lines.{is_line_byte, words_of, line_with};
ghost use Rattle.script_model.specs.Media.{is_blank};
ghost use Rattle.script_model.specs.Shifts.{moved, all_renumbered, reading_later};
ghost use Rattle.script_model.specs.Statements.{Ends, statement_of};
ghost use Rattle.script_model.specs.Reading.{LimitAt, last_line, read_lexed, reading};

/// A line feed ends a line, whose words are its maximal runs of word bytes before a comment.
#[tactic(auto, using(crate::proofs::LineLaw::line_is_read))]
pub fn line_feed_ends_a_line()
    ensures { (number : ℕ) (line rest : List ℕ) → list_all is_line_byte line ≡ true → length line ≤ common_limit limits.Line →
        lex_on (line_start number) (line ++ (10 ∷ rest)) ≡
        line_with (words_of line) number line (lex_on (line_start (number + 1)) rest) }
{}

/// A carriage return directly before the line feed belongs to no word, but is one of the line's bytes.
#[tactic(auto, using(crate::proofs::LineLaw::line_is_read_returned))]
pub fn carriage_return_before_a_line_feed()
    ensures { (number : ℕ) (line rest : List ℕ) → list_all is_line_byte line ≡ true → length line < common_limit limits.Line →
        lex_on (line_start number) (line ++ (13 ∷ 10 ∷ rest)) ≡
        line_with (words_of line) number line (lex_on (line_start (number + 1)) rest) }
{}

/// A non-empty last line without a line feed is read as if it had one.
#[tactic(auto, using(crate::proofs::LineEnds::last_line_is_read))]
pub fn last_line_needs_no_line_feed()
    ensures { (number : ℕ) (line : List ℕ) → list_all is_line_byte line ≡ true → length line ≤ common_limit limits.Line → 0 < length line →
        lex_on (line_start number) line ≡ lex_on (line_start number) (line ++ (10 ∷ [])) }
{}

/// The first byte that isn't allowed in a line ends the reading at its column.
#[tactic(auto, using(crate::proofs::LineEnds::bad_byte_ends))]
pub fn bad_byte_ends_the_text()
    ensures { (number : ℕ) (line : List ℕ) (byte : ℕ) (rest : List ℕ) → list_all is_line_byte line ≡ true → length line < common_limit limits.Line →
        is_line_byte byte ≡ false → (byte == 10) ≡ false → ((byte == 13) && begins_with 10 rest) ≡ false →
        lex_on (line_start number) (line ++ (byte ∷ rest)) ≡ ends (BadByte number (length line + 1)) }
{}

/// The first byte beyond the limit of a line ends the reading, whatever byte it is.
#[tactic(auto, using(crate::proofs::LineEnds::long_line_ends))]
pub fn long_line_ends_the_text()
    ensures { (number : ℕ) (line : List ℕ) (byte : ℕ) (rest : List ℕ) → list_all is_line_byte line ≡ true → length line ≡ common_limit limits.Line →
        (byte == 10) ≡ false → lex_on (line_start number) (line ++ (byte ∷ rest)) ≡ ends (LongLine number) }
{}

/// Indentation moves the words of a line and changes nothing else of them.
#[tactic(auto, using(crate::proofs::Spaces::indented))]
pub fn indentation_moves_words()
    ensures { (blanks line : List ℕ) → list_all is_blank blanks ≡ true → words_of (blanks ++ line) ≡ map (moved (length blanks)) (words_of line) }
{}

/// A comment changes nothing.
#[tactic(auto, using(crate::proofs::LineEnds::comment_is_passed))]
pub fn comment_changes_nothing()
    ensures { (number : ℕ) (line comment rest : List ℕ) → list_all is_line_byte (line ++ (32 ∷ 35 ∷ comment)) ≡ true →
        length (line ++ (32 ∷ 35 ∷ comment)) ≤ common_limit limits.Line →
        lex_on (line_start number) ((line ++ (32 ∷ 35 ∷ comment)) ++ (10 ∷ rest)) ≡ lex_on (line_start number) (line ++ (10 ∷ rest)) }
{}

/// If its first line has a later number, a text has the same lines, with their numbers shifted accordingly.
#[tactic(auto, using(crate::proofs::LineNumbers::read_later))]
pub fn later_lines_are_renumbered()
    ensures { (number lines : ℕ) (text : List ℕ) → lex_on (line_start (number + lines)) text ≡ all_renumbered lines (lex_on (line_start number) text) }
{}

/// A first line without words changes nothing but the numbers of later lines: the script has the same items, or the fault
/// or limit is the same.
#[tactic(auto, using(crate::proofs::ReadLaw::wordless_is_read))]
pub fn line_without_words_is_passed_over()
    ensures { (line rest : List ℕ) → list_all is_line_byte line ≡ true → length line ≤ common_limit limits.Line → words_of line ≡ [] →
        length (line ++ (10 ∷ rest)) ≤ common_limit limits.Script → reading (line ++ (10 ∷ rest)) ≡ reading_later 1 (reading rest) }
{}

/// The limit of a script's bytes is checked before any line is looked at.
#[tactic(auto, using(crate::proofs::ReadLaw::too_long, crate::proofs::ReadLaw::within))]
pub fn script_limit_comes_first()
    ensures above { (text : List ℕ) → common_limit limits.Script < length text →
        reading text ≡ Err (LimitAt limits.Script (last_line (common_limit limits.Script) text)) }
    ensures within { (text : List ℕ) → length text ≤ common_limit limits.Script → reading text ≡ read_lexed (lexed text) }
{}

/// A limit that a text can meet is the same in every version, so it is known before the version is.
#[tactic(auto, using(crate::proofs::LimitsMet::met_is_common))]
pub fn text_meets_common_limits()
    ensures { (text : List ℕ) (kind : LimitKind) (line : ℕ) → reading text ≡ Err (LimitAt kind line) → IsCommon kind }
{}

/// An `end` line is accepted only where something is open, so it always closes something.
#[tactic(auto, using(crate::proofs::Impossible::no_end_outside))]
pub fn end_closes_something()
    ensures { (version : Version) (names : List (List ℕ)) (row : Row) →
        statement_of (record { version = version; outside = true; names = names }) row ≡ Ok Ends → ⊥ }
{}
