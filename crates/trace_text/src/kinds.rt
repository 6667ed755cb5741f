//! The kinds of lines, and their words.

ghost use Rattle.std.specs.Prelude.{◌≡◌};
ghost use Rattle.script_model.specs.TraceText.{kind_text};
ghost use Rattle.trace_text.specs.Seen.{seen_line};
ghost use Rattle.trace_text.specs.Kinds.{kind_word, kind_of};

use crate::TraceLine;

/// The kind of a line, which is its first field.
#[derive(Clone, Copy, Debug, PartialEq, Eq)]
pub enum LineKind {
    Tick,
    Timer,
    Frame,
    Task,
    Event,
    Resize,
    Round,
    Intersect,
    Take,
    Say,
    Read,
    Throw,
    Limit,
    Syntax,
}

impl LineKind {
    /// All kinds, in the order of a summary.
    pub const ALL: [LineKind; 14] = [
        LineKind::Tick,
        LineKind::Timer,
        LineKind::Frame,
        LineKind::Task,
        LineKind::Event,
        LineKind::Resize,
        LineKind::Round,
        LineKind::Intersect,
        LineKind::Take,
        LineKind::Say,
        LineKind::Read,
        LineKind::Throw,
        LineKind::Limit,
        LineKind::Syntax,
    ];

    /// Returns the word for it.
    pub fn text(&self) -> &'static str
        ensures { result.now ≡ kind_word self.now }
    {
        match self {
            LineKind::Tick => "tick",
            LineKind::Timer => "timer",
            LineKind::Frame => "frame",
            LineKind::Task => "task",
            LineKind::Event => "event",
            LineKind::Resize => "resize",
            LineKind::Round => "round",
            LineKind::Intersect => "intersect",
            LineKind::Take => "take",
            LineKind::Say => "say",
            LineKind::Read => "read",
            LineKind::Throw => "throw",
            LineKind::Limit => "limit",
            LineKind::Syntax => "syntax",
        }
    }

    /// Returns the kind of a line.
    pub fn of(line: &TraceLine) -> LineKind
        ensures { kind_word result ≡ kind_text (seen_line line.now) }
    {
        match line {
            TraceLine::Tick(..) => LineKind::Tick,
            TraceLine::Timer(..) => LineKind::Timer,
            TraceLine::Frame(..) => LineKind::Frame,
            TraceLine::Task(..) => LineKind::Task,
            TraceLine::Event(..) => LineKind::Event,
            TraceLine::Resize { .. } => LineKind::Resize,
            TraceLine::Round(..) => LineKind::Round,
            TraceLine::Intersect { .. } => LineKind::Intersect,
            TraceLine::Take(..) => LineKind::Take,
            TraceLine::Say(..) => LineKind::Say,
            TraceLine::Read { .. } => LineKind::Read,
            TraceLine::Throw(..) => LineKind::Throw,
            TraceLine::Limit(..) => LineKind::Limit,
            TraceLine::Syntax(..) => LineKind::Syntax,
        }
    }

    /// Returns the kind that this word names, or `None` if there is none.
    #[tactic(auto, unfolding(text_io::specs::Kinds::named))]
    pub fn named(word: &[u8]) -> Option<LineKind>
        ensures { result ≡ kind_of word.now }
    {
        LineKind::ALL
            .iter()
            .copied()
            .find(|kind| kind.text().as_bytes() == word)
    }
}
