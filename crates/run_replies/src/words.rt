//! Parsing of the command line.

ghost use Rattle.std.specs.Prelude.{◌≡◌, ◌∷◌, [], None, bytes_eq, codes, cond, map, option_and_then, option_map, string_bytes};
ghost use Rattle.run_replies.specs.Words.{asked, at_tick, number_of, point_of, tick_of};
ghost use Rattle.run_replies.specs.declared.words.Sight.TheVariants.{Hits};
ghost use Rattle.run_replies.specs.declared.words.Words.TheVariants.{Generated};

use px_units::Point;
use word_model::{signed_length, whole};

/// The largest number of a generated script, and of a tick.
const MOST: u64 = 1_000_000;

/// What to do with a script.
#[derive(Clone, Copy, Debug, PartialEq, Eq)]
pub enum Job {
    /// Run it, and write its trace.
    Replay,
    /// Write the number of its commands.
    Check,
    /// Write its certificates.
    Lint,
    /// Run it, and write how many lines of each kind its trace has.
    Summary,
    /// Print it.
    Print,
    /// Run it to the end of its tick of this number, counted from 1, and write this view of its page then.
    AtTick(Sight, u64),
}

/// A view of a page.
#[derive(Clone, Copy, Debug, PartialEq, Eq)]
pub enum Sight {
    /// Each box, and how much of it is visible.
    Boxes,
    /// The elements that a point of the viewport of `top` hits.
    Hits(Point),
}

/// What a command line asks for.
#[derive(Clone, Copy, Debug, PartialEq, Eq)]
pub enum Words {
    /// A job on the script in the source.
    Script(Job),
    /// A job on the script that is generated from a number.
    Generated(Job, u64),
    /// The judgement of the recorded trace after the script in the source.
    Judge,
    /// A run of the scripts of several pages in the source, side by side.
    Pages,
}

// Parses a number of at most 1,000,000, without a sign or a leading zero.
#[tactic(auto, unfolding(crate::specs::Words::number_of, word_model::specs::Numbers::at_most))]
fn number_of(word: &[u8]) -> Option<u64>
    ensures { result ≡ number_of word.now }
{
    let number = whole(word)?;
    if number <= MOST { Some(number) } else { None }
}

// Parses the number of a tick, from 1 to 1,000,000.
#[tactic(auto, unfolding(crate::specs::Words::tick_of))]
fn tick_of(word: &[u8]) -> Option<u64>
    ensures { result ≡ tick_of word.now }
{
    let number = number_of(word)?;
    if number == 0 { None } else { Some(number) }
}

// Parses a point, given by its distances from the left and the top, such as 5px or -0.5px.
#[tactic(auto, unfolding(crate::specs::Words::point_of))]
fn point_of(left: &[u8], top: &[u8]) -> Option<Point>
    ensures { result ≡ point_of left.now top.now }
{
    let left = signed_length(left)?;
    let top = signed_length(top)?;
    Some(Point { left, top })
}

impl Words {
    /// Parses the words of a command line: no words to replay the script in the source; `--check`, `--lint`, `--summary` and `--print` to
    /// check, certify, summarize or print it; `--judge` to judge the trace after it; `--pages` to run the scripts of several pages;
    /// `--inspect K` and `--hit K X Y` to write a view of the page at the end of tick number K; `--generate N` and `--generate-run N` to print
    /// or summarize the script generated from a number. Returns `None` for any other list of words. Allocates nothing.
    #[tactic(auto, unfolding(crate::specs::Words::asked))]
    pub fn read(words: &[String]) -> Option<Words>
        ensures { result ≡ asked (map string_bytes words.now) }
    {
        match words {
            [] => Some(Words::Script(Job::Replay)),
            [word] => Words::alone(word.as_str()),
            [word, number] => Words::with_number(word.as_str(), number.as_bytes()),
            [word, number, left, top] => {
                let at = point_of(left.as_bytes(), top.as_bytes());
                Words::hit(word.as_str(), number.as_bytes(), at)
            }
            _ => None,
        }
    }

    #[tactic(auto, unfolding(crate::specs::Words::asked))]
    fn alone(word: &str) -> Option<Words>
        ensures { result ≡ asked (word.now ∷ []) }
    {
        if word == "--check" {
            Some(Words::Script(Job::Check))
        } else if word == "--lint" {
            Some(Words::Script(Job::Lint))
        } else if word == "--summary" {
            Some(Words::Script(Job::Summary))
        } else if word == "--print" {
            Some(Words::Script(Job::Print))
        } else if word == "--judge" {
            Some(Words::Judge)
        } else if word == "--pages" {
            Some(Words::Pages)
        } else {
            None
        }
    }

    #[tactic(auto, unfolding(crate::specs::Words::asked))]
    fn with_number(word: &str, number: &[u8]) -> Option<Words>
        ensures { result ≡ asked (word.now ∷ number.now ∷ []) }
    {
        if word == "--generate" {
            Words::generated(Job::Print, number)
        } else if word == "--generate-run" {
            Words::generated(Job::Summary, number)
        } else if word == "--inspect" {
            Words::at_tick(Sight::Boxes, number)
        } else {
            None
        }
    }

    // A job on the script of a number.
    fn generated(job: Job, number: &[u8]) -> Option<Words>
        ensures { result ≡ option_map (Generated job) (number_of number.now) }
    {
        let number = number_of(number)?;
        Some(Words::Generated(job, number))
    }

    // A view of the page at the end of a tick.
    #[tactic(auto, unfolding(crate::specs::Words::at_tick))]
    fn at_tick(sight: Sight, number: &[u8]) -> Option<Words>
        ensures { result ≡ at_tick sight number.now }
    {
        let number = tick_of(number)?;
        Some(Words::Script(Job::AtTick(sight, number)))
    }

    // The elements that a point hits at the end of a tick.
    fn hit(word: &str, number: &[u8], at: Option<Point>) -> Option<Words>
        ensures { result ≡ cond (bytes_eq word.now (codes "--hit")) (option_and_then (λ at. at_tick (Hits at) number.now) at) None }
    {
        if word != "--hit" {
            return None;
        }
        Words::at_tick(Sight::Hits(at?), number)
    }
}
