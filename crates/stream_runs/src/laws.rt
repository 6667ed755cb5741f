//! Laws of streams of pages, each stated as the contract of a function that does nothing.

ghost use Rattle.std.specs.Prelude.{◌≡◌, ℕ, List, Some, slice_get, option_map};
ghost use Rattle.std.specs.List.{All};
ghost use Rattle.page_model.specs.Outcome.{outcome};
ghost use Rattle.page_stream.specs.Parts.{script_of};
ghost use Rattle.stream_runs.specs.PageRuns.{ending_at};
ghost use Rattle.stream_runs.specs.StreamRuns.{stream_run, text_of_page};
ghost use Rattle.stream_runs.specs.Alone.{IsOneLine, IsPage, SayLines, TellsAlone, stream_lines};

use script_text::laws::{printed_lines_are_no_longer, what_is_read_is_well_formed};

/// The lines written for a page of a stream, without its name and the space, are the trace of its script alone: no
/// other page of the stream changes a byte of them. The premise is that each line of the pages ends in its only line feed, so
/// that the text can be split into lines.
pub fn each_page_is_as_if_it_ran_alone()
    ensures { (source : List ℕ) → SayLines source → TellsAlone source (stream_run source).text }
{
    // the laws of scripts on which this one rests
    what_is_read_is_well_formed();
    printed_lines_are_no_longer();
}

/// If each line that is written for a stream, for its commands and for scripts with a fault, ends in its only line feed, so does
/// each line that a page's script alone gives. So whoever runs a stream can check the premise of the other laws.
pub fn lines_of_the_stream_are_those_of_its_pages()
    ensures { (source : List ℕ) → All IsOneLine (stream_lines source) → SayLines source }
{
    // the laws of scripts on which this one rests
    what_is_read_is_well_formed();
    printed_lines_are_no_longer();
}

/// A page of a stream ends as its script does alone: after its last command, with a fault of its text or with a limit.
pub fn each_page_ends_as_if_it_ran_alone()
    ensures { (source : List ℕ) (place : ℕ) (name : List ℕ) → IsPage source place name
        → option_map (λ page. ending_at page.standing) (slice_get (stream_run source).pages place) ≡ Some (outcome (script_of place source)).ending }
{
    // the laws of scripts on which this one rests
    what_is_read_is_well_formed();
    printed_lines_are_no_longer();
}

/// Two streams that have a page with the same name and script write the same for it, whatever the other pages are, however the
/// lines are interleaved, and whichever position the page has in each.
pub fn what_is_written_of_a_page_is_told_by_its_script()
    ensures { (one other : List ℕ) → SayLines one → SayLines other → (place there : ℕ) (name : List ℕ) → IsPage one place name → IsPage other there name
        → script_of place one ≡ script_of there other → text_of_page name (stream_run one).text ≡ text_of_page name (stream_run other).text }
{
    each_page_is_as_if_it_ran_alone();
}
