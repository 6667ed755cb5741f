//! The meaning of a run without words.

ghost use Rattle.std.specs.Prelude.{◌≡◌, ℕ, List, [], Some};
ghost use Rattle.page_model.specs.Outcome.{outcome, trace};
ghost use Rattle.replay_run.specs.Replies.{reply};
ghost use Rattle.run_replies.specs.Statuses.{status_at};
ghost use Rattle.run_replies.specs.Words.{asked};
ghost use Rattle.run_replies.specs.declared.words.Job.TheVariants.{Replay};
ghost use Rattle.run_replies.specs.declared.words.Words.TheVariants.{Script};

/// Without words the source is replayed, and `run` writes the trace of the text that the source has left; its status is
/// exactly how the outcome of that text ends.
pub fn no_words_give_the_trace()
    ensures asked { asked [] ≡ Some (Script Replay) }
    ensures written { (text : List ℕ) → (reply (Script Replay) text).text ≡ trace text }
    ensures status { (text : List ℕ) → (reply (Script Replay) text).status ≡ status_at (outcome text).ending }
{}
