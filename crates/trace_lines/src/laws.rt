//! The law by which a sink keeps exactly the lines that a run writes.

ghost use Rattle.std.specs.Prelude.{◌≡◌, ◌++◌, List, [], Some};
ghost use Rattle.script_model.specs.TraceLines.{TraceLine};
ghost use Rattle.trace_runs.specs.Writes.{Says};
ghost use Rattle.trace_lines.specs.Kept.{Kept, IsKept, text_of};

use trace_text::{line_ends_once, text_has_one_line};

/// What a call writes to a sink that keeps lines, with nothing behind its last whole one, is what the sink keeps: exactly these
/// lines, behind those before.
pub fn what_is_said_is_kept()
    ensures { (old new : Kept) (said : List TraceLine) → IsKept old → IsKept new → old.rest ≡ [] → Says (Some (text_of old)) (Some (text_of new)) said →
        (new.lines ≡ old.lines ++ said) × (new.rest ≡ []) }
{
    text_has_one_line();
    line_ends_once();
}
