//! The laws that no resize loop is left out, and what holds for each.

ghost use Rattle.std.specs.Prelude.{◌≡◌, ℕ, List, flat_map};
ghost use Rattle.std.specs.List.{AllByRecursion};
ghost use Rattle.text_io.specs.declared.kinds.Version.{Version};
ghost use Rattle.script_model.specs.Syntax.{Item};
ghost use Rattle.script_model.specs.Scripts.{handlers_in};
ghost use Rattle.page_model.specs.World.{World};
ghost use Rattle.page_model.specs.Callbacks.{Script};
ghost use Rattle.page_model.specs.Ticks.{tick};
ghost use Rattle.page_model.specs.Outcome.{opening_world, run_item, run_items};
ghost use Rattle.page_laws.specs.Bounds.{IsWithinLimits};
ghost use Rattle.loop_laws.specs.RunLoops.{tick_loops, item_loops, loops_of_run, loop_lines, lines_of_loop, IsExact};
ghost use Rattle.loop_laws.specs.WholeLoops.{resize_rounds, round_starts, line_of_round};

/// The loops that are listed for a tick, for an item of a script and for its run are complete: the lines of rounds and of loop
/// errors that it writes are those that these loops write, in order. And the lines that a loop's rounds write are those of the rounds
/// that the laws of depths are about, in order, each with that round's depth; one that is interrupted writes none. This holds in every world.
pub fn all_loops_are_listed()
    ensures ticks { (script : Script) (world : World) →
        loop_lines (tick script world).lines ≡ flat_map (lines_of_loop script) (tick_loops script world) }
    ensures rounds { (script : Script) (document : ℕ) (world : World) →
        loop_lines (resize_rounds script document world).lines ≡ flat_map (line_of_round script document) (round_starts script document world) }
    ensures items { (script : Script) (item : Item) (world : World) →
        loop_lines (run_item script item world).lines ≡ flat_map (lines_of_loop script) (item_loops script item world) }
    ensures runs { (version : Version) (items : List Item) →
        loop_lines (run_items items (opening_world version)).lines ≡ flat_map (lines_of_loop (handlers_in items)) (loops_of_run version items) }
{}

/// What the laws of resize loops say holds for each loop that is listed for an item that is carried out in a page within the limits, or for a
/// whole run, which begins in one: a round is deeper than the one before it, unless a command of that round uproots what was gathered; with m
/// such commands, and the greatest depth H of what it delivers, a loop has at most (m + 1) * H rounds; and the error is fired exactly where
/// the rounds ended with the document Active and a target whose size differs from its last reported one.
pub fn listed_loops_are_exact()
    ensures items { (script : Script) (item : Item) (world : World) → IsWithinLimits world →
        AllByRecursion (IsExact script) (item_loops script item world) }
    ensures runs { (version : Version) (items : List Item) → AllByRecursion (IsExact (handlers_in items)) (loops_of_run version items) }
{}
