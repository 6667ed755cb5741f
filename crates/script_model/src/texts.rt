//! Worked examples of media queries, margins, trace lines and generated scripts. Each function has an empty body; the checker
//! computes its clauses.
#![tactic(auto, unfolding(crate::specs::Media::query_list, crate::specs::Media::matches, crate::specs::MarginText::margins_of, crate::specs::MarginText::thresholds_of, crate::specs::TraceText::line_text, crate::specs::Summary::summary_text, crate::specs::Generator::head_lines, crate::specs::Generator::card_lines, crate::specs::Generator::generated_lines, crate::specs::Reading::reading, crate::specs::Scripts::command_count, crate::specs::Scripts::handler_number))]

ghost use Rattle.std.specs.Prelude.{◌≡◌, true, false, [], ◌∷◌, ◌++◌, Ok, Err, Some, None, IsOkAnd, pos, negsuc, length, slice_get, codes};
ghost use Rattle.script_model.specs.Queries.{Exactly, AtLeast, AtMost, WidthFeature, HeightFeature, OrientationFeature, ScreenMedia, OnlyPrefix, Typed, NotFeature, AnyFeatures};
ghost use Rattle.script_model.specs.Margins.{MarginPixels, MarginPercentage};
ghost use Rattle.text_io.specs.declared.kinds.ThrowKind.TheVariants.{HierarchyRequestError};
ghost use Rattle.text_io.specs.declared.kinds.LimitKind.TheVariants as limits;
ghost use Rattle.script_model.specs.TraceLines.{FiredChange, FiredError, TickLine, EventLine, ResizeLine, IntersectLine, ThrowLine, LimitLine};
ghost use Rattle.script_model.specs.Media.{query_list, matches};
ghost use Rattle.script_model.specs.MarginText.{margins_of, thresholds_of};
ghost use Rattle.script_model.specs.TraceText.{line_text};
ghost use Rattle.script_model.specs.Summary.{summary_text};
ghost use Rattle.script_model.specs.Generator.{root_margin, head_lines, card_lines, generated_lines};
ghost use Rattle.script_model.specs.Reading.{refusal_line, SyntaxAt, LimitAt, reading};
ghost use Rattle.script_model.specs.Scripts.{command_count, handler_number};

/// A list is read with all its features; spaces are optional around commas and inside parentheses.
pub fn media_query_list()
    ensures any { query_list (codes "only screen and ( min-width:\t600.5px ) ,not (orientation: portrait)") ≡
        Ok (
        Typed OnlyPrefix ScreenMedia (WidthFeature AtLeast 38432 ∷ []) ∷ NotFeature (OrientationFeature true) ∷ []) }
    ensures joined { query_list (codes "(width: 1px) or (max-height: 2px) or (height: 3px)") ≡
        Ok (
        AnyFeatures (WidthFeature Exactly 64) (HeightFeature AtMost 128) (HeightFeature Exactly 192 ∷ []) ∷ []) }
{}

/// A fault is at the first byte with which the text is no longer the beginning of a list, or one past the end of a text that
/// is only the beginning of one.
pub fn media_query_columns()
    ensures other_word { query_list (codes "screem") ≡ Err 6 }
    ensures cut_word { query_list (codes "scre") ≡ Err 5 }
    ensures space_at_the_end { query_list (codes "all ") ≡ Err 5 }
    ensures no_gap { query_list (codes "all and(width: 1px)") ≡ Err 8 }
    ensures mixed { query_list (codes "(width: 1px) and (height: 1px) or (width: 2px)") ≡ Err 32 }
    ensures or_after_a_type { query_list (codes "screen or (width: 1px)") ≡ Err 8 }
    ensures seventh_digit { query_list (codes "(width: 2000000px)") ≡ Err 15 }
    ensures eighth_digit { query_list (codes "(width: 00000001px)") ≡ Err 16 }
    ensures largest_length { query_list (codes "(width: 1000000.01px)") ≡ Err 18 }
    ensures nothing { query_list [] ≡ Err 1 }
{}

/// `not` negates a query, `print` doesn't match, and a square viewport is portrait. Sizes are in units of 1/64 CSS pixel.
pub fn media_query_matches()
    ensures square { IsOkAnd (query_list (codes "(orientation: portrait)")) (λ queries. matches queries 640 640 ≡ true) }
    ensures wide { IsOkAnd (query_list (codes "(orientation: portrait)")) (λ queries. matches queries 641 640 ≡ false) }
    ensures negated { IsOkAnd (query_list (codes "not screen and (min-width: 10px)")) (λ queries. matches queries 639 0 ≡ true) }
    ensures at_least { IsOkAnd (query_list (codes "print, (min-width: 10px)")) (λ queries. matches queries 640 0 ≡ true) }
    ensures print { IsOkAnd (query_list (codes "print")) (λ queries. matches queries 640 0 ≡ false) }
{}

/// Omitted sides of a margin are filled in as in CSS, and each part has a unit.
pub fn margin_texts()
    ensures nothing { margins_of [] ≡
        Some (record {
          top = MarginPixels (pos 0);
          right = MarginPixels (pos 0);
          bottom = MarginPixels (pos 0);
          left = MarginPixels (pos 0);
        }) }
    ensures three { margins_of (codes "10px -5% 0.02px") ≡
        Some (record {
          top = MarginPixels (pos 640);
          right = MarginPercentage (negsuc 499);
          bottom = MarginPixels (pos 1);
          left = MarginPercentage (negsuc 499);
        }) }
    ensures no_unit { margins_of (codes "0") ≡ None }
    ensures five { margins_of (codes "1px 1px 1px 1px 1px") ≡ None }
{}

/// Thresholds are sorted, duplicates are kept, and an empty list becomes a single 0.
pub fn threshold_lists()
    ensures nothing { thresholds_of [] ≡ Some (0 ∷ []) }
    ensures sorted { thresholds_of (pos 10000 ∷ pos 0 ∷ pos 5000 ∷ pos 0 ∷ []) ≡ Some (0 ∷ 0 ∷ 5000 ∷ 10000 ∷ []) }
    ensures above { thresholds_of (pos 10001 ∷ []) ≡ None }
    ensures below { thresholds_of (pos 0 ∷ negsuc 0 ∷ []) ≡ None }
{}

/// The texts of trace lines.
pub fn trace_lines()
    ensures resize { line_text
        (ResizeLine
        (codes "o")
        (codes "r")
        (record { left = pos 64; top = pos 1; right = pos 51264; bottom = pos 1 })
        (record { width = pos 51200; height = pos 33 })
        None) ≡
        codes "resize o r rect 1 0.015625 800 0 border 800 0.515625\n" }
    ensures device { line_text
        (ResizeLine
        (codes "o")
        (codes "r")
        (record { left = pos 0; top = pos 0; right = pos 672; bottom = pos 192 })
        (record { width = pos 672; height = pos 192 })
        (Some (record { width = pos 16; height = pos 5 }))) ≡
        codes "resize o r rect 0 0 10.5 3 border 10.5 3 device 16 5\n" }
    ensures intersect { line_text
        (IntersectLine
        (record {
          observer = codes "i";
          target = codes "t";
          time = 16;
          meets = false;
          part = 0;
          whole = 32768000;
          root = record { left = pos 64; top = pos 0; right = pos 0; bottom = negsuc 63 };
          bounds = record { left = pos 0; top = pos 64; right = pos 0; bottom = pos 64 };
          cut = record { left = pos 0; top = pos 0; right = pos 0; bottom = pos 0 };
        })) ≡
        codes "intersect i t 16 no 0/32768000 root 1 0 -1 -1 box 0 1 0 0 cut 0 0 0 0\n" }
    ensures loop_error { line_text (EventLine (FiredError (codes "top"))) ≡
        codes "event error @top ResizeObserver loop completed with undelivered notifications.\n" }
    ensures change { line_text (EventLine (FiredChange (codes "q") false)) ≡ codes "event change q false\n" }
    ensures throw { line_text (ThrowLine 5 HierarchyRequestError) ≡ codes "throw 5 HierarchyRequestError\n" }
    ensures syntax { line_text (refusal_line (SyntaxAt 2 14)) ≡ codes "syntax 2 14\n" }
    ensures limit { line_text (refusal_line (LimitAt limits.Line 2)) ≡ codes "limit line 2 4096\n" }
{}

/// A summary has one line per kind of trace line, in the order of the kinds.
pub fn summaries()
    ensures { summary_text (TickLine 0 ∷ TickLine 16 ∷ LimitLine limits.Depth 772 256 ∷ []) ≡
        codes "tick 2\ntimer 0\nframe 0\ntask 0\nevent 0\nresize 0\nround 0\nintersect 0\ntake 0\nsay 0\nread 0\nthrow 0\nlimit 1\nsyntax 0\n" }
{}

/// A generated script has 14 lines before its cards, nine for each card, and nine after them.
pub fn generated_scripts()
    ensures lines { length (generated_lines 4011) ≡ 131 }
    ensures margin { slice_get (head_lines 400) 13 ≡ Some (codes "io lazy top show root - margin 400px threshold 0") }
    ensures largest_margin { root_margin 9999 ≡ 600 }
    ensures smallest_margin { root_margin 10000 ≡ 200 }
    ensures card { card_lines 12 ≡
        codes "block c12 top"
        ∷ codes "set c12 height 100px"
        ∷ codes "append r c12"
        ∷ codes "image g12 top 0px 0px"
        ∷ codes "append c12 g12"
        ∷ codes "block t12 top"
        ∷ codes "set t12 height 20px"
        ∷ codes "append c12 t12"
        ∷ codes "io-observe lazy g12"
        ∷ [] }
{}

/// Commands of handlers, blocks and ticks are counted; handlers are numbered in the order of their lines.
pub fn counts()
    ensures commands { IsOkAnd
        (reading (codes "script 1\nhandler a\neach\nsay x\nend\nend\nhandler b\nend\nwhen seen\nend\ntick 0\n"))
        (λ script. command_count script.items ≡ 4) }
    ensures handlers { IsOkAnd
        (reading (codes "script 1\nhandler a\nend\nsay x\nhandler b\nend\n"))
        (λ script. handler_number script.items (codes "b") ≡ Some 1) }
    ensures no_handler { IsOkAnd (reading (codes "script 1\nhandler a\nend\n")) (λ script. handler_number script.items (codes "b") ≡ None) }
{}
