//! Worked examples: the printed texts of chosen scripts. Each function has an empty body; the checker computes its clauses.
#![tactic(auto, unfolding(crate::specs::ScriptText::printed, crate::specs::NumberText::signed_text, crate::specs::NumberText::percent_text, crate::specs::NumberText::signed_percent_text, crate::specs::NumberText::number_text, media_queries::specs::LengthText::length_text, media_queries::specs::QueryText::list_text))]

ghost use Rattle.std.specs.Prelude.{◌≡◌, [], ◌∷◌, true, None, Some, pos, negsuc, codes};
ghost use Rattle.px_units.specs.Lengths.{Pixels, Percentage, InsetPixels, InsetPercentage};
ghost use Rattle.px_units.specs.declared.BoxKind.TheVariants.{Device};
ghost use Rattle.text_io.specs.declared.kinds.Version.TheVariants.{First, Second};
ghost use Rattle.layout_model.specs.Styles.{SetMargin, SetMaxWidth, SetPosition, SetTop, SetLeft, TopSide, AllSides, FixedPosition};
ghost use Rattle.media_queries.specs.LengthText.{length_text};
ghost use Rattle.script_model.specs.Queries.{AtLeast, WidthFeature, OrientationFeature, ScreenMedia, OnlyPrefix, Typed, NotFeature};
ghost use Rattle.script_model.specs.Syntax.{Named, Target, Outside, Tick, Handler, Then, NoMore, Simple, Each, When, SetRatio, ObserveResize, Remove, Say, Seen, SetStyle, MakeIntersectionObserver, MakeQueryList};
ghost use Rattle.script_text.specs.NumberText.{percent_text, signed_text, signed_percent_text, number_text};
ghost use Rattle.script_text.specs.ScriptText.{printed};
ghost use Rattle.script_text.specs.WellFormed.{IsWellFormed};

/// A script without items is printed as its first line alone.
pub fn no_items()
    ensures { printed (record { version = First; items = [] }) ≡ codes "script 1\n" }
{}

/// A line is printed at its line number, after empty lines if needed.
pub fn lines_stand_on_their_numbers()
    ensures { printed (record { version = First; items = Tick 2 0 ∷ Tick 5 16 ∷ [] }) ≡ codes "script 1\ntick 0\n\n\ntick 16\n" }
{}

/// A handler and nested blocks, each with its `end`.
pub fn handler_with_blocks()
    ensures { printed (record {
      version = First;
      items =
          Handler 2 (codes "show") (Then (Each 3 (Then (When 4 (record { negated = true; asks = Seen }) (Then (Simple 5 (Say (codes "out"))) NoMore) 6) NoMore) 8) NoMore) 9 ∷ [];
    }) ≡
        codes "script 1\nhandler show\neach\nwhen not seen\nsay out\nend\n\nend\nend\n" }
{}

/// A length is printed as its shortest text.
pub fn shortest_texts()
    ensures half { length_text 96 ≡ codes "1.5px" }
    ensures whole { length_text 64 ≡ codes "1px" }
    ensures first_in_order { length_text 1 ≡ codes "0.02px" }
    ensures minus { signed_text (negsuc 95) ≡ codes "-1.5px" }
    ensures percent { percent_text 5050 ≡ codes "50.5%" }
    ensures hundredths { percent_text 5 ≡ codes "0.05%" }
    ensures signed_percent { signed_percent_text (negsuc 1049) ≡ codes "-10.5%" }
    ensures no_minus_zero { signed_percent_text (pos 0) ≡ codes "0%" }
    ensures quarter { number_text (negsuc 2499) ≡ codes "-0.25" }
    ensures zero { number_text (pos 0) ≡ codes "0" }
{}

/// The words of a command are separated by single spaces.
pub fn declarations()
    ensures side { printed (record { version = First; items = Outside (Simple 2 (SetStyle (Named (codes "a")) (SetMargin TopSide (Percentage 1050)))) ∷ [] }) ≡
        codes "script 1\nset a margin-top 10.5%\n" }
    ensures all_sides { printed (record { version = First; items = Outside (Simple 2 (SetStyle Target (SetMargin AllSides (Pixels 96)))) ∷ [] }) ≡
        codes "script 1\nset $target margin 1.5px\n" }
    ensures none { printed (record { version = First; items = Outside (Simple 2 (SetStyle Target (SetMaxWidth None))) ∷ [] }) ≡
        codes "script 1\nset $target max-width none\n" }
{}

/// Insets are printed with their sign.
pub fn positioned_declarations()
    ensures position { printed (record { version = Second; items = Outside (Simple 2 (SetStyle Target (SetPosition FixedPosition))) ∷ [] }) ≡
        codes "script 2\nset $target position fixed\n" }
    ensures units { printed (record { version = Second; items = Outside (Simple 2 (SetStyle Target (SetTop (InsetPixels (negsuc 95))))) ∷ [] }) ≡
        codes "script 2\nset $target top -1.5px\n" }
    ensures percentage { printed (record { version = Second; items = Outside (Simple 2 (SetStyle Target (SetLeft (InsetPercentage (negsuc 1049))))) ∷ [] }) ≡
        codes "script 2\nset $target left -10.5%\n" }
{}

/// A media query list is printed with one space for each mandatory gap and no other.
pub fn queries()
    ensures { printed (record {
      version = First;
      items =
          Outside (Simple 2 (MakeQueryList (codes "m") (codes "top") (Typed OnlyPrefix ScreenMedia (WidthFeature AtLeast 32 ∷ []) ∷ NotFeature (OrientationFeature true) ∷ []))) ∷ [];
    }) ≡
        codes "script 1\nmedia m top only screen and (min-width:0.5px),not (orientation:portrait)\n" }
{}

/// The words of a root margin are printed as they were read, followed by those of a scroll margin.
pub fn margins()
    ensures alone { printed (record {
      version = First;
      items =
          Outside (Simple 2 (MakeIntersectionObserver (record { name = codes "o"; document = codes "top"; handler = None; root = None; margin = codes "1.50px x 0"; scroll = None; thresholds = pos 0 ∷ pos 5000 ∷ [] }))) ∷ [];
    }) ≡
        codes "script 1\nio o top - root - margin 1.50px x 0 threshold 0 0.5\n" }
    ensures scrolled { printed (record {
      version = Second;
      items =
          Outside (Simple 2 (MakeIntersectionObserver (record { name = codes "o"; document = codes "top"; handler = None; root = None; margin = codes "1px"; scroll = Some (codes "50%"); thresholds = [] }))) ∷ [];
    }) ≡
        codes "script 2\nio o top - root - margin 1px scroll 50% threshold\n" }
{}

/// What only the second version has is printed with its words.
pub fn second_version()
    ensures ratio { printed (record { version = Second; items = Outside (Simple 2 (SetRatio 15000)) ∷ [] }) ≡ codes "script 2\nratio 150%\n" }
    ensures device { printed (record { version = Second; items = Outside (Simple 2 (ObserveResize (codes "o") Target Device)) ∷ [] }) ≡
        codes "script 2\nro-observe o $target device\n" }
{}

/// A script with a handler, a block and a tick is well formed.
#[tactic(auto, using(crate::proofs::Example::well_formed))]
pub fn well_formed_script()
    ensures { IsWellFormed (record { version = First; items = Handler 2 (codes "show") (Then (Each 3 (Then (Simple 4 (Remove Target)) NoMore) 6) NoMore) 7 ∷ Tick 9 16 ∷ [] }) }
{}
