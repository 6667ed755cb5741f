//! Worked examples: what chosen texts are read as. Each function has an empty body; the checker computes its clause.
#![tactic(auto, unfolding(crate::specs::Reading::reading))]

ghost use Rattle.std.specs.Prelude.{◌≡◌, ◌++◌, [], ◌∷◌, Ok, Err, Some, None, true, pos, negsuc, replicate, codes};
ghost use Rattle.std.specs.List.{concat};
ghost use Rattle.px_units.specs.declared.BoxKind.TheVariants.{Device};
ghost use Rattle.px_units.specs.Lengths.{AutomaticInset, InsetPixels, InsetPercentage};
ghost use Rattle.layout_model.specs.Styles.{SetPosition, SetTop, SetRight, SetBottom, SetLeft, AbsolutePosition};
ghost use Rattle.text_io.specs.declared.kinds.LimitKind.TheVariants as limits;
ghost use Rattle.text_io.specs.declared.kinds.Version.TheVariants.{First, Second};
ghost use Rattle.script_model.specs.Reading.{SyntaxAt, LimitAt, HandlerBlock, nothing_read, opened, open_handler, reading};
ghost use Rattle.script_model.specs.Syntax.{Tick, Handler, Outside, Then, NoMore, Simple, Each, When, Say, Seen, Named, SetRatio, SetStyle, ObserveResize, MakeIntersectionObserver};

/// An empty text lacks its first line.
pub fn empty_text()
    ensures { reading [] ≡ Err (SyntaxAt 1 1) }
{}

/// The fault of a text without words is on the line after the last one.
pub fn comments_alone()
    ensures { reading (codes "# note\n\n") ≡ Err (SyntaxAt 3 1) }
{}

/// A last line without a line feed counts as a line.
pub fn no_line_feed_at_the_end()
    ensures first { reading (codes "script 1") ≡ Ok (record { version = First; items = [] }) }
    ensures second { reading (codes "script 2") ≡ Ok (record { version = Second; items = [] }) }
{}

/// The first line ends after its first word.
pub fn cut_first_line()
    ensures { reading (codes "script") ≡ Err (SyntaxAt 1 7) }
{}

/// An unknown version is a fault at the second word.
pub fn other_version()
    ensures { reading (codes "script 3\n") ≡ Err (SyntaxAt 1 8) }
{}

/// A surplus word is a fault at that word.
pub fn first_line_with_a_word_too_many()
    ensures { reading (codes "script 1 2\n") ≡ Err (SyntaxAt 1 10) }
{}

/// A wrong first word is a fault at that word.
pub fn other_first_word()
    ensures { reading (codes "\n  tick 0\n") ≡ Err (SyntaxAt 2 3) }
{}

/// The version line appears only once.
pub fn first_line_again()
    ensures { reading (codes "script 1\nscript 1\n") ≡ Err (SyntaxAt 2 1) }
{}

/// A length without its unit is a fault at its word.
pub fn length_without_unit()
    ensures { reading (codes "script 1\nwhen wider a 5\n") ≡ Err (SyntaxAt 2 14) }
{}

/// The fault of a media query is reported at a column of the line.
pub fn query_without_unit()
    ensures { reading (codes "script 1\nmedia m top (width: 5)\n") ≡ Err (SyntaxAt 2 22) }
{}

/// Where a query is incomplete, the fault is one past its end, even if a comment follows.
pub fn cut_query()
    ensures { reading (codes "script 1\nmedia m top not  # all\n") ≡ Err (SyntaxAt 2 16) }
{}

/// An unknown property is a fault at its word.
pub fn unknown_property()
    ensures { reading (codes "script 1\nset a colour red\n") ≡ Err (SyntaxAt 2 7) }
{}

/// A value that the property doesn't have is a fault at its word.
pub fn value_of_another_property()
    ensures { reading (codes "script 1\nset a min-width auto\n") ≡ Err (SyntaxAt 2 17) }
{}

/// A `tick` can't appear in a handler.
pub fn tick_in_a_handler()
    ensures { reading (codes "script 1\nhandler h\ntick 0\nend\n") ≡ Err (SyntaxAt 3 1) }
{}

/// A handler can't appear in a block.
pub fn handler_in_a_block()
    ensures { reading (codes "script 1\neach\nhandler h\nend\nend\n") ≡ Err (SyntaxAt 3 1) }
{}

/// If something is still open at the end, the fault is on the line after the last one.
pub fn open_at_the_end()
    ensures { reading (codes "script 1\nhandler h\n") ≡ Err (SyntaxAt 3 1) }
{}

/// An `end` must close something.
pub fn end_with_nothing_open()
    ensures { reading (codes "script 1\nend x\n") ≡ Err (SyntaxAt 2 1) }
{}

/// A word after `end` is a fault at that word.
pub fn end_with_a_word_too_many()
    ensures { reading (codes "script 1\neach\nend x\n") ≡ Err (SyntaxAt 3 5) }
{}

/// No two handlers have the same name.
pub fn handler_name_again()
    ensures { reading (codes "script 1\nhandler h\nend\nhandler h\nend\n") ≡ Err (SyntaxAt 4 9) }
{}

/// A second `not` is a fault.
pub fn not_twice()
    ensures { reading (codes "script 1\nwhen not not seen\nend\n") ≡ Err (SyntaxAt 2 10) }
{}

/// Where a word is missing, the fault is at the column after the last word.
pub fn cut_command()
    ensures { reading (codes "script 1\nblock r top\nappend top r\nro o top -\nro-observe o") ≡ Err (SyntaxAt 5 13) }
{}

/// A comment isn't a word: the fault is at the column after the last word, not after the bytes before the comment.
pub fn missing_word_before_a_comment()
    ensures { reading (codes "script 1\nsay  # hello\n") ≡ Err (SyntaxAt 2 4) }
{}

/// A margin extends up to the word `threshold`.
pub fn threshold_is_missing()
    ensures { reading (codes "script 1\nio i top - root - margin 1px 0\n") ≡ Err (SyntaxAt 2 31) }
{}

/// Thresholds are numbers.
pub fn bad_threshold()
    ensures { reading (codes "script 1\nio i top - root - margin threshold 0 1 x\n") ≡ Err (SyntaxAt 2 40) }
{}

/// Only observers may have no handler.
pub fn dash_for_a_handler()
    ensures { reading (codes "script 1\npost top -\n") ≡ Err (SyntaxAt 2 10) }
{}

/// A carriage return directly before a line feed is a space, and so is a tab.
pub fn return_before_a_line_feed()
    ensures { reading (codes "\tscript\t1 \r\n\n# note\n \ttick  7 # at 7\r\n") ≡ Ok (record { version = First; items = Tick 4 7 ∷ [] }) }
{}

/// A carriage return that no line feed follows is a bad byte.
pub fn return_at_the_end()
    ensures { reading (codes "script 1\r") ≡ Err (SyntaxAt 1 9) }
{}

/// The first of two carriage returns is a bad byte.
pub fn two_returns()
    ensures { reading (codes "script 1\r\r\n") ≡ Err (SyntaxAt 1 9) }
{}

/// The same bytes are allowed in comments as elsewhere, and faults of bytes come before those of words.
pub fn bad_byte_in_a_comment()
    ensures { reading (codes "scrip 1 # " ++ (128 ∷ [])) ≡ Err (SyntaxAt 1 11) }
{}

/// The fault of an earlier line comes first.
pub fn bad_byte_behind_a_fault()
    ensures { reading (codes "script 1\nsay 5\n" ++ (0 ∷ [])) ≡ Err (SyntaxAt 2 5) }
{}

/// A line may have 4,096 bytes.
pub fn longest_line()
    ensures { reading (codes "script 1" ++ replicate 4088 32) ≡ Ok (record { version = First; items = [] }) }
{}

/// One byte more meets the limit, whatever byte it is, and the line's words aren't looked at.
pub fn line_too_long()
    ensures { reading (codes "scrip 1" ++ replicate 4089 32 ++ (0 ∷ [])) ≡ Err (LimitAt limits.Line 1) }
{}

/// A handler isn't a block, so 16 blocks may be open in it; the fault is the missing `end`.
pub fn deepest_block()
    ensures { reading (codes "script 1\nhandler h\n" ++ concat (replicate 16 (codes "each\n"))) ≡ Err (SyntaxAt 19 1) }
{}

/// The line that opens the seventeenth block meets the limit.
pub fn nesting_too_deep()
    ensures { reading (codes "script 1\n" ++ concat (replicate 17 (codes "when seen\n"))) ≡ Err (LimitAt limits.Nesting 18) }
{}

/// The 4,097th handler meets the limit.
#[tactic(auto, unfolding(crate::specs::Reading::open_handler))]
pub fn one_handler_too_many()
    ensures last { open_handler 8193 (codes "h") (record (nothing_read First) { names = replicate 4095 [] }) ≡
        Ok (opened 8193 (HandlerBlock (codes "h")) (record (nothing_read First) { names = codes "h" ∷ replicate 4095 [] })) }
    ensures next { open_handler 8195 (codes "h") (record (nothing_read First) { names = replicate 4096 [] }) ≡ Err (LimitAt limits.Handlers 8195) }
{}

/// A fault on the same line comes before the limit.
pub fn fault_before_the_limit()
    ensures { reading (codes "script 1\n" ++ concat (replicate 16 (codes "each\n")) ++ codes "each x\n") ≡ Err (SyntaxAt 18 6) }
{}

/// Handlers and blocks contain the commands up to their `end`, and have the line numbers of both.
pub fn nested_blocks()
    ensures { reading (codes "script 1\nhandler h\neach\nwhen not seen\nsay a\nend\nend\nsay b\nend\nsay c\n") ≡
        Ok (record {
          version = First;
          items = Handler
              2
              (codes "h")
              (Then
              (Each
              3
              (Then
              (When
              4
              (record { negated = true; asks = Seen })
              (Then (Simple 5 (Say (codes "a"))) NoMore)
              6)
              NoMore)
              7)
              (Then (Simple 8 (Say (codes "b"))) NoMore))
              9
              ∷ Outside (Simple 10 (Say (codes "c"))) ∷ [];
        }) }
{}

/// The operands of an intersection observer in the order of its line.
pub fn observer_line()
    ensures missing_threshold { reading (codes "script 1\nio i top - root $target margin 1px  2% # all\n") ≡ Err (SyntaxAt 2 39) }
    ensures read { reading (codes "script 1\nio i top h root - margin 1px  2% threshold 0.5 -1\n") ≡
        Ok (record {
          version = First;
          items = Outside
              (Simple
              2
              (MakeIntersectionObserver
              (record {
                name = codes "i";
                document = codes "top";
                handler = Some (codes "h");
                root = None;
                margin = codes "1px 2%";
                scroll = None;
                thresholds = pos 5000 ∷ negsuc 9999 ∷ [];
              })))
              ∷ [];
        }) }
{}

/// What only the second version has, in scripts of that version.
pub fn second_version()
    ensures ratio { reading (codes "script 2\nratio 150%\n") ≡
        Ok (record { version = Second; items = Outside (Simple 2 (SetRatio 15000)) ∷ [] }) }
    ensures device { reading (codes "script 2\nro-observe o r device\n") ≡
        Ok (record { version = Second; items = Outside (Simple 2 (ObserveResize (codes "o") (Named (codes "r")) Device)) ∷ [] }) }
    ensures scroll { reading (codes "script 2\nio i top - root - margin 1px scroll 2px  3% threshold\n") ≡
        Ok (record {
          version = Second;
          items = Outside
              (Simple
              2
              (MakeIntersectionObserver
              (record {
                name = codes "i";
                document = codes "top";
                handler = None;
                root = None;
                margin = codes "1px";
                scroll = Some (codes "2px 3%");
                thresholds = [];
              })))
              ∷ [];
        }) }
    ensures nothing_behind_scroll { reading (codes "script 2\nio i top - root - margin scroll threshold\n") ≡
        Ok (record {
          version = Second;
          items = Outside
              (Simple
              2
              (MakeIntersectionObserver
              (record {
                name = codes "i";
                document = codes "top";
                handler = None;
                root = None;
                margin = [];
                scroll = Some [];
                thresholds = [];
              })))
              ∷ [];
        }) }
{}

/// The words of the second version with wrong operands are faults at these operands.
pub fn second_version_faults()
    ensures ratio_with_a_sign { reading (codes "script 2\nratio -1%\n") ≡ Err (SyntaxAt 2 7) }
    ensures ratio_with_another_unit { reading (codes "script 2\nratio 1px\n") ≡ Err (SyntaxAt 2 7) }
    ensures ratio_above_its_bound { reading (codes "script 2\nratio 10000.01%\n") ≡ Err (SyntaxAt 2 7) }
    ensures ratio_without_a_number { reading (codes "script 2\nratio\n") ≡ Err (SyntaxAt 2 6) }
    ensures another_box { reading (codes "script 2\nro-observe o r both\n") ≡ Err (SyntaxAt 2 16) }
    ensures scroll_twice { reading (codes "script 2\nio i top - root - margin scroll 1px scroll threshold\n") ≡ Err (SyntaxAt 2 37) }
{}

/// None of it is in scripts of the first version. There `scroll` is a word of the margin.
pub fn second_version_in_the_first()
    ensures ratio { reading (codes "script 1\nratio 150%\n") ≡ Err (SyntaxAt 2 1) }
    ensures device { reading (codes "script 1\nro-observe o r device\n") ≡ Err (SyntaxAt 2 16) }
    ensures scroll { reading (codes "script 1\nio i top - root - margin scroll 1px threshold\n") ≡
        Ok (record {
          version = First;
          items = Outside
              (Simple
              2
              (MakeIntersectionObserver
              (record {
                name = codes "i";
                document = codes "top";
                handler = None;
                root = None;
                margin = codes "scroll 1px";
                scroll = None;
                thresholds = [];
              })))
              ∷ [];
        }) }
{}

/// A property that only the second version has is a fault at its word in the first, whatever its value; in the second its value may be
/// negative.
pub fn positioned_properties()
    ensures in_the_first { reading (codes "script 1\nset r position absolute\n") ≡ Err (SyntaxAt 2 7) }
    ensures with_a_bad_value { reading (codes "script 1\nset r top 1\n") ≡ Err (SyntaxAt 2 7) }
    ensures position { reading (codes "script 2\nset r position absolute\n") ≡
        Ok (record { version = Second; items = Outside (Simple 2 (SetStyle (Named (codes "r")) (SetPosition AbsolutePosition))) ∷ [] }) }
    ensures units { reading (codes "script 2\nset r left -1.5px\n") ≡
        Ok (record { version = Second; items = Outside (Simple 2 (SetStyle (Named (codes "r")) (SetLeft (InsetPixels (negsuc 95))))) ∷ [] }) }
    ensures percentage { reading (codes "script 2\nset r bottom -10.5%\n") ≡
        Ok (record { version = Second; items = Outside (Simple 2 (SetStyle (Named (codes "r")) (SetBottom (InsetPercentage (negsuc 1049))))) ∷ [] }) }
    ensures automatic { reading (codes "script 2\nset r top auto\n") ≡
        Ok (record { version = Second; items = Outside (Simple 2 (SetStyle (Named (codes "r")) (SetTop AutomaticInset))) ∷ [] }) }
    ensures zero { reading (codes "script 2\nset r right -0px\n") ≡
        Ok (record { version = Second; items = Outside (Simple 2 (SetStyle (Named (codes "r")) (SetRight (InsetPixels (pos 0))))) ∷ [] }) }
    ensures without_unit { reading (codes "script 2\nset r top 0\n") ≡ Err (SyntaxAt 2 11) }
    ensures another_position { reading (codes "script 2\nset r position sticky\n") ≡ Err (SyntaxAt 2 16) }
    ensures no_negative_width { reading (codes "script 2\nset r width -1px\n") ≡ Err (SyntaxAt 2 13) }
{}
