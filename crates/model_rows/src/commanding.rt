//! Texts with a fault, and exceptions and results of single commands.

ghost use Rattle.std.specs.Prelude.{◌≡◌, ◌++◌, codes};
ghost use Rattle.page_model.specs.Outcome.{trace};

/// A script must have a first line.
pub fn an_empty_text_is_refused()
    ensures { trace (
        codes ""
        ) ≡ (
        codes "syntax 1 1\n"
        ) }
{}

/// If a word is missing, the fault is at the column after the line's last one.
pub fn a_missing_word_is_after_the_last()
    ensures { trace (
        codes "script 1\nblock r top\nappend top r\nro o top -\nro-observe o"
        ) ≡ (
        codes "syntax 5 13\n"
        ) }
{}

/// A length must have its unit.
pub fn a_length_in_a_condition()
    ensures { trace (
        codes "script 1\nwhen wider a 5\n"
        ) ≡ (
        codes "syntax 2 14\n"
        ) }
{}

/// In a media query the fault is at the first byte with which the text is no longer the beginning of a query.
pub fn a_length_in_a_query()
    ensures { trace (
        codes "script 1\nmedia m top (width: 5)\n"
        ) ≡ (
        codes "syntax 2 22\n"
        ) }
{}

/// Only known properties can be set.
pub fn an_unknown_property()
    ensures { trace (
        codes "script 1\nset a colour red\n"
        ) ≡ (
        codes "syntax 2 7\n"
        ) }
{}

/// A `tick` can't appear in a handler.
pub fn a_tick_in_a_handler()
    ensures { trace (
        codes "script 1\nhandler h\ntick 0\nend\n"
        ) ≡ (
        codes "syntax 3 1\n"
        ) }
{}

/// A handler that is still open at the end is a fault after the last line.
pub fn a_handler_left_open()
    ensures { trace (
        codes "script 1\nhandler h\n"
        ) ≡ (
        codes "syntax 3 1\n"
        ) }
{}

/// An element can be inserted neither into itself nor before a node that isn't a child there; names that are used must exist, and new ones
/// must be free.
pub fn exceptions_of_the_tree()
    ensures { trace (
        codes "script 1\nblock a top\nblock b top\nappend a b\nappend b a\nblock c top\n"
        ++ codes "before a c a\nremove z\nblock a top\n"
        ) ≡ (
        codes "throw 5 HierarchyRequestError\nthrow 7 NotFoundError\nthrow 8 ReferenceError\n"
        ++ codes "throw 9 TypeError\n"
        ) }
{}

/// A name of another kind of thing isn't a valid operand.
pub fn exceptions_of_the_tree_and_of_names()
    ensures { trace (
        codes "script 1\nblock a top\nblock b top\nappend a b\nappend b a\nblock c top\n"
        ++ codes "before a c a\nremove z\nro-disconnect a\nblock a top\n"
        ) ≡ (
        codes "throw 5 HierarchyRequestError\nthrow 7 NotFoundError\nthrow 8 ReferenceError\n"
        ++ codes "throw 9 TypeError\nthrow 10 TypeError\n"
        ) }
{}

/// Percentages are relative to the width of the containing block, and to its height if that is definite; `border-box` includes borders and
/// paddings.
pub fn percentages_and_border_box_sizing()
    ensures { trace (
        codes "script 1\nblock r top\nappend top r\nset r width 50%\n"
        ++ codes "set r box-sizing border-box\nset r padding-left 10%\nset r padding-top 5%\n"
        ++ codes "set r border-left 2px\nblock c top\nset c height 50%\nset c min-height 10px\n"
        ++ codes "append r c\nro o top -\nro-observe o r content\nro-observe o c border\ntick 0\n"
        ) ≡ (
        codes "tick 0\nresize o r rect 80 40 318 10 border 400 50\n"
        ++ codes "resize o c rect 0 0 318 10 border 318 10\nround top 1\n"
        ) }
{}
