//! What is counted: commands by a check, trace lines by a summary, and levels of a tree.

ghost use Rattle.std.specs.Prelude.{◌≡◌, ◌++◌, codes};
ghost use Rattle.script_model.specs.Generator.{generated};
ghost use Rattle.page_model.specs.Outcome.{trace, check_text, summary_of};
ghost use Rattle.model_rows.specs.Texts.{deep_page};

/// A check counts the commands, including ticks.
pub fn commands_are_counted_by_a_check()
    ensures { check_text (
        codes "script 1\nblock r top\nappend top r\nro o top -\nro-observe o r content\n"
        ++ codes "tick 0\n"
        ) ≡ (
        codes "ok 5\n"
        ) }
{}

/// A check counts the commands of handlers and blocks, and the blocks themselves.
pub fn commands_of_blocks_are_counted()
    ensures { check_text (
        codes "script 1\nhandler h\neach\nwhen seen\nsay a\nend\nend\nsay b\nend\nsay c\n"
        ) ≡ (
        codes "ok 5\n"
        ) }
{}

/// A check of a text that isn't a script gives its fault.
pub fn a_check_of_an_empty_text()
    ensures { check_text (codes "") ≡ codes "syntax 1 1\n" }
{}

/// A summary counts the lines of each kind.
pub fn lines_are_counted_by_a_summary()
    ensures { summary_of (
        codes "script 1\nhandler more\ngrow c height 1px\nend\nblock r top\nappend top r\n"
        ++ codes "block p top\nappend r p\nblock c top\nset c height 10px\nappend p c\n"
        ++ codes "ro o top more\nro-observe o p content\nro-observe o c content\ntick 0\ntick 16\n"
        ) ≡ (
        codes "tick 2\ntimer 0\nframe 0\ntask 0\nevent 2\nresize 6\nround 4\nintersect 0\n"
        ++ codes "take 0\nsay 0\nread 0\nthrow 0\nlimit 0\nsyntax 0\n"
        ) }
{}

/// A list of 20 cards whose images are loaded as they come near the viewport: 20 initial entries, and then one for each image
/// of the cards 9 to 18 and of the last one.
pub fn cards_are_loaded_as_they_come_near()
    ensures { summary_of (generated 19) ≡ (
        codes "tick 5\ntimer 0\nframe 0\ntask 0\nevent 2\nresize 1\nround 1\nintersect 31\n"
        ++ codes "take 0\nsay 0\nread 0\nthrow 0\nlimit 0\nsyntax 0\n"
        ) }
{}

/// A tree has at most 256 levels, and no block is wider than the largest length.
pub fn a_tree_has_a_limit_of_levels()
    ensures { trace (deep_page ++ codes "read e256\nblock e257 top\nappend e256 e257\n") ≡ (
        codes "read e256 0 0 33554431.984375 0 0 0\nlimit depth 772 256\n"
        ) }
{}
