//! Worked examples of rounds and of commands that uproot, computed from a script's bytes.

ghost use Rattle.std.specs.Prelude.{◌≡◌, [], ◌∷◌, codes};
ghost use Rattle.loop_laws.specs.Examples.{loop_seen};

/// A handler makes a deeper element taller: the second round delivers only that element.
pub fn a_second_round_is_deeper()
    ensures { loop_seen (codes "script 1\nhandler more\ngrow c height 1px\nend\nblock r top\nappend top r\nblock p top\nappend r p\nblock c top\nset c height 10px\nappend p c\nro o top more\nro-observe o p content\nro-observe o c content\n")
        ≡ record { depths = 2 ∷ 3 ∷ []; commands = 1 ∷ 1 ∷ []; uprootings = 0 ∷ 0 ∷ []; delivered = 2 ∷ 3 ∷ 3 ∷ [] } }
{}

/// The first handler removes the second one's target from the tree, so that it is delivered at depth 1, and the second handler puts it
/// back, which uproots nothing, since it has no parent then: four rounds of depth 1, each with one command that uproots, and a last one, in
/// which only the second handler is called and moves it to where it already is.
pub fn depths_fall_where_commands_uproot()
    ensures { loop_seen (codes "script 1\nhandler ha\nwhen not taller x 12px\ngrow x height 1px\nend\nremove y\nend\nhandler hb\nappend z y\nend\nblock r top\nappend top r\nblock x top\nset x height 10px\nappend r x\nblock z top\nappend r z\nblock y top\nset y height 10px\nappend z y\nro a top ha\nro-observe a x content\nro b top hb\nro-observe b y content\n")
        ≡ record {
          depths = 1 ∷ 1 ∷ 1 ∷ 1 ∷ 3 ∷ [];
          commands = 4 ∷ 4 ∷ 4 ∷ 3 ∷ 1 ∷ [];
          uprootings = 1 ∷ 1 ∷ 1 ∷ 1 ∷ 1 ∷ [];
          delivered = 2 ∷ 1 ∷ 2 ∷ 1 ∷ 2 ∷ 1 ∷ 2 ∷ 1 ∷ 3 ∷ [];
        } }
{}

/// After a tick in which its handler removed it, `y` has no parent and no box any more, so it is delivered at depth 1; and the
/// handler removes it again. This `remove` takes effect, but uproots nothing: by `loops_go_deeper` a round with no other move is deeper than
/// the one before, whatever elements without a parent are removed.
pub fn to_remove_what_stands_nowhere_uproots_nothing()
    ensures { loop_seen (codes "script 1\nhandler h\nremove y\nend\nblock r top\nappend top r\nblock y top\nset y height 10px\nappend r y\nro o top h\nro-observe o y content\ntick 0\n")
        ≡ record { depths = 1 ∷ []; commands = 1 ∷ []; uprootings = 0 ∷ []; delivered = 1 ∷ [] } }
{}
