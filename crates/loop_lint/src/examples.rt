//! Worked examples, computed from a script's bytes, of why each certificate forbids what it does.

ghost use Rattle.std.specs.Prelude.{◌≡◌, [], ◌∷◌, codes};
ghost use Rattle.loop_lint.specs.Examples.{seen};

/// Each command that is forbidden in a quiet script's loop handlers can cause the loop error on its own.
pub fn each_forbidden_command_can_cause_an_error()
    ensures viewport { seen (codes "script 1\nhandler h\nviewport 700px 600px\nend\nblock r top\nappend top r\nro o top h\nro-observe o r content\ntick 0\n")
        ≡ record { moving = []; disturbing = 3 ∷ []; depths = (1 ∷ []) ∷ []; errors = 1 } }
    ensures ratio { seen (codes "script 2\nhandler h\nratio 200%\nend\nblock r top\nappend top r\nro o top h\nro-observe o r device\ntick 0\n")
        ≡ record { moving = []; disturbing = 3 ∷ []; depths = (1 ∷ []) ∷ []; errors = 1 } }
    ensures set { seen (codes "script 1\nhandler h\nset r height 20px\nend\nblock r top\nappend top r\nro o top h\nro-observe o r content\ntick 0\n")
        ≡ record { moving = []; disturbing = 3 ∷ []; depths = (1 ∷ []) ∷ []; errors = 1 } }
    ensures grow { seen (codes "script 1\nhandler h\ngrow r height 1px\nend\nblock r top\nappend top r\nset r height 10px\nro o top h\nro-observe o r content\ntick 0\n")
        ≡ record { moving = []; disturbing = 3 ∷ []; depths = (1 ∷ []) ∷ []; errors = 1 } }
    ensures load { seen (codes "script 1\nhandler h\nload i 20px 20px\nend\nimage i top 10px 10px\nappend top i\nro o top h\nro-observe o i content\ntick 0\n")
        ≡ record { moving = []; disturbing = 3 ∷ []; depths = (1 ∷ []) ∷ []; errors = 1 } }
    ensures ro_observe { seen (codes "script 1\nhandler h\nro-observe o r content\nend\nblock r top\nappend top r\nro o top h\nro-observe o r content\ntick 0\n")
        ≡ record { moving = []; disturbing = 3 ∷ []; depths = (1 ∷ []) ∷ []; errors = 1 } }
    ensures append { seen (codes "script 1\nhandler h\nappend r c\nend\nblock r top\nappend top r\nblock c top\nset c height 10px\nro o top h\nro-observe o r content\ntick 0\n")
        ≡ record { moving = 3 ∷ []; disturbing = 3 ∷ []; depths = (1 ∷ []) ∷ []; errors = 1 } }
    ensures before { seen (codes "script 1\nhandler h\nbefore r c d\nend\nblock r top\nappend top r\nblock d top\nappend r d\nblock c top\nset c height 10px\nro o top h\nro-observe o r content\ntick 0\n")
        ≡ record { moving = 3 ∷ []; disturbing = 3 ∷ []; depths = (1 ∷ []) ∷ []; errors = 1 } }
    ensures remove { seen (codes "script 1\nhandler h\nremove c\nend\nblock r top\nappend top r\nblock c top\nset c height 10px\nappend r c\nro o top h\nro-observe o r content\ntick 0\n")
        ≡ record { moving = 3 ∷ []; disturbing = 3 ∷ []; depths = (1 ∷ []) ∷ []; errors = 1 } }
{}

/// Two handlers that move each other's target, one of them in a `when`, so that rounds don't go deeper.
pub fn depths_of_an_unsteady_script_fall()
    ensures { seen (codes "script 1\nhandler ha\nwhen not taller x 12px\ngrow x height 1px\nremove y\nend\nend\nhandler hb\nappend z y\nend\nblock r top\nappend top r\nblock x top\nset x height 10px\nappend r x\nblock z top\nappend r z\nblock y top\nset y height 10px\nappend z y\nro a top ha\nro-observe a x content\nro b top hb\nro-observe b y content\ntick 0\n")
        ≡ record { moving = 5 ∷ 9 ∷ []; disturbing = 4 ∷ 5 ∷ 9 ∷ []; depths = (1 ∷ 1 ∷ 1 ∷ 2 ∷ []) ∷ []; errors = 0 } }
{}

/// A steady script that isn't quiet: rounds go deeper, and the error is fired.
pub fn a_steady_script_can_have_an_error()
    ensures { seen (codes "script 1\nhandler more\ngrow c height 1px\nend\nblock r top\nappend top r\nblock p top\nappend r p\nblock c top\nset c height 10px\nappend p c\nro o top more\nro-observe o p content\nro-observe o c content\ntick 0\ntick 16\n")
        ≡ record { moving = []; disturbing = 3 ∷ []; depths = (2 ∷ 3 ∷ []) ∷ (2 ∷ 3 ∷ []) ∷ []; errors = 2 } }
{}

/// A script that isn't quiet and has no error: the certificate is sufficient, not necessary.
pub fn a_script_without_an_error_can_be_unquiet()
    ensures { seen (codes "script 1\nhandler ha\nset c height 20px\nend\nhandler hb\nset c height 10px\nend\nblock r top\nappend top r\nblock p top\nappend r p\nblock c top\nset c height 10px\nappend p c\nro a top ha\nro-observe a p content\nro b top hb\nro-observe b c content\ntick 0\n")
        ≡ record { moving = []; disturbing = 3 ∷ 6 ∷ []; depths = (2 ∷ 3 ∷ []) ∷ []; errors = 0 } }
{}

/// A quiet script, in which an `ro` in one handler names another handler.
pub fn a_quiet_script_has_no_error()
    ensures { seen (codes "script 1\nhandler show\nblock b top\nro n top again\nread $target\nend\nhandler again\nsay more\nend\nblock r top\nappend top r\nro o top show\nro-observe o r content\ntick 0\ntick 16\n")
        ≡ record { moving = []; disturbing = []; depths = (1 ∷ []) ∷ [] ∷ []; errors = 0 } }
{}
