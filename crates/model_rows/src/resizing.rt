//! Resize observers: what is delivered, in which round, and what remains for the next tick (Resize Observer, 3.4).

ghost use Rattle.std.specs.Prelude.{◌≡◌, ◌++◌, codes};
ghost use Rattle.page_model.specs.Outcome.{trace};

/// A new observation is delivered with the first tick, since its last reported size is 0 by 0. The round has the
/// target's depth.
pub fn a_first_size_is_delivered()
    ensures { trace (
        codes "script 1\nblock r top\nappend top r\nro o top -\nro-observe o r content\n"
        ++ codes "tick 0\n"
        ) ≡ (
        codes "tick 0\nresize o r rect 0 0 800 0 border 800 0\nround top 1\n"
        ) }
{}

/// A size that was reported is not delivered again.
pub fn an_unchanged_size_is_not_delivered_again()
    ensures { trace (
        codes "script 1\nblock r top\nappend top r\nro o top -\nro-observe o r content\n"
        ++ codes "tick 0\ntick 16\n"
        ) ≡ (
        codes "tick 0\nresize o r rect 0 0 800 0 border 800 0\nround top 1\ntick 16\n"
        ) }
{}

/// An element without a box has the size 0 by 0: entries are delivered when its box appears and when it disappears.
pub fn a_box_that_comes_and_goes()
    ensures { trace (
        codes "script 1\nblock r top\nappend top r\nblock b top\nset b display none\n"
        ++ codes "append r b\nro o top -\nro-observe o b content\ntick 0\nset b display block\n"
        ++ codes "set b width 40px\nset b height 10px\ntick 16\nremove b\ntick 32\n"
        ) ≡ (
        codes "tick 0\ntick 16\nresize o b rect 0 0 40 10 border 40 10\nround top 2\ntick 32\n"
        ++ codes "resize o b rect 0 0 0 0 border 0 0\nround top 1\n"
        ) }
{}

/// A round delivers only what is deeper than the round before. What has changed and isn't deeper is skipped, which an
/// error event reports, and delivered at the next tick.
pub fn each_round_goes_deeper()
    ensures { trace (
        codes "script 1\nhandler more\ngrow c height 1px\nend\nblock r top\nappend top r\n"
        ++ codes "block p top\nappend r p\nblock c top\nset c height 10px\nappend p c\n"
        ++ codes "ro o top more\nro-observe o p content\nro-observe o c content\ntick 0\ntick 16\n"
        ) ≡ (
        codes "tick 0\nresize o p rect 0 0 800 10 border 800 10\n"
        ++ codes "resize o c rect 0 0 800 10 border 800 10\nround top 2\n"
        ++ codes "resize o c rect 0 0 800 11 border 800 11\nround top 3\n"
        ++ codes "event error @top ResizeObserver loop completed with undelivered notifications.\n"
        ++ codes "tick 16\nresize o p rect 0 0 800 12 border 800 12\n"
        ++ codes "resize o c rect 0 0 800 12 border 800 12\nround top 2\n"
        ++ codes "resize o c rect 0 0 800 13 border 800 13\nround top 3\n"
        ++ codes "event error @top ResizeObserver loop completed with undelivered notifications.\n"
        ) }
{}

/// An entry has the sizes at its delivery, not those at gathering.
pub fn sizes_are_those_at_the_delivery()
    ensures { trace (
        codes "script 1\nhandler ha\nset c height 20px\nend\nhandler hb\nset c height 10px\n"
        ++ codes "end\nblock r top\nappend top r\nblock p top\nappend r p\nblock c top\n"
        ++ codes "set c height 10px\nappend p c\nro a top ha\nro-observe a p content\n"
        ++ codes "ro b top hb\nro-observe b c content\ntick 0\n"
        ) ≡ (
        codes "tick 0\nresize a p rect 0 0 800 10 border 800 10\n"
        ++ codes "resize b c rect 0 0 800 20 border 800 20\nround top 2\n"
        ++ codes "resize b c rect 0 0 800 10 border 800 10\nround top 3\n"
        ) }
{}

/// Disconnecting an observer discards what was gathered for it.
pub fn disconnecting_drops_what_is_active()
    ensures { trace (
        codes "script 1\nhandler ha\nro-disconnect b\nend\nblock r top\nappend top r\n"
        ++ codes "block x top\nset x height 10px\nappend r x\nblock y top\nset y height 10px\n"
        ++ codes "append r y\nro a top ha\nro-observe a x content\nro b top -\n"
        ++ codes "ro-observe b y content\ntick 0\n"
        ) ≡ (
        codes "tick 0\nresize a x rect 0 0 800 10 border 800 10\nround top 2\n"
        ) }
{}

/// Unobserving a target doesn't discard what was gathered.
pub fn unobserving_leaves_what_is_active()
    ensures { trace (
        codes "script 1\nhandler ha\nro-unobserve b y\nend\nblock r top\nappend top r\n"
        ++ codes "block x top\nset x height 10px\nappend r x\nblock y top\nset y height 10px\n"
        ++ codes "append r y\nro a top ha\nro-observe a x content\nro b top -\n"
        ++ codes "ro-observe b y content\ntick 0\n"
        ) ≡ (
        codes "tick 0\nresize a x rect 0 0 800 10 border 800 10\n"
        ++ codes "resize b y rect 0 0 800 10 border 800 10\nround top 2\n"
        ) }
{}

/// Observing a target again creates another observation: the delivery of the old one reports nothing for the new one.
pub fn observing_anew_makes_another_observation()
    ensures { trace (
        codes "script 1\nhandler ha\nro-observe b y content\nend\nblock r top\nappend top r\n"
        ++ codes "block x top\nset x height 10px\nappend r x\nblock y top\nset y height 10px\n"
        ++ codes "append r y\nro a top ha\nro-observe a x content\nro b top -\n"
        ++ codes "ro-observe b y content\ntick 0\ntick 16\n"
        ) ≡ (
        codes "tick 0\nresize a x rect 0 0 800 10 border 800 10\n"
        ++ codes "resize b y rect 0 0 800 10 border 800 10\nround top 2\n"
        ++ codes "event error @top ResizeObserver loop completed with undelivered notifications.\n"
        ++ codes "tick 16\nresize b y rect 0 0 800 10 border 800 10\nround top 2\n"
        ) }
{}

/// An observer that disconnects itself in its callback has no part in the next round.
pub fn an_observer_may_disconnect_itself()
    ensures { trace (
        codes "script 1\nhandler ha\nro-disconnect a\nend\nblock r top\nappend top r\n"
        ++ codes "block x top\nset x height 10px\nappend r x\nblock y top\nset y height 10px\n"
        ++ codes "append r y\nro a top ha\nro-observe a x content\nro b top -\n"
        ++ codes "ro-observe b y content\ntick 0\n"
        ) ≡ (
        codes "tick 0\nresize a x rect 0 0 800 10 border 800 10\n"
        ++ codes "resize b y rect 0 0 800 10 border 800 10\nround top 2\n"
        ) }
{}

/// An observation made in a callback waits for a deeper round.
pub fn observing_a_second_box_is_skipped()
    ensures { trace (
        codes "script 1\nhandler ha\nro-observe a x border\nend\nblock r top\nappend top r\n"
        ++ codes "block x top\nset x height 10px\nappend r x\nblock y top\nset y height 10px\n"
        ++ codes "append r y\nro a top ha\nro-observe a x content\nro b top -\n"
        ++ codes "ro-observe b y content\ntick 0\n"
        ) ≡ (
        codes "tick 0\nresize a x rect 0 0 800 10 border 800 10\n"
        ++ codes "resize b y rect 0 0 800 10 border 800 10\nround top 2\n"
        ++ codes "event error @top ResizeObserver loop completed with undelivered notifications.\n"
        ) }
{}

/// If a callback removes a gathered target, the next round may be no deeper.
pub fn a_round_may_go_no_deeper()
    ensures { trace (
        codes "script 1\nhandler ha\nwhen not taller x 12.5px\ngrow x height 1px\nremove y\n"
        ++ codes "end\nend\nhandler hb\nappend z y\nend\nblock r top\nappend top r\nblock x top\n"
        ++ codes "set x height 10px\nappend r x\nblock z top\nappend r z\nblock y top\n"
        ++ codes "set y height 10px\nappend z y\nro a top ha\nro-observe a x content\n"
        ++ codes "ro b top hb\nro-observe b y content\ntick 0\n"
        ) ≡ (
        codes "tick 0\nresize a x rect 0 0 800 10 border 800 10\n"
        ++ codes "resize b y rect 0 0 0 0 border 0 0\nround top 1\n"
        ++ codes "resize a x rect 0 0 800 11 border 800 11\nresize b y rect 0 0 0 0 border 0 0\n"
        ++ codes "round top 1\nresize a x rect 0 0 800 12 border 800 12\n"
        ++ codes "resize b y rect 0 0 0 0 border 0 0\nround top 1\n"
        ++ codes "resize a x rect 0 0 800 13 border 800 13\n"
        ++ codes "resize b y rect 0 0 800 10 border 800 10\nround top 2\n"
        ) }
{}

/// A callback that makes its own document Dead ends the loop: no further entry, no round and no error.
pub fn a_document_that_dies_ends_the_loop()
    ensures { trace (
        codes "script 1\nhandler bye\nremove f\nend\nblock r top\nappend top r\n"
        ++ codes "frame f top kid\nappend r f\nblock k kid\nappend kid k\nro a kid bye\n"
        ++ codes "ro-observe a k content\nro b kid -\nro-observe b k content\ntick 0\n"
        ) ≡ (
        codes "tick 0\nresize a k rect 0 0 300 0 border 300 0\n"
        ) }
{}

/// A device-pixel content box is reported in whole device pixels, rounded to the nearest, and counts as resized when the device pixel ratio
/// changes it.
pub fn device_pixels_are_rounded()
    ensures { trace (
        codes "script 2\nblock r top\nappend top r\nset r width 10.5px\nset r height 3px\n"
        ++ codes "ratio 150%\nro o top -\nro-observe o r device\ntick 0\nratio 200%\ntick 16\n"
        ) ≡ (
        codes "tick 0\nresize o r rect 0 0 10.5 3 border 10.5 3 device 16 5\nround top 1\n"
        ++ codes "tick 16\nresize o r rect 0 0 10.5 3 border 10.5 3 device 21 6\nround top 1\n"
        ) }
{}

/// Scripts of the first version have no `ratio`.
pub fn a_ratio_in_the_first_version()
    ensures { trace (
        codes "script 1\nblock r top\nappend top r\nset r width 10.5px\nset r height 3px\n"
        ++ codes "ratio 150%\nro o top -\nro-observe o r device\ntick 0\nratio 200%\ntick 16\n"
        ) ≡ codes "syntax 6 1\n" }
{}
