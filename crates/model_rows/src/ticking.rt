//! The parts of a tick and their order (HTML, update the rendering; CSSOM View, 4.2 and 13).

ghost use Rattle.std.specs.Prelude.{◌≡◌, ◌++◌, codes};
ghost use Rattle.page_model.specs.Outcome.{trace};

/// A second listener for the same event and handler is ignored, the first resize steps only record the size, and a media query list
/// fires `change` if its state has changed.
pub fn events_of_the_viewport_and_of_queries()
    ensures { trace (
        codes "script 1\nhandler h\nsay wide\nend\nblock r top\nappend top r\n"
        ++ codes "listen @top resize h\nlisten @top resize h\n"
        ++ codes "media m top (min-width: 600px) and (orientation: landscape)\ntick 0\n"
        ++ codes "viewport 500px 600px\ntick 16\n"
        ) ≡ (
        codes "tick 0\ntick 16\nevent resize @top\nsay wide\nevent change m false\n"
        ) }
{}

/// Frame callbacks run during the update and tasks after it, timers when they are due, and the clock can't go back.
pub fn timers_frames_tasks_and_the_clock()
    ensures { trace (
        codes "script 1\nhandler h\nsay hello\nend\ntimer top t 10 h\nraf top f h\npost top h\n"
        ++ codes "tick 5\ntick 10\ntick 9\n"
        ) ≡ (
        codes "tick 5\nframe top f\nsay hello\ntask top h\nsay hello\ntick 10\ntimer top t\n"
        ++ codes "say hello\nthrow 10 RangeError\n"
        ) }
{}

/// A timer that is cleared in the meantime doesn't run, and one that is set in the meantime waits for the next tick.
pub fn a_timer_that_is_cleared_before_its_turn()
    ensures { trace (
        codes "script 1\nhandler a\nclear-timer top y\ntimer top z 0 b\nend\nhandler b\n"
        ++ codes "say late\nend\ntimer top x 5 a\ntimer top y 5 b\ntick 5\ntick 6\n"
        ) ≡ (
        codes "tick 5\ntimer top x\ntick 6\ntimer top z\nsay late\n"
        ) }
{}

/// A scroll offset is clamped to the range at each reading, and a Dead document has no boxes and fires nothing.
pub fn an_offset_is_kept_within_the_range()
    ensures { trace (
        codes "script 1\nblock r top\nappend top r\nframe f top kid\nappend r f\nblock k kid\n"
        ++ codes "set k height 400px\nappend kid k\nscroll kid 0px 900px\nread k\n"
        ++ codes "set f height 350px\nread k\nremove f\nread k\ntick 0\n"
        ) ≡ (
        codes "read k 0 -250 300 400 0 0\nread k 0 -50 300 400 0 0\nread k 0 0 0 0 0 0\n"
        ++ codes "tick 0\n"
        ) }
{}

/// A listener that was removed in the meantime doesn't run, even if it was registered again.
pub fn a_listener_that_was_removed_is_not_run()
    ensures { trace (
        codes "script 1\nhandler a\nunlisten @top resize b\nlisten @top resize b\nend\nhandler b\n"
        ++ codes "say late\nend\nlisten @top resize a\nlisten @top resize b\ntick 0\n"
        ++ codes "viewport 500px 500px\ntick 16\n"
        ) ≡ (
        codes "tick 0\ntick 16\nevent resize @top\n"
        ) }
{}

/// A `scroll` event at a document bubbles to its window.
pub fn a_scroll_goes_on_to_the_window()
    ensures { trace (
        codes "script 1\nhandler d\nsay document\nend\nhandler w\nsay window\nend\nblock r top\n"
        ++ codes "set r height 1000px\nappend top r\nlisten @top scroll w\nlisten top scroll d\n"
        ++ codes "scroll top 0px 100px\ntick 0\n"
        ) ≡ (
        codes "tick 0\nevent scroll top\nsay document\nsay window\n"
        ) }
{}

/// Intersections are computed after the resize loop, and take into account what its callbacks have changed.
pub fn intersections_come_after_the_resize_loop()
    ensures { trace (
        codes "script 1\nhandler h\nset s height 10px\nend\nblock r top\nappend top r\nblock s top\n"
        ++ codes "set s height 700px\nappend r s\nblock t top\nset t height 10px\nappend r t\n"
        ++ codes "ro o top h\nro-observe o s content\n"
        ++ codes "io i top - root - margin threshold 0\nio-observe i t\ntick 0\n"
        ) ≡ (
        codes "tick 0\nresize o s rect 0 0 800 700 border 800 700\nround top 2\n"
        ++ codes "event error @top ResizeObserver loop completed with undelivered notifications.\n"
        ++ codes "intersect i t 0 yes 32768000/32768000 root 0 0 800 600 box 0 10 800 10 cut 0 10 800 10\n"
        ) }
{}
