//! Intersection observers: intersections, and when an observer is notified (Intersection Observer, 3.2).

ghost use Rattle.std.specs.Prelude.{◌≡◌, ◌++◌, codes};
ghost use Rattle.page_model.specs.Outcome.{trace};

/// Sharing an edge is enough to intersect; a gap of one unit isn't.
pub fn an_edge_in_common_intersects()
    ensures { trace (
        codes "script 1\nblock r top\nappend top r\nblock s top\nset s height 600px\n"
        ++ codes "append r s\nblock t top\nappend r t\nio i top - root - margin threshold 0\n"
        ++ codes "io-observe i t\ntick 0\nset s height 600.02px\ntick 16\n"
        ) ≡ (
        codes "tick 0\n"
        ++ codes "intersect i t 0 yes 1/1 root 0 0 800 600 box 0 600 800 0 cut 0 600 800 0\n"
        ++ codes "tick 16\n"
        ++ codes "intersect i t 16 no 0/1 root 0 0 800 600 box 0 600.015625 800 0 cut 0 0 0 0\n"
        ) }
{}

/// A scroll container clips at its padding box, and its contents move as it is scrolled.
pub fn a_scroll_container_clips()
    ensures { trace (
        codes "script 1\nblock r top\nappend top r\nblock s top\nset s height 100px\n"
        ++ codes "set s overflow hidden\nappend r s\nblock u top\nset u height 300px\nappend s u\n"
        ++ codes "block t top\nset t height 10px\nappend s t\n"
        ++ codes "io i top - root - margin threshold 0\nio-observe i t\ntick 0\n"
        ++ codes "scroll s 0px 250px\ntick 16\n"
        ) ≡ (
        codes "tick 0\n"
        ++ codes "intersect i t 0 no 0/32768000 root 0 0 800 600 box 0 300 800 10 cut 0 0 0 0\n"
        ++ codes "tick 16\nevent scroll s\n"
        ++ codes "intersect i t 16 yes 32768000/32768000 root 0 0 800 600 box 0 90 800 10 cut 0 90 800 10\n"
        ) }
{}

/// Margins must have units, and thresholds must be between 0 and 1; a margin's percentages are relative to the root's width, and a root isn't
/// a target of its own observer.
pub fn margins_and_thresholds_of_observers()
    ensures { trace (
        codes "script 1\nblock r top\nappend top r\nset r height 100px\n"
        ++ codes "io a top - root - margin 0 threshold 0\n"
        ++ codes "io a top - root - margin threshold 0 1.0001\n"
        ++ codes "io a top - root - margin 10% 0px threshold\n"
        ++ codes "io b top - root r margin threshold 0\nio-observe a r\nio-observe b r\ntick 0\n"
        ) ≡ (
        codes "throw 5 SyntaxError\nthrow 6 RangeError\ntick 0\n"
        ++ codes "intersect a r 0 yes 327680000/327680000 root 0 -80 800 760 box 0 0 800 100 cut 0 0 800 100\n"
        ++ codes "intersect b r 0 no 0/1 root 0 0 800 100 box 0 0 0 0 cut 0 0 0 0\n"
        ) }
{}

/// A ratio is compared with the thresholds without rounding, so a target that becomes visible by slightly less than half has crossed the
/// threshold 0.5.
pub fn a_ratio_is_not_rounded()
    ensures { trace (
        codes "script 1\nblock r top\nappend top r\nblock s top\nset s height 590px\n"
        ++ codes "append r s\nblock t top\nset t height 20px\nappend r t\n"
        ++ codes "io i top - root - margin threshold 0.5\nio-observe i t\ntick 0\n"
        ++ codes "set s height 590.02px\ntick 16\nset s height 590.04px\ntick 32\n"
        ) ≡ (
        codes "tick 0\n"
        ++ codes "intersect i t 0 yes 32768000/65536000 root 0 0 800 600 box 0 590 800 20 cut 0 590 800 10\n"
        ++ codes "tick 16\n"
        ++ codes "intersect i t 16 yes 32716800/65536000 root 0 0 800 600 box 0 590.015625 800 20 cut 0 590.015625 800 9.984375\n"
        ++ codes "tick 32\n"
        ) }
{}

/// An observer is only notified while its root is in the document; its queue is kept until then.
pub fn a_root_that_was_removed_is_not_notified()
    ensures { trace (
        codes "script 1\nhandler ha\nremove q\nend\nblock r top\nappend top r\n"
        ++ codes "frame f top kid\nappend r f\nblock k kid\nappend kid k\nblock q kid\n"
        ++ codes "set q height 50px\nappend k q\nblock w kid\nset w height 20px\nappend q w\n"
        ++ codes "io a top ha root - margin threshold 0\nio-observe a r\n"
        ++ codes "io b kid - root q margin threshold 0\nio-observe b w\ntick 0\nappend k q\n"
        ++ codes "set w display none\ntick 16\n"
        ) ≡ (
        codes "tick 0\n"
        ++ codes "intersect a r 0 yes 491520000/491520000 root 0 0 800 600 box 0 0 800 150 cut 0 0 800 150\n"
        ++ codes "tick 16\n"
        ++ codes "intersect b w 0 yes 24576000/24576000 root 0 0 300 50 box 0 0 300 20 cut 0 0 300 20\n"
        ++ codes "intersect b w 16 no 0/1 root 0 0 300 50 box 0 0 0 0 cut 0 0 0 0\n"
        ) }
{}

/// An observer whose queue was taken is not notified.
pub fn taking_a_queue_before_it_is_notified()
    ensures { trace (
        codes "script 1\nhandler h\nio-take i\nend\nblock r top\nappend top r\n"
        ++ codes "io i top - root - margin threshold\nio-observe i r\npost top h\ntick 0\n"
        ) ≡ (
        codes "tick 0\ntask top h\ntake i 1\n"
        ++ codes "intersect i r 0 yes 1/1 root 0 0 800 600 box 0 0 800 0 cut 0 0 800 0\n"
        ) }
{}

/// The viewport of a nested document clips its contents.
pub fn a_nested_viewport_clips()
    ensures { trace (
        codes "script 1\nblock r top\nappend top r\nframe f top kid\nappend r f\nblock k kid\n"
        ++ codes "append kid k\nblock u kid\nset u height 200px\nappend k u\nblock t kid\n"
        ++ codes "set t height 10px\nappend k t\nio i top - root - margin threshold 0\n"
        ++ codes "io-observe i t\ntick 0\n"
        ) ≡ (
        codes "tick 0\n"
        ++ codes "intersect i t 0 no 0/12288000 root 0 0 800 600 box 0 200 300 10 cut 0 0 0 0\n"
        ) }
{}

/// A target that is apart from its root has index 0, so it is reported again once it is merely out of view.
pub fn a_target_that_is_apart_has_the_index_0()
    ensures { trace (
        codes "script 1\nblock r top\nappend top r\nblock s top\nset s height 10px\nappend r s\n"
        ++ codes "block t top\nset t height 10px\nset t margin-top 50px\nset t display none\n"
        ++ codes "append s t\nio i top - root s margin threshold 0\nio-observe i t\ntick 0\n"
        ++ codes "set t display block\ntick 16\n"
        ) ≡ (
        codes "tick 0\nintersect i t 0 no 0/1 root 0 0 800 10 box 0 0 0 0 cut 0 0 0 0\ntick 16\n"
        ++ codes "intersect i t 16 no 0/32768000 root 0 0 800 10 box 0 50 800 10 cut 0 0 0 0\n"
        ) }
{}

/// A target without a box in the root's document has the same index as one out of view, so it isn't reported again.
pub fn a_target_without_a_box_has_the_index_of_nothing_seen()
    ensures { trace (
        codes "script 1\nblock r top\nappend top r\nblock t top\nset t height 10px\n"
        ++ codes "set t margin-top 700px\nset t display none\nappend r t\n"
        ++ codes "io i top - root top margin threshold 0\nio-observe i t\ntick 0\n"
        ++ codes "set t display block\ntick 16\n"
        ) ≡ (
        codes "tick 0\nintersect i t 0 no 0/1 root 0 0 800 600 box 0 0 0 0 cut 0 0 0 0\ntick 16\n"
        ) }
{}

/// The root rectangle of a root that clips is its padding box, that of another root its border box.
pub fn a_root_that_clips_is_its_padding_box()
    ensures { trace (
        codes "script 1\nblock r top\nappend top r\nblock s top\nset s height 100px\n"
        ++ codes "set s overflow hidden\nset s border 5px\nappend r s\nblock t top\n"
        ++ codes "set t height 10px\nappend s t\nio i top - root s margin threshold 0\n"
        ++ codes "io-observe i t\ntick 0\nset s overflow visible\nset t margin-top 200px\ntick 16\n"
        ) ≡ (
        codes "tick 0\n"
        ++ codes "intersect i t 0 yes 32358400/32358400 root 5 5 790 100 box 5 5 790 10 cut 5 5 790 10\n"
        ++ codes "tick 16\n"
        ++ codes "intersect i t 16 no 0/32358400 root 0 0 800 110 box 5 205 790 10 cut 0 0 0 0\n"
        ) }
{}

/// An observer's scroll margins expand the clips of scroll containers for this observer only.
pub fn scroll_margins_move_a_clip()
    ensures { trace (
        codes "script 2\nblock r top\nappend top r\nblock s top\nset s height 100px\n"
        ++ codes "set s overflow hidden\nappend r s\nblock u top\nset u height 130px\nappend s u\n"
        ++ codes "block t top\nset t height 10px\nappend s t\n"
        ++ codes "io i top - root - margin scroll 60px threshold 0\nio j top - root - margin threshold 0\n"
        ++ codes "io-observe i t\nio-observe j t\ntick 0\n"
        ) ≡ (
        codes "tick 0\n"
        ++ codes "intersect i t 0 yes 32768000/32768000 root 0 0 800 600 box 0 130 800 10 cut 0 130 800 10\n"
        ++ codes "intersect j t 0 no 0/32768000 root 0 0 800 600 box 0 130 800 10 cut 0 0 0 0\n"
        ) }
{}
