//! Relative, absolute and fixed positions.

ghost use Rattle.std.specs.Prelude.{◌≡◌, ◌++◌, codes};
ghost use Rattle.page_model.specs.Outcome.{trace};

/// An absolute box is placed in the padding box of its nearest positioned ancestor, or in the page if there is none; it adds
/// nothing to the height of its parent.
pub fn a_containing_block_is_the_nearest_positioned_ancestor()
    ensures { trace (
        codes "script 2\nblock r top\nappend top r\nblock s top\nset s height 100px\n"
        ++ codes "set s margin-left 100px\nset s position relative\nappend r s\nblock a top\n"
        ++ codes "set a position absolute\nset a right 10px\nset a top 20px\nset a width 50%\n"
        ++ codes "set a height 30px\nappend s a\nread a\nset s position static\nread a\nread r\n"
        ) ≡ (
        codes "read a 440 20 350 30 0 0\nread a 390 20 400 30 0 0\nread r 0 0 800 100 0 0\n"
        ) }
{}

/// A box that clips doesn't clip boxes that it doesn't hold.
pub fn a_clip_is_of_what_the_box_holds()
    ensures { trace (
        codes "script 2\nblock r top\nappend top r\nblock s top\nset s height 50px\n"
        ++ codes "set s overflow hidden\nappend r s\nblock a top\nset a position absolute\n"
        ++ codes "set a top 200px\nset a width 10px\nset a height 10px\nappend s a\n"
        ++ codes "io i top - root - margin threshold 0\nio-observe i a\ntick 0\n"
        ++ codes "set s position relative\ntick 16\n"
        ) ≡ (
        codes "tick 0\n"
        ++ codes "intersect i a 0 yes 409600/409600 root 0 0 800 600 box 0 200 10 10 cut 0 200 10 10\n"
        ++ codes "tick 16\n"
        ++ codes "intersect i a 16 no 0/409600 root 0 0 800 600 box 0 200 10 10 cut 0 0 0 0\n"
        ) }
{}

/// The screen holds a fixed box, so scrolling doesn't move it.
pub fn a_fixed_box_stays_on_the_screen()
    ensures { trace (
        codes "script 2\nblock r top\nappend top r\nblock s top\nset s height 2000px\nappend r s\n"
        ++ codes "block f top\nset f position fixed\nset f bottom 0px\nset f width 100px\n"
        ++ codes "set f height 40px\nappend r f\nscroll top 0px 500px\nread f\nread s\n"
        ) ≡ (
        codes "read f 0 560 100 40 0 0\nread s 0 -500 800 2000 0 0\n"
        ) }
{}

/// A root element counts as static: with `position: absolute` it still fills the viewport, while elsewhere such a box is laid out between
/// its insets.
pub fn a_root_element_counts_as_static()
    ensures { trace (
        codes "script 2\nblock a top\nset a position absolute\nset a left 10px\nappend top a\n"
        ++ codes "read a\nremove a\nblock r top\nappend top r\nappend r a\nread a\n"
        ) ≡ (
        codes "read a 0 0 800 0 0 0\nread a 10 0 790 0 0 0\n"
        ) }
{}
