//! Scripts with their traces.

/// Scripts that run to their end, and what each writes.
pub(crate) const RUNS: [(&str, &str); 37] = [
    // A block is told its size in its first tick, and nothing in a second one.
    (
        "script 1\nblock r top\nappend top r\nro o top -\nro-observe o r content\ntick 0\ntick 16\n",
        "tick 0\nresize o r rect 0 0 800 0 border 800 0\nround top 1\ntick 16\n",
    ),
    // A block that is not shown at first, and is removed at last.
    (
        "script 1\nblock r top\nappend top r\nblock b top\nset b display none\nappend r b\nro o top -\nro-observe o b content\ntick 0\nset b display block\nset b width 40px\nset b height 10px\ntick 16\nremove b\ntick 32\n",
        "tick 0\ntick 16\nresize o b rect 0 0 40 10 border 40 10\nround top 2\ntick 32\nresize o b rect 0 0 0 0 border 0 0\nround top 1\n",
    ),
    GROWING,
    // A handler changes what an observer of greater depth was about to be told.
    (
        "script 1\nhandler ha\nset c height 20px\nend\nhandler hb\nset c height 10px\nend\nblock r top\nappend top r\nblock p top\nappend r p\nblock c top\nset c height 10px\nappend p c\nro a top ha\nro-observe a p content\nro b top hb\nro-observe b c content\ntick 0\n",
        "tick 0\nresize a p rect 0 0 800 10 border 800 10\nresize b c rect 0 0 800 20 border 800 20\nround top 2\nresize b c rect 0 0 800 10 border 800 10\nround top 3\n",
    ),
    // An observer that a handler disconnects is told nothing in this round.
    (
        "script 1\nhandler ha\nro-disconnect b\nend\nblock r top\nappend top r\nblock x top\nset x height 10px\nappend r x\nblock y top\nset y height 10px\nappend r y\nro a top ha\nro-observe a x content\nro b top -\nro-observe b y content\ntick 0\n",
        "tick 0\nresize a x rect 0 0 800 10 border 800 10\nround top 2\n",
    ),
    // A target that a handler leaves unobserved is told of still, as it was gathered.
    (
        "script 1\nhandler ha\nro-unobserve b y\nend\nblock r top\nappend top r\nblock x top\nset x height 10px\nappend r x\nblock y top\nset y height 10px\nappend r y\nro a top ha\nro-observe a x content\nro b top -\nro-observe b y content\ntick 0\n",
        "tick 0\nresize a x rect 0 0 800 10 border 800 10\nresize b y rect 0 0 800 10 border 800 10\nround top 2\n",
    ),
    // A target that a handler observes anew is left for the next tick, with a loop error.
    (
        "script 1\nhandler ha\nro-observe b y content\nend\nblock r top\nappend top r\nblock x top\nset x height 10px\nappend r x\nblock y top\nset y height 10px\nappend r y\nro a top ha\nro-observe a x content\nro b top -\nro-observe b y content\ntick 0\ntick 16\n",
        "tick 0\nresize a x rect 0 0 800 10 border 800 10\nresize b y rect 0 0 800 10 border 800 10\nround top 2\nevent error @top ResizeObserver loop completed with undelivered notifications.\ntick 16\nresize b y rect 0 0 800 10 border 800 10\nround top 2\n",
    ),
    // A handler removes the frame in which the second observer stands.
    (
        "script 1\nhandler bye\nremove f\nend\nblock r top\nappend top r\nframe f top kid\nappend r f\nblock k kid\nappend kid k\nro a kid bye\nro-observe a k content\nro b kid -\nro-observe b k content\ntick 0\n",
        "tick 0\nresize a k rect 0 0 300 0 border 300 0\n",
    ),
    // A target that touches the edge of the viewport, and then lies one unit below it.
    (
        "script 1\nblock r top\nappend top r\nblock s top\nset s height 600px\nappend r s\nblock t top\nappend r t\nio i top - root - margin threshold 0\nio-observe i t\ntick 0\nset s height 600.02px\ntick 16\n",
        "tick 0\nintersect i t 0 yes 1/1 root 0 0 800 600 box 0 600 800 0 cut 0 600 800 0\ntick 16\nintersect i t 16 no 0/1 root 0 0 800 600 box 0 600.015625 800 0 cut 0 0 0 0\n",
    ),
    // A target that is scrolled into a scroll container.
    (
        "script 1\nblock r top\nappend top r\nblock s top\nset s height 100px\nset s overflow hidden\nappend r s\nblock u top\nset u height 300px\nappend s u\nblock t top\nset t height 10px\nappend s t\nio i top - root - margin threshold 0\nio-observe i t\ntick 0\nscroll s 0px 250px\ntick 16\n",
        "tick 0\nintersect i t 0 no 0/32768000 root 0 0 800 600 box 0 300 800 10 cut 0 0 0 0\ntick 16\nevent scroll s\nintersect i t 16 yes 32768000/32768000 root 0 0 800 600 box 0 90 800 10 cut 0 90 800 10\n",
    ),
    // A margin and a threshold that throw, a margin in percent, and a target that is its own root.
    (
        "script 1\nblock r top\nappend top r\nset r height 100px\nio a top - root - margin 0 threshold 0\nio a top - root - margin threshold 0 1.0001\nio a top - root - margin 10% 0px threshold\nio b top - root r margin threshold 0\nio-observe a r\nio-observe b r\ntick 0\n",
        "throw 5 SyntaxError\nthrow 6 RangeError\ntick 0\nintersect a r 0 yes 327680000/327680000 root 0 -80 800 760 box 0 0 800 100 cut 0 0 800 100\nintersect b r 0 no 0/1 root 0 0 800 100 box 0 0 0 0 cut 0 0 0 0\n",
    ),
    // A ratio that is exactly a threshold, and then less than it.
    (
        "script 1\nblock r top\nappend top r\nblock s top\nset s height 590px\nappend r s\nblock t top\nset t height 20px\nappend r t\nio i top - root - margin threshold 0.5\nio-observe i t\ntick 0\nset s height 590.02px\ntick 16\nset s height 590.04px\ntick 32\n",
        "tick 0\nintersect i t 0 yes 32768000/65536000 root 0 0 800 600 box 0 590 800 20 cut 0 590 800 10\ntick 16\nintersect i t 16 yes 32716800/65536000 root 0 0 800 600 box 0 590.015625 800 20 cut 0 590.015625 800 9.984375\ntick 32\n",
    ),
    // The root of an observer in a frame is removed by a callback that comes before its own.
    (
        "script 1\nhandler ha\nremove q\nend\nblock r top\nappend top r\nframe f top kid\nappend r f\nblock k kid\nappend kid k\nblock q kid\nset q height 50px\nappend k q\nblock w kid\nset w height 20px\nappend q w\nio a top ha root - margin threshold 0\nio-observe a r\nio b kid - root q margin threshold 0\nio-observe b w\ntick 0\nappend k q\nset w display none\ntick 16\n",
        "tick 0\nintersect a r 0 yes 491520000/491520000 root 0 0 800 600 box 0 0 800 150 cut 0 0 800 150\ntick 16\nintersect b w 0 yes 24576000/24576000 root 0 0 300 50 box 0 0 300 20 cut 0 0 300 20\nintersect b w 16 no 0/1 root 0 0 300 50 box 0 0 0 0 cut 0 0 0 0\n",
    ),
    // Of two documents neither has registrations at first, then one, then the other; a root is moved between them.
    (
        "script 1\nblock r top\nappend top r\nframe f top kid\nappend r f\nblock k kid\nappend kid k\nblock q kid\nset q height 40px\nappend k q\nblock t kid\nset t height 10px\nappend q t\nio a top - root - margin threshold\nio b kid - root kid margin threshold\nio c kid - root q margin threshold\ntick 0\nio-observe b t\ntick 16\nio-unobserve b t\nio-observe a t\nset q height 50px\ntick 32\nio-observe c t\nio-disconnect a\ntick 48\nremove q\nappend r q\ntick 64\nset t display none\ntick 80\nio-disconnect c\nset t display block\ntick 96\n",
        "tick 0\ntick 16\nintersect b t 16 yes 12288000/12288000 root 0 0 300 150 box 0 0 300 10 cut 0 0 300 10\ntick 32\nintersect a t 32 yes 12288000/12288000 root 0 0 800 600 box 0 0 300 10 cut 0 0 300 10\ntick 48\nintersect c t 48 yes 12288000/12288000 root 0 0 300 50 box 0 0 300 10 cut 0 0 300 10\ntick 64\ntick 80\nintersect c t 80 no 0/1 root 0 150 800 50 box 0 0 0 0 cut 0 0 0 0\ntick 96\n",
    ),
    // A listener stands once, however often it is added; the query list is told of its change.
    (
        "script 1\nhandler h\nsay wide\nend\nblock r top\nappend top r\nlisten @top resize h\nlisten @top resize h\nmedia m top (min-width: 600px) and (orientation: landscape)\ntick 0\nviewport 500px 600px\ntick 16\n",
        "tick 0\ntick 16\nevent resize @top\nsay wide\nevent change m false\n",
    ),
    // Frame callback, task and timer, each in its turn; the clock does not go back.
    (
        "script 1\nhandler h\nsay hello\nend\ntimer top t 10 h\nraf top f h\npost top h\ntick 5\ntick 10\ntick 9\n",
        "tick 5\nframe top f\nsay hello\ntask top h\nsay hello\ntick 10\ntimer top t\nsay hello\nthrow 10 RangeError\n",
    ),
    // Edits of the tree that throw, a thing of another kind, and a name that is taken.
    (
        "script 1\nblock a top\nblock b top\nappend a b\nappend b a\nblock c top\nbefore a c a\nremove z\nro-disconnect a\nblock a top\n",
        "throw 5 HierarchyRequestError\nthrow 7 NotFoundError\nthrow 8 ReferenceError\nthrow 9 TypeError\nthrow 10 TypeError\n",
    ),
    // Percentages of a width with its padding and border in it.
    (
        "script 1\nblock r top\nappend top r\nset r width 50%\nset r box-sizing border-box\nset r padding-left 10%\nset r padding-top 5%\nset r border-left 2px\nblock c top\nset c height 50%\nset c min-height 10px\nappend r c\nro o top -\nro-observe o r content\nro-observe o c border\ntick 0\n",
        "tick 0\nresize o r rect 80 40 318 10 border 400 50\nresize o c rect 0 0 318 10 border 318 10\nround top 1\n",
    ),
    // A queue that is taken before it is delivered.
    (
        "script 1\nhandler h\nio-take i\nend\nblock r top\nappend top r\nio i top - root - margin threshold\nio-observe i r\npost top h\ntick 0\n",
        "tick 0\ntask top h\ntake i 1\nintersect i r 0 yes 1/1 root 0 0 800 600 box 0 0 800 0 cut 0 0 800 0\n",
    ),
    // A target below the viewport of its frame.
    (
        "script 1\nblock r top\nappend top r\nframe f top kid\nappend r f\nblock k kid\nappend kid k\nblock u kid\nset u height 200px\nappend k u\nblock t kid\nset t height 10px\nappend k t\nio i top - root - margin threshold 0\nio-observe i t\ntick 0\n",
        "tick 0\nintersect i t 0 no 0/12288000 root 0 0 800 600 box 0 200 300 10 cut 0 0 0 0\n",
    ),
    // A timer that is cleared by one due before it, and one that is made in the same tick.
    (
        "script 1\nhandler a\nclear-timer top y\ntimer top z 0 b\nend\nhandler b\nsay late\nend\ntimer top x 5 a\ntimer top y 5 b\ntick 5\ntick 6\n",
        "tick 5\ntimer top x\ntick 6\ntimer top z\nsay late\n",
    ),
    // A scroll position is kept within a range that shrinks; a removed frame has no boxes.
    (
        "script 1\nblock r top\nappend top r\nframe f top kid\nappend r f\nblock k kid\nset k height 400px\nappend kid k\nscroll kid 0px 900px\nread k\nset f height 350px\nread k\nremove f\nread k\ntick 0\n",
        "read k 0 -250 300 400 0 0\nread k 0 -50 300 400 0 0\nread k 0 0 0 0 0 0\ntick 0\n",
    ),
    // A handler disconnects its own observer.
    (
        "script 1\nhandler ha\nro-disconnect a\nend\nblock r top\nappend top r\nblock x top\nset x height 10px\nappend r x\nblock y top\nset y height 10px\nappend r y\nro a top ha\nro-observe a x content\nro b top -\nro-observe b y content\ntick 0\n",
        "tick 0\nresize a x rect 0 0 800 10 border 800 10\nresize b y rect 0 0 800 10 border 800 10\nround top 2\n",
    ),
    // A handler observes its own target by another box.
    (
        "script 1\nhandler ha\nro-observe a x border\nend\nblock r top\nappend top r\nblock x top\nset x height 10px\nappend r x\nblock y top\nset y height 10px\nappend r y\nro a top ha\nro-observe a x content\nro b top -\nro-observe b y content\ntick 0\n",
        "tick 0\nresize a x rect 0 0 800 10 border 800 10\nresize b y rect 0 0 800 10 border 800 10\nround top 2\nevent error @top ResizeObserver loop completed with undelivered notifications.\n",
    ),
    // A size in device pixels is told anew where the ratio changes it.
    (
        "script 2\nblock r top\nappend top r\nset r width 10.5px\nset r height 3px\nratio 150%\nro o top -\nro-observe o r device\ntick 0\nratio 200%\ntick 16\n",
        "tick 0\nresize o r rect 0 0 10.5 3 border 10.5 3 device 16 5\nround top 1\ntick 16\nresize o r rect 0 0 10.5 3 border 10.5 3 device 21 6\nround top 1\n",
    ),
    // A target below a scroll container, within its clip for an observer with a scroll margin alone.
    (
        "script 2\nblock r top\nappend top r\nblock s top\nset s height 100px\nset s overflow hidden\nappend r s\nblock u top\nset u height 130px\nappend s u\nblock t top\nset t height 10px\nappend s t\nio i top - root - margin scroll 60px threshold 0\nio j top - root - margin threshold 0\nio-observe i t\nio-observe j t\ntick 0\n",
        "tick 0\nintersect i t 0 yes 32768000/32768000 root 0 0 800 600 box 0 130 800 10 cut 0 130 800 10\nintersect j t 0 no 0/32768000 root 0 0 800 600 box 0 130 800 10 cut 0 0 0 0\n",
    ),
    // The first version has no scroll margins, and tells no device pixels.
    (
        "script 1\nblock r top\nappend top r\nio i top - root - margin 1px scroll 60px threshold 0\nro o top -\nro-observe o r border\ntick 0\n",
        "throw 4 SyntaxError\ntick 0\nresize o r rect 0 0 800 0 border 800 0\nround top 1\n",
    ),
    // Margins that throw before scroll margins, which throw before thresholds; halves of device pixels, and ratios at which others alone are told anew.
    (
        "script 2\nblock r top\nappend top r\nset r width 0.5px\nset r height 0.49px\nset r padding 1px\nio i top - root - margin 1 scroll 1 threshold 2\nio i top - root - margin scroll 1 threshold 2\nio i top - root - margin 1px 2% scroll 1px 2% 3px threshold 2\nio i top - root - margin scroll threshold\nro o top -\nro-observe o r device\nro p top -\nro-observe p r content\nro q top -\nro-observe q r border\ntick 0\nratio 99.99%\ntick 1\nratio 0%\ntick 2\nro-observe o r device\ntick 3\nratio 10000%\ntick 4\n",
        "throw 7 SyntaxError\nthrow 8 SyntaxError\nthrow 9 RangeError\ntick 0\nresize o r rect 1 1 0.5 0.484375 border 2.5 2.484375 device 1 0\nresize p r rect 1 1 0.5 0.484375 border 2.5 2.484375 device 1 0\nresize q r rect 1 1 0.5 0.484375 border 2.5 2.484375 device 1 0\nround top 1\ntick 1\nresize o r rect 1 1 0.5 0.484375 border 2.5 2.484375 device 0 0\nround top 1\ntick 2\ntick 3\ntick 4\nresize o r rect 1 1 0.5 0.484375 border 2.5 2.484375 device 50 48\nround top 1\n",
    ),
    // Scroll margins move the clips of scroll containers but not those of other boxes, nor that of the root.
    (
        "script 2\nblock r top\nappend top r\nblock s top\nset s height 100px\nset s width 200px\nset s padding 10px\nset s overflow scroll\nappend r s\nblock c top\nset c height 50px\nset c overflow clip\nappend s c\nblock u top\nset u height 70px\nappend c u\nblock t top\nset t height 10px\nappend c t\nblock v top\nset v height 60px\nappend s v\nblock w top\nset w height 20px\nappend s w\nio i top - root - margin scroll 10% threshold 0\nio j top - root s margin scroll 1000px threshold 0\nio k top - root - margin scroll 0px 0px 5px threshold 0\nio l top - root - margin scroll -60px 0px threshold 0\nio-observe i t\nio-observe i w\nio-observe j w\nio-observe k w\nio-observe l w\ntick 0\nscroll s 0px 30px\ntick 16\n",
        "tick 0\nintersect i t 0 no 0/8192000 root 0 0 800 600 box 10 80 200 10 cut 0 0 0 0\nintersect i w 0 yes 16384000/16384000 root 0 0 800 600 box 10 120 200 20 cut 10 120 200 20\nintersect j w 0 yes 0/16384000 root 0 0 220 120 box 10 120 200 20 cut 10 120 200 0\nintersect k w 0 yes 4096000/16384000 root 0 0 800 600 box 10 120 200 20 cut 10 120 200 5\nintersect l w 0 no 0/16384000 root 0 0 800 600 box 10 120 200 20 cut 0 0 0 0\ntick 16\nevent scroll s\n",
    ),
    // A last line without a line feed: nothing but the head.
    ("script 1", ""),
    // A last line that is cut within a name.
    ("script 1\nblock r to", "throw 2 ReferenceError\n"),
    // A last line that is cut behind its number.
    (
        "script 1\nblock r top\nappend top r\nro o top -\nro-observe o r content\ntick 0",
        "tick 0\nresize o r rect 0 0 800 0 border 800 0\nround top 1\n",
    ),
    // Two ticks after a change of the viewport: one event.
    (
        "script 1\ntick 0\nviewport 500px 600px\ntick 16\ntick 32\n",
        "tick 0\ntick 16\nevent resize @top\ntick 32\n",
    ),
    // What waits for a tick, in the order in which it is called: timers, a resized viewport, a query list, frame callbacks, tasks. A
    // throw ends its handler alone.
    (
        "script 1\nhandler ht\nsay timer\nraf top f hf\nraf top f hf\nsay after\nend\nhandler hf\nsay frame\npost top hp\nend\nhandler hr\nsay resized\nunlisten @top resize hr\nend\nhandler hp\nsay task\nend\nhandler hm\nsay media\nend\nmedia m top (min-width: 600px)\nlisten m change hm\nlisten @top resize hr\ntimer top k 10 ht\ntimer top j 5 hp\ntick 0\nviewport 500px 600px\ntick 10\nviewport 700px 600px\ntick 20\n",
        "tick 0\ntick 10\ntimer top j\nsay task\ntimer top k\nsay timer\nthrow 5 TypeError\nevent resize @top\nsay resized\nevent change m false\nsay media\nframe top f\nsay frame\ntask top hp\nsay task\ntick 20\nevent resize @top\nevent change m true\nsay media\n",
    ),
    // A handler makes its target less wide, twice, so that an observation is left over each time.
    (
        "script 1\nhandler shrink\neach\nwhen wider $target 100px\ngrow $target width -150px\nend\nwhen not attached $target\nsay away\nend\nend\nend\nhandler late\nsay late\nend\nblock r top\nappend top r\nblock b top\nappend r b\nset b width 300px\nro o top shrink\nro-observe o b content\nlisten @top error late\ntick 0\ntick 16\nremove b\ntick 32\n",
        "tick 0\nresize o b rect 0 0 300 0 border 300 0\nround top 2\nevent error @top ResizeObserver loop completed with undelivered notifications.\nsay late\ntick 16\nresize o b rect 0 0 150 0 border 150 0\nround top 2\nevent error @top ResizeObserver loop completed with undelivered notifications.\nsay late\ntick 32\nresize o b rect 0 0 0 0 border 0 0\nsay away\nround top 1\n",
    ),
    // Two observers, of which one's handler changes what the other observes and its own target.
    (
        "script 1\nhandler deeper\nset c width 40px\nset r width 90px\nend\nblock r top\nappend top r\nblock c top\nappend r c\nset r height 10px\nset c height 5px\nro o top deeper\nro-observe o r content\nro p top -\nro-observe p c border\ntick 0\nro-unobserve o r\nset r width 80px\ntick 1\nro-disconnect p\nset c width 20px\ntick 2\n",
        "tick 0\nresize o r rect 0 0 800 10 border 800 10\nresize p c rect 0 0 40 5 border 40 5\nround top 1\nevent error @top ResizeObserver loop completed with undelivered notifications.\ntick 1\ntick 2\n",
    ),
    // Observers of two documents whose roots are the viewport, the frame's document and an element: each update looks at those whose root is
    // of its document, and what isn't news isn't told again.
    (
        "script 1\nblock r top\nblock a top\nframe f top d\nappend top r\nappend r a\nappend r f\nset a height 50px\nio o0 top - root - margin threshold 0\nio o1 top - root d margin threshold 0\nio o2 d - root r margin threshold 0\nio-observe o0 a\nio-observe o1 a\nio-observe o2 a\nio-observe o2 r\ntick 16\ntick 32\nset a display none\ntick 64\nremove r\ntick 80\n",
        "tick 16\nintersect o0 a 16 yes 163840000/163840000 root 0 0 800 600 box 0 0 800 50 cut 0 0 800 50\nintersect o2 a 16 yes 163840000/163840000 root 0 0 800 200 box 0 0 800 50 cut 0 0 800 50\nintersect o2 r 16 no 0/1 root 0 0 800 200 box 0 0 0 0 cut 0 0 0 0\nintersect o1 a 16 no 0/1 root 0 0 300 150 box 0 0 0 0 cut 0 0 0 0\ntick 32\ntick 64\nintersect o0 a 64 no 0/1 root 0 0 800 600 box 0 0 0 0 cut 0 0 0 0\nintersect o2 a 64 no 0/1 root 0 0 800 150 box 0 0 0 0 cut 0 0 0 0\ntick 80\n",
    ),
];

/// Texts that are no scripts, and what is written of each.
pub(crate) const REFUSED: [(&str, &str); 21] = [
    ("", "syntax 1 1\n"),
    ("script 1\nwhen wider a 5\n", "syntax 2 14\n"),
    ("script 1\nmedia m top (width: 5)\n", "syntax 2 22\n"),
    ("script 1\nset a colour red\n", "syntax 2 7\n"),
    ("script 1\nhandler h\ntick 0\nend\n", "syntax 3 1\n"),
    ("script 1\nhandler h\n", "syntax 3 1\n"),
    (
        "script 1\nblock r top\nappend top r\nro o top -\nro-observe o",
        "syntax 5 13\n",
    ),
    ("script", "syntax 1 7\n"),
    ("script 1\nblo", "syntax 2 1\n"),
    ("script 1\nblock r top\nappend top", "syntax 3 11\n"),
    (
        "script 1\nblock r top\nappend top r\nro o top",
        "syntax 4 9\n",
    ),
    (
        "script 1\nblock r top\nappend top r\nro o top -\nro-observe o r con",
        "syntax 5 16\n",
    ),
    (
        "script 1\nblock r top\nappend top r\nro o top -\nro-observe o r content\ntick",
        "syntax 6 5\n",
    ),
    ("script 3\n", "syntax 1 8\n"),
    ("script 2\nblock r top\nratio 1\n", "syntax 3 7\n"),
    ("script 2\nratio 10000.01%\n", "syntax 2 7\n"),
    ("script 2\nro-observe o r devic\n", "syntax 2 16\n"),
    (
        "script 2\nio i top - root - margin 1px scroll 1px scroll 1px threshold\n",
        "syntax 2 41\n",
    ),
    (
        "script 1\nblock r top\nappend top r\nset r width 10.5px\nset r height 3px\nratio 150%\nro o top -\nro-observe o r device\ntick 0\nratio 200%\ntick 16\n",
        "syntax 6 1\n",
    ),
    ("script 1\nro-observe o r device\n", "syntax 2 16\n"),
    (
        "script 2\nio i top - root - scroll 1px threshold\n",
        "syntax 2 19\n",
    ),
];

/// A handler that makes its own target higher: each tick ends with the loop error.
pub(crate) const GROWING: (&str, &str) = (
    "script 1\nhandler more\ngrow c height 1px\nend\nblock r top\nappend top r\nblock p top\nappend r p\nblock c top\nset c height 10px\nappend p c\nro o top more\nro-observe o p content\nro-observe o c content\ntick 0\ntick 16\n",
    "tick 0\nresize o p rect 0 0 800 10 border 800 10\nresize o c rect 0 0 800 10 border 800 10\nround top 2\nresize o c rect 0 0 800 11 border 800 11\nround top 3\nevent error @top ResizeObserver loop completed with undelivered notifications.\ntick 16\nresize o p rect 0 0 800 12 border 800 12\nresize o c rect 0 0 800 12 border 800 12\nround top 2\nresize o c rect 0 0 800 13 border 800 13\nround top 3\nevent error @top ResizeObserver loop completed with undelivered notifications.\n",
);

/// A page with one block that an observer observes, and one tick.
pub(crate) const PAGE: &str =
    "script 1\nblock r top\nappend top r\nro o top -\nro-observe o r content\ntick 0\n";

/// What it writes.
pub(crate) const TOLD: &str = "tick 0\nresize o r rect 0 0 800 0 border 800 0\nround top 1\n";

/// Two handlers whose commands make the depth of the rounds fall for ever, until a run may begin no further command.
pub(crate) const ENDLESS: &str =
    "script 1\nhandler ha\ngrow x height 1px\nremove y\nend\nhandler hb\nappend z y\nend\nblock r top\nappend top r\nblock x top\nset x height 10px\nappend r x\nblock z top\nappend r z\nblock y top\nset y height 10px\nappend z y\nro a top ha\nro-observe a x content\nro b top hb\nro-observe b y content\ntick 0\n";

/// A line with a number in it, which a script may have so many times.
pub(crate) struct Numbered {
    /// What stands once, before all of them.
    pub(crate) first: &'static str,
    /// The line up to its number.
    pub(crate) before: &'static str,
    /// The line behind its number.
    pub(crate) after: &'static str,
    pub(crate) most: u32,
    /// What is written of one more.
    pub(crate) told: &'static str,
}

/// A line each for the limits on what a script may make, with their numbers of `docs/SCRIPT.md`.
pub(crate) const NUMBERED: [Numbered; 9] = [
    Numbered {
        first: "script 1\n",
        before: "handler h",
        after: "\nend\n",
        most: 4096,
        told: "limit handlers 8194 4096\n",
    },
    Numbered {
        first: "script 1\n",
        before: "block b",
        after: " top\n",
        most: 20_000,
        told: "limit nodes 20002 20000\n",
    },
    Numbered {
        first: "script 2\n",
        before: "block b",
        after: " top\n",
        most: 40_000,
        told: "limit nodes 40002 40000\n",
    },
    Numbered {
        first: "script 1\n",
        before: "ro o",
        after: " top -\n",
        most: 4096,
        told: "limit resize-observers 4098 4096\n",
    },
    Numbered {
        first: "script 1\n",
        before: "io o",
        after: " top - root - margin threshold\n",
        most: 4096,
        told: "limit intersection-observers 4098 4096\n",
    },
    Numbered {
        first: "script 1\nhandler h\nend\n",
        before: "timer top t",
        after: " 1 h\n",
        most: 4096,
        told: "limit timers 4100 4096\n",
    },
    Numbered {
        first: "script 1\nhandler h\nend\n",
        before: "raf top f",
        after: " h\n",
        most: 4096,
        told: "limit frame-callbacks 4100 4096\n",
    },
    Numbered {
        first: "script 1\nhandler h\nend\n",
        before: "post top h #",
        after: "\n",
        most: 4096,
        told: "limit tasks 4100 4096\n",
    },
    Numbered {
        first: "script 1\n",
        before: "media m",
        after: " top all\n",
        most: 4096,
        told: "limit queries 4098 4096\n",
    },
];

/// The words that make an observer and have it observe, around their numbers.
pub(crate) struct Observing {
    pub(crate) make: &'static str,
    pub(crate) made: &'static str,
    pub(crate) observe: &'static str,
    pub(crate) observed: &'static str,
    /// What is written of one more observation than the limit in the first version, behind 16,667 blocks and three observers.
    pub(crate) told: &'static str,
    /// The same in the second version, behind 33,334 blocks.
    pub(crate) told_by_second: &'static str,
}

/// Both kinds of observers.
pub(crate) const OBSERVING: [Observing; 2] = [
    Observing {
        make: "ro o",
        made: " top -\n",
        observe: "ro-observe o",
        observed: " content\n",
        told: "limit resize-observations 66672 50000\n",
        told_by_second: "limit resize-observations 133339 100000\n",
    },
    Observing {
        make: "io o",
        made: " top - root - margin threshold\n",
        observe: "io-observe o",
        observed: "\n",
        told: "limit intersection-observations 66672 50000\n",
        told_by_second: "limit intersection-observations 133339 100000\n",
    },
];
