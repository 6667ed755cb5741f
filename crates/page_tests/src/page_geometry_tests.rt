//! Findings on a page with scrollers and a frame, with the numbers that an independent program for the same rules gives.

ghost use Rattle.std.specs.Prelude.{◌≡◌, ◌<◌, IfOk};
ghost use Rattle.clip_chain.specs.Chains.{IsAbove};
ghost use Rattle.clip_chain.specs.Worlds.{element_spot, spot_of_root};
ghost use Rattle.intersection_observer.specs.Places.{IsStanding};
ghost use Rattle.intersection_observer.specs.Seen.{seen_root};
ghost use Rattle.candidate_index.specs.Registrations.{IfChained, IsReady};
ghost use Rattle.page_boxes.specs.Fresh.{IsFresh};
ghost use Rattle.page_boxes.specs.Pages.{seen_screen, IsScreen};

use crate::common::{SCREEN, all_boxes, make_elements, put, remove, set, watch};
use crate::same::same;
use candidate_index::{Index, Scene, Standing, spot_of_root};
use clip_chain::{Through, reaches};
use element_tree::{Container, DocumentId, NodeId};
use intersection_observer::{Finding, RegistrationId, Root, WatcherId, Watchers};
use kept_clips::Clips;
use kept_findings::Tells;
use kept_layout::Kept;
use page_boxes::Screen;
use page_geometry::Shown;
use page_tree::PageTree;
use px_units::{Point, Rect};
use scrolling::{Outcome, Scrolls};
use std::alloc::Global;
use std::marker::Brand;
use std::process::Abort;
use std::sync::ledger::{Blank, Ledger};
use std::test::Fail;
use step_count::Steps;
use text_io::Version;
use thresholds::Margins;

/// Where an element is put. All are made in `top`, and 1 is the frame of document 1.
type Place = (Container, u32);

type Style = (u32, &'static str, &'static str);

/// The root and root margin of an observer.
type Watched = (Root, &'static str);

const PLACES: [Place; 9] = [
    (Container::Document(DocumentId(0)), 0),
    (Container::Element(NodeId(0)), 2),
    (Container::Element(NodeId(2)), 3),
    (Container::Element(NodeId(2)), 1),
    (Container::Element(NodeId(2)), 4),
    (Container::Element(NodeId(0)), 8),
    (Container::Document(DocumentId(1)), 5),
    (Container::Element(NodeId(5)), 6),
    (Container::Element(NodeId(6)), 7),
];

const STYLES: [Style; 25] = [
    (0, "padding", "5px"),
    (0, "border", "1px"),
    (2, "width", "300px"),
    (2, "height", "200px"),
    (2, "padding", "4px"),
    (2, "border", "2px"),
    (2, "overflow", "scroll"),
    (3, "height", "100px"),
    (1, "width", "200px"),
    (1, "height", "150px"),
    (1, "padding", "3px"),
    (1, "border", "2px"),
    (1, "margin-left", "10px"),
    (4, "height", "400px"),
    (5, "margin", "4px"),
    (6, "height", "80px"),
    (6, "width", "90%"),
    (6, "padding", "3px"),
    (6, "border", "1px"),
    (6, "margin-top", "30px"),
    (6, "overflow", "hidden"),
    (7, "height", "120px"),
    (7, "width", "50%"),
    (7, "margin-top", "10px"),
    (8, "display", "none"),
];

/// No page here has more elements, and none more observers, of which each observes all elements.
const ELEMENTS: u32 = 9;

const MOST_WATCHERS: u32 = 6;

const WATCHED: [Watched; 6] = [
    (Root::Implicit, ""),
    (Root::Document(DocumentId(1)), "10px 0px"),
    (Root::Node(NodeId(6)), "-10px"),
    (Root::Node(NodeId(5)), "5%"),
    (Root::Node(NodeId(2)), ""),
    (Root::Node(NodeId(0)), "-10%"),
];

const THRESHOLDS: [i64; 4] = [0, 2500, 5000, 10000];

/// The left, top, right and bottom edges.
type Edges = (i64, i64, i64, i64);

/// What is done to the page, or what is found, in 1/64 pixel.
#[derive(Clone, Copy)]
enum Step {
    /// An element is scrolled downwards from where it was to a position, as far as it can be.
    Scroll(u32, i64),
    /// The viewport of a document is.
    ScrollView(u32, i64),
    Set(u32, &'static str, &'static str),
    Remove(u32),
    /// Of an observer and a target: the index and whether they meet, the part and the whole, and the edges of the root
    /// rectangle, of the target's box and of what is seen of it.
    Find(u32, u32, (u32, bool), (u128, u128), [Edges; 3]),
}

const STEPS: [Step; 32] = [
    Step::Find(
        0,
        7,
        (2, true),
        (18046656, 42462720),
        [
            (0, 0, 51200, 38400),
            (512, 3072, 6041, 10752),
            (512, 3072, 6041, 6336),
        ],
    ),
    Step::Find(
        0,
        1,
        (3, true),
        (89456640, 137625600),
        [
            (0, 0, 51200, 38400),
            (1408, 7168, 14848, 17408),
            (1408, 7168, 14848, 13824),
        ],
    ),
    Step::Find(
        0,
        8,
        (1, false),
        (0, 1),
        [(0, 0, 51200, 38400), (0, 0, 0, 0), (0, 0, 0, 0)],
    ),
    Step::Find(
        0,
        4,
        (1, false),
        (0, 491520000),
        [
            (0, 0, 51200, 38400),
            (768, 17408, 19968, 43008),
            (0, 0, 0, 0),
        ],
    ),
    Step::Find(
        1,
        7,
        (3, true),
        (25831488, 42462720),
        [
            (0, -640, 12800, 10240),
            (512, 3072, 6041, 10752),
            (512, 3072, 6041, 7744),
        ],
    ),
    Step::Find(
        1,
        1,
        (0, false),
        (0, 1),
        [(0, -640, 12800, 10240), (0, 0, 0, 0), (0, 0, 0, 0)],
    ),
    Step::Find(
        2,
        7,
        (2, true),
        (20486592, 42462720),
        [
            (960, 2880, 11123, 7104),
            (512, 3072, 6041, 10752),
            (960, 3072, 6041, 7104),
        ],
    ),
    Step::Find(
        2,
        4,
        (0, false),
        (0, 1),
        [(960, 2880, 11123, 7104), (0, 0, 0, 0), (0, 0, 0, 0)],
    ),
    Step::Find(
        3,
        7,
        (3, true),
        (25831488, 42462720),
        [
            (-358, -358, 13158, 8422),
            (512, 3072, 6041, 10752),
            (512, 3072, 6041, 7744),
        ],
    ),
    Step::Find(
        4,
        7,
        (0, false),
        (0, 1),
        [(512, 512, 20224, 13824), (0, 0, 0, 0), (0, 0, 0, 0)],
    ),
    Step::Find(
        4,
        1,
        (3, true),
        (89456640, 137625600),
        [
            (512, 512, 20224, 13824),
            (1408, 7168, 14848, 17408),
            (1408, 7168, 14848, 13824),
        ],
    ),
    Step::Find(
        4,
        8,
        (0, false),
        (0, 1),
        [(512, 512, 20224, 13824), (0, 0, 0, 0), (0, 0, 0, 0)],
    ),
    Step::Find(
        4,
        2,
        (0, false),
        (0, 1),
        [(512, 512, 20224, 13824), (0, 0, 0, 0), (0, 0, 0, 0)],
    ),
    Step::Find(
        5,
        1,
        (1, true),
        (19922944, 137625600),
        [
            (5120, 5120, 46080, 9216),
            (1408, 7168, 14848, 17408),
            (5120, 7168, 14848, 9216),
        ],
    ),
    Step::Find(
        5,
        2,
        (1, true),
        (62390272, 270925824),
        [
            (5120, 5120, 46080, 9216),
            (384, 384, 20352, 13952),
            (5120, 5120, 20352, 9216),
        ],
    ),
    Step::Scroll(2, 3840),
    Step::Scroll(6, 3200),
    Step::Find(
        0,
        7,
        (3, true),
        (30431616, 42462720),
        [
            (0, 0, 51200, 38400),
            (512, 64, 6041, 7744),
            (512, 2240, 6041, 7744),
        ],
    ),
    Step::Find(
        0,
        4,
        (1, true),
        (4915200, 491520000),
        [
            (0, 0, 51200, 38400),
            (768, 13568, 19968, 39168),
            (768, 13568, 19968, 13824),
        ],
    ),
    Step::Find(
        2,
        7,
        (3, true),
        (21462144, 42462720),
        [
            (960, 2880, 11123, 7104),
            (512, 64, 6041, 7744),
            (960, 2880, 6041, 7104),
        ],
    ),
    Step::Find(
        4,
        1,
        (4, true),
        (137625600, 137625600),
        [
            (512, 512, 20224, 13824),
            (1408, 3328, 14848, 13568),
            (1408, 3328, 14848, 13568),
        ],
    ),
    Step::Find(
        5,
        1,
        (2, true),
        (39845888, 137625600),
        [
            (5120, 5120, 46080, 9216),
            (1408, 3328, 14848, 13568),
            (5120, 5120, 14848, 9216),
        ],
    ),
    Step::Set(6, "overflow", "visible"),
    Step::Find(
        0,
        7,
        (3, true),
        (36093312, 42462720),
        [
            (0, 0, 51200, 38400),
            (512, 3072, 6041, 10752),
            (512, 3072, 6041, 9600),
        ],
    ),
    Step::Find(
        2,
        7,
        (2, true),
        (21073920, 42462720),
        [
            (896, 2816, 11187, 7168),
            (512, 3072, 6041, 10752),
            (896, 3072, 6041, 7168),
        ],
    ),
    Step::Find(
        3,
        7,
        (3, true),
        (29580150, 42462720),
        [
            (-358, -358, 13158, 8422),
            (512, 3072, 6041, 10752),
            (512, 3072, 6041, 8422),
        ],
    ),
    Step::Remove(2),
    Step::Find(
        0,
        7,
        (1, false),
        (0, 1),
        [(0, 0, 51200, 38400), (0, 0, 0, 0), (0, 0, 0, 0)],
    ),
    Step::Find(
        1,
        7,
        (1, false),
        (0, 1),
        [(0, -640, 0, 640), (0, 0, 0, 0), (0, 0, 0, 0)],
    ),
    Step::Find(
        2,
        7,
        (0, false),
        (0, 1),
        [(640, 640, -640, -640), (0, 0, 0, 0), (0, 0, 0, 0)],
    ),
    Step::Find(
        4,
        1,
        (0, false),
        (0, 1),
        [(0, 0, 0, 0), (0, 0, 0, 0), (0, 0, 0, 0)],
    ),
    Step::Find(
        5,
        4,
        (0, false),
        (0, 1),
        [(5120, 5120, 46080, -4352), (0, 0, 0, 0), (0, 0, 0, 0)],
    ),
];

fn place_and_style(rt: &impl Abort, page: &mut PageTree, places: &[Place], styles: &[Style]) {
    for (container, node) in places {
        put(rt, page, *container, *node);
    }
    for (node, property, value) in styles {
        set(rt, page, *node, property, value);
    }
}

fn page_of(rt: &impl Abort, alloc: Global) -> Result<PageTree, Fail> {
    let mut page = PageTree::new(alloc, Version::First)?;
    make_elements(rt, &mut page, 9, &[1])?;
    place_and_style(rt, &mut page, &PLACES, &STYLES);
    Ok(page)
}

fn observe(
    rt: &impl Abort,
    watchers: &mut Watchers,
    watcher: u32,
    target: u32,
) -> Result<(), Fail> {
    assert!(rt; watcher < watchers.count());
    let next = watchers
        .next_registration(WatcherId(watcher), NodeId(target))?
        .expect(rt, "a registration");
    assert!(rt; next.0 < u64::MAX);
    watchers.observe(WatcherId(watcher), NodeId(target))?;
    Ok(())
}

// Lets an observer observe all elements in order.
fn observe_all(rt: &impl Abort, watchers: &mut Watchers, watcher: u32) -> Result<(), Fail> {
    for target in 0..ELEMENTS {
        observe(rt, watchers, watcher, target)?;
    }
    Ok(())
}

fn watch_all(
    rt: &impl Abort,
    alloc: Global,
    watchers: &mut Watchers,
    watched: &[Watched],
) -> Result<(), Fail> {
    for (root, margins) in watched {
        let watcher = watchers.count();
        watch(alloc, watchers, DocumentId(0), *root, margins, &THRESHOLDS)?;
        observe_all(rt, watchers, watcher)?;
    }
    Ok(())
}

fn watchers_of(rt: &impl Abort, alloc: Global, watched: &[Watched]) -> Result<Watchers, Fail> {
    let mut watchers = Watchers::new(alloc, MOST_WATCHERS, MOST_WATCHERS * ELEMENTS);
    watch_all(rt, alloc, &mut watchers, watched)?;
    Ok(watchers)
}

fn scroll_over(
    rt: &impl Abort,
    page: &PageTree,
    boxes: &Kept,
    scrolls: &mut Scrolls,
    screen: Screen,
    target: Container,
    down: i64,
) -> Result<(), Fail>
    requires screen { IsScreen screen }
    requires fresh { IsFresh page.now.tree (seen_screen screen) boxes.now }
{
    let range = Shown::new(page, boxes, scrolls, screen).range_of(target);
    let outcome = scrolls.scroll_to(DocumentId(0), target, Point { left: 0, top: down }, range)?;
    assert_eq!(rt; outcome, Outcome::Moved, "{down}");
    Ok(())
}

fn scroll(
    rt: &impl Abort,
    alloc: Global,
    page: &PageTree,
    scrolls: &mut Scrolls,
    target: Container,
    down: i64,
) -> Result<(), Fail> {
    let boxes = all_boxes(rt, alloc, page, SCREEN)?;
    scroll_over(rt, page, &boxes, scrolls, SCREEN, target, down)
}

fn edges_of(rect: Rect) -> Edges {
    (rect.left, rect.top, rect.right, rect.bottom)
}

// Asks whether the chain leads from a target to a root wherever it is to, which `Index::recompute` takes for granted: what is found then
// is compared in `compare`.
fn ask_chain<S: Scene>(rt: &impl Abort, scene: &S, root: Root, target: NodeId)
    ensures { IfChained (S.standings scene.now (seen_root root) target.0) (IsAbove (S.scene scene.now) (spot_of_root (seen_root root)) (element_spot target.0)) }
{
    match scene.standing(root, target) {
        Standing::Chained => {
            assert!(rt; reaches(scene, Container::Element(target), spot_of_root(root)))
        }
        Standing::Apart | Standing::NoBox => {}
    }
}

// Clips with the pair of a registration, of which none is computed yet.
fn clips_for<S: Scene>(
    rt: &impl Abort,
    alloc: Global,
    scene: &S,
    watchers: &Watchers,
    registration: RegistrationId,
) -> Result<Clips, Fail>
    requires { IsStanding registration.0 watchers.now.part }
    ensures { IfOk result (λ clips. IsReady (S.scene scene.now) (S.standings scene.now) watchers.now.part clips registration.0) }
{
    let root = watchers.root_of(watchers.watcher_of(registration));
    let target = watchers.target_of(registration);
    ask_chain(rt, scene, root, target);
    let mut clips = Clips::new(alloc);
    assert!(rt; clips.pair(registration.0).is_none());
    clips.hold(
        registration.0,
        spot_of_root(root),
        Container::Element(target),
    )?;
    let pair = clips.pair(registration.0).expect(rt, "a pair");
    assert!(rt; pair.root == spot_of_root(root));
    assert!(rt; pair.of == Container::Element(target));
    Ok(clips)
}

// What is found of a registration anew, as it is told.
fn find_anew<L: Ledger>(
    blank: Blank,
    rt: &impl Abort,
    alloc: Global,
    shown: &Shown<'_>,
    watchers: &Watchers,
    registration: RegistrationId,
    scroll: &Margins,
) -> Result<Finding, Fail>
    requires name { blank.name ≡ L.name }
    requires parts { blank.parts ≡ L.parts }
    requires one_part { 0 < blank.parts }
    requires standing { IsStanding registration.0 watchers.now.part }
{
    let root = watchers.root_of(watchers.watcher_of(registration));
    let view = Through {
        geometry: shown,
        root: spot_of_root(root),
        margins: *scroll,
    };
    let mut clips = clips_for(rt, alloc, &view, watchers, registration)?;
    let mut index = Index::new(alloc);
    index.add(registration)?;
    assert!(rt; index.is_added(registration));
    let mut steps = Steps::<L>::new(blank);
    let found = index.recompute(&view, &mut clips, watchers, registration, &mut steps);
    Ok(shown.told(root, watchers.target_of(registration), found))
}

fn find_over(
    rt: &impl Abort,
    alloc: Global,
    shown: &Shown<'_>,
    watchers: &Watchers,
    watcher: u32,
    scroll: &Margins,
    target: u32,
) -> Result<Finding, Fail> {
    assert!(rt; watcher < watchers.count());
    let registrations = watchers.registrations(WatcherId(watcher));
    assert!(rt; (target as usize) < registrations.len());
    let registration = registrations[target as usize];
    find_anew::<Brand>(
        Blank::new(1),
        rt,
        alloc,
        shown,
        watchers,
        registration,
        scroll,
    )
}

fn found(
    rt: &impl Abort,
    alloc: Global,
    page: &PageTree,
    scrolls: &Scrolls,
    watchers: &Watchers,
    watcher: u32,
    scroll: &Margins,
    target: u32,
) -> Result<Finding, Fail> {
    let boxes = all_boxes(rt, alloc, page, SCREEN)?;
    let shown = Shown::new(page, &boxes, scrolls, SCREEN);
    find_over(rt, alloc, &shown, watchers, watcher, scroll, target)
}

fn compare(
    rt: &impl Abort,
    found: Finding,
    counts: (u32, bool),
    areas: (u128, u128),
    edges: [Edges; 3],
) {
    let [root, target, cut] = edges;
    same(
        rt,
        &(found.index, found.meets),
        &counts,
        "index, and whether they meet",
    );
    same(
        rt,
        &(found.ratio.part, found.ratio.whole),
        &areas,
        "part and whole",
    );
    same(rt, &edges_of(found.root), &root, "the root");
    same(rt, &edges_of(found.target), &target, "the target");
    same(rt, &edges_of(found.cut), &cut, "the cut");
}

fn take_step(
    rt: &impl Abort,
    alloc: Global,
    page: &mut PageTree,
    scrolls: &mut Scrolls,
    watchers: &Watchers,
    step: Step,
) -> Result<(), Fail> {
    match step {
        Step::Scroll(node, down) => {
            let target = Container::Element(NodeId(node));
            scroll(rt, alloc, page, scrolls, target, down)?;
        }
        Step::ScrollView(document, down) => {
            let target = Container::Document(DocumentId(document));
            scroll(rt, alloc, page, scrolls, target, down)?;
        }
        Step::Set(node, property, value) => set(rt, page, node, property, value),
        Step::Remove(node) => remove(rt, page, node),
        Step::Find(watcher, target, counts, areas, edges) => {
            let none = Margins::parse(b"")?;
            let it = found(rt, alloc, page, scrolls, watchers, watcher, &none, target)?;
            compare(rt, it, counts, areas, edges);
        }
    }
    Ok(())
}

fn take_steps(
    rt: &impl Abort,
    alloc: Global,
    page: &mut PageTree,
    scrolls: &mut Scrolls,
    watchers: &Watchers,
    steps: &[Step],
) -> Result<(), Fail> {
    for step in steps {
        take_step(rt, alloc, page, scrolls, watchers, *step)?;
    }
    Ok(())
}

fn follow(
    rt: &impl Abort,
    alloc: Global,
    page: &mut PageTree,
    watched: &[Watched],
    steps: &[Step],
) -> Result<(), Fail> {
    let watchers = watchers_of(rt, alloc, watched)?;
    let mut scrolls = Scrolls::new(alloc);
    take_steps(rt, alloc, page, &mut scrolls, &watchers, steps)
}

#[test]
fn targets_are_found_as_they_are(rt: HostRuntime) -> Result<(), Fail> {
    let mut page = page_of(&rt, rt.alloc())?;
    follow(&rt, rt.alloc(), &mut page, &WATCHED, &STEPS)
}

/// In the frame: 3 clips, and in it stand an absolute box, 4, a fixed one, 5, and a relative one, 6.
const HELD_PLACES: [Place; 8] = [
    (Container::Document(DocumentId(0)), 0),
    (Container::Element(NodeId(0)), 1),
    (Container::Document(DocumentId(1)), 2),
    (Container::Element(NodeId(2)), 3),
    (Container::Element(NodeId(3)), 4),
    (Container::Element(NodeId(3)), 5),
    (Container::Element(NodeId(3)), 6),
    (Container::Element(NodeId(2)), 7),
];

const HELD_STYLES: [Style; 20] = [
    (1, "width", "200px"),
    (1, "height", "150px"),
    (1, "border", "2px"),
    (1, "margin-left", "10px"),
    (3, "height", "50px"),
    (3, "overflow", "hidden"),
    (4, "position", "absolute"),
    (4, "top", "100px"),
    (4, "width", "300px"),
    (4, "height", "80px"),
    (5, "position", "fixed"),
    (5, "top", "120px"),
    (5, "right", "10px"),
    (5, "width", "40px"),
    (5, "height", "60px"),
    (6, "position", "relative"),
    (6, "top", "20px"),
    (6, "left", "-5px"),
    (6, "height", "40px"),
    (7, "height", "1000px"),
];

const HELD_WATCHED: [Watched; 4] = [
    (Root::Implicit, ""),
    (Root::Document(DocumentId(1)), ""),
    (Root::Node(NodeId(3)), ""),
    (Root::Node(NodeId(2)), ""),
];

const HELD_STEPS: [Step; 15] = [
    // 3 clips what it holds, and the viewport of the frame's document all
    Step::Find(
        0,
        4,
        (2, true),
        (40960000, 98304000),
        [
            (0, 0, 51200, 38400),
            (0, 6400, 19200, 11520),
            (0, 6400, 12800, 9600),
        ],
    ),
    Step::Find(
        0,
        5,
        (3, true),
        (4915200, 9830400),
        [
            (0, 0, 51200, 38400),
            (9600, 7680, 12160, 11520),
            (9600, 7680, 12160, 9600),
        ],
    ),
    Step::Find(
        0,
        6,
        (3, true),
        (23961600, 32768000),
        [
            (0, 0, 51200, 38400),
            (-320, 1280, 12480, 3840),
            (0, 1280, 12480, 3200),
        ],
    ),
    Step::Find(
        1,
        4,
        (2, true),
        (40960000, 98304000),
        [
            (0, 0, 12800, 9600),
            (0, 6400, 19200, 11520),
            (0, 6400, 12800, 9600),
        ],
    ),
    Step::Find(
        1,
        5,
        (3, true),
        (4915200, 9830400),
        [
            (0, 0, 12800, 9600),
            (9600, 7680, 12160, 11520),
            (9600, 7680, 12160, 9600),
        ],
    ),
    // an ancestor that doesn't hold a box is no root of it
    Step::Find(
        2,
        4,
        (0, false),
        (0, 1),
        [(0, 0, 12800, 3200), (0, 0, 0, 0), (0, 0, 0, 0)],
    ),
    Step::Find(
        2,
        5,
        (0, false),
        (0, 1),
        [(0, 0, 12800, 3200), (0, 0, 0, 0), (0, 0, 0, 0)],
    ),
    Step::Find(
        2,
        6,
        (3, true),
        (23961600, 32768000),
        [
            (0, 0, 12800, 3200),
            (-320, 1280, 12480, 3840),
            (0, 1280, 12480, 3200),
        ],
    ),
    Step::Find(
        3,
        4,
        (0, false),
        (0, 1),
        [(0, 0, 12800, 67200), (0, 0, 0, 0), (0, 0, 0, 0)],
    ),
    Step::ScrollView(1, 3840),
    Step::Set(3, "position", "relative"),
    Step::Find(
        0,
        4,
        (1, false),
        (0, 98304000),
        [(0, 0, 51200, 38400), (0, 2560, 19200, 7680), (0, 0, 0, 0)],
    ),
    Step::Find(
        0,
        5,
        (3, true),
        (4915200, 9830400),
        [
            (0, 0, 51200, 38400),
            (9600, 7680, 12160, 11520),
            (9600, 7680, 12160, 9600),
        ],
    ),
    Step::Find(
        2,
        4,
        (1, false),
        (0, 98304000),
        [
            (0, -3840, 12800, -640),
            (0, 2560, 19200, 7680),
            (0, 0, 0, 0),
        ],
    ),
    Step::Find(
        2,
        5,
        (0, false),
        (0, 1),
        [(0, -3840, 12800, -640), (0, 0, 0, 0), (0, 0, 0, 0)],
    ),
];

#[test]
fn boxes_are_clipped_by_what_holds_them(rt: HostRuntime) -> Result<(), Fail> {
    let mut page = PageTree::new(rt.alloc(), Version::Second)?;
    make_elements(&rt, &mut page, 8, &[1])?;
    place_and_style(&rt, &mut page, &HELD_PLACES, &HELD_STYLES);
    follow(&rt, rt.alloc(), &mut page, &HELD_WATCHED, &HELD_STEPS)
}

/// Scroll margins, an observer and a target, and what is found as in `Step::Find`.
type MarginRow = (
    &'static str,
    u32,
    u32,
    (u32, bool),
    (u128, u128),
    [Edges; 3],
);

const THROUGH: [MarginRow; 6] = [
    (
        "60px",
        0,
        4,
        (1, true),
        (4915200, 491520000),
        [
            (0, 0, 51200, 38400),
            (768, 17408, 19968, 43008),
            (768, 17408, 19968, 17664),
        ],
    ),
    (
        "100%",
        0,
        4,
        (3, true),
        (309657600, 491520000),
        [
            (0, 0, 51200, 38400),
            (768, 17408, 19968, 43008),
            (768, 17408, 19968, 33536),
        ],
    ),
    (
        "0px",
        0,
        4,
        (1, false),
        (0, 491520000),
        [
            (0, 0, 51200, 38400),
            (768, 17408, 19968, 43008),
            (0, 0, 0, 0),
        ],
    ),
    // the clip of a root stays
    (
        "50px",
        4,
        4,
        (1, false),
        (0, 491520000),
        [
            (512, 512, 20224, 13824),
            (768, 17408, 19968, 43008),
            (0, 0, 0, 0),
        ],
    ),
    (
        "-20px",
        0,
        7,
        (1, true),
        (6821376, 42462720),
        [
            (0, 0, 51200, 38400),
            (512, 3072, 6041, 10752),
            (1600, 3520, 6041, 5056),
        ],
    ),
    // and so does the viewport of a document in a frame
    (
        "30px",
        1,
        7,
        (3, true),
        (36447168, 42462720),
        [
            (0, -640, 12800, 10240),
            (512, 3072, 6041, 10752),
            (512, 3072, 6041, 9664),
        ],
    ),
];

fn see_through(
    rt: &impl Abort,
    alloc: Global,
    page: &PageTree,
    watchers: &Watchers,
    row: MarginRow,
) -> Result<(), Fail> {
    let (margins, watcher, target, counts, areas, edges) = row;
    let scroll = Margins::parse(margins.as_bytes())?;
    let scrolls = Scrolls::new(alloc);
    let it = found(
        rt, alloc, page, &scrolls, watchers, watcher, &scroll, target,
    )?;
    compare(rt, it, counts, areas, edges);
    Ok(())
}

#[test]
fn scroll_margins_move_the_clips_of_scroll_containers(rt: HostRuntime) -> Result<(), Fail> {
    let watchers = watchers_of(&rt, rt.alloc(), &WATCHED)?;
    let page = page_of(&rt, rt.alloc())?;
    for row in THROUGH {
        see_through(&rt, rt.alloc(), &page, &watchers, row)?;
    }
    Ok(())
}
