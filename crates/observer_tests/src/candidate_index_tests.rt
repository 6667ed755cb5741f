//! Registrations of a small page, which of them are stale and what is found of them, worked out by hand from its rectangles.

ghost use Rattle.std.specs.Prelude.{◌≡◌, ◌<◌, ◌+◌, length, IfOk, OnOk};
ghost use Rattle.std.specs.List.{All};
ghost use Rattle.clip_chain.specs.Worlds.{element_spot, spot_of_root};
ghost use Rattle.clip_chain.specs.Scenes.{Scene as SceneOf};
ghost use Rattle.intersection_observer.specs.Places.{IsStanding};
ghost use Rattle.candidate_index.specs.Registrations.{observer_of, target_of, serials_at, IsReady};
ghost use Rattle.observer_tests.specs.Sample.{sample, sample_standing, AreExact};

use crate::common::{Page, Sides, change_clip, change_view, node, rect};
use candidate_index::{Index, Standing, spot_of_root};
use clip_chain::reaches;
use element_tree::{Container, DocumentId, NodeId};
use intersection_observer::{Finding, RegistrationId, Root, WatcherId, Watchers};
use kept_clips::Clips;
use std::alloc::Global;
use std::marker::Brand;
use std::process::Abort;
use std::sync::ledger::{Blank, Ledger};
use std::test::Fail;
use step_count::Steps;
use thresholds::{Margins, Thresholds};

const ALL_THREE: [i64; 3] = [0, 5_000, 10_000];

const FIRST: WatcherId = WatcherId(0);

const SECOND: WatcherId = WatcherId(1);

// The registrations with their roots and targets: two of an observer of the top document, whose root is moved out by 64
// units, and one of an observer of element 1.
const REGISTRATIONS: [(u64, Container, Container); 3] = [
    (
        0,
        Container::Document(DocumentId(0)),
        Container::Element(NodeId(7)),
    ),
    (
        1,
        Container::Document(DocumentId(0)),
        Container::Element(NodeId(4)),
    ),
    (
        2,
        Container::Element(NodeId(1)),
        Container::Element(NodeId(6)),
    ),
];

// The root rectangle with its margins, and within a narrow viewport; the root of the second observer.
const WIDE: Sides = (0, 0, 928, 728);

const NARROW: Sides = (0, 0, 228, 228);

const INNER: Sides = (0, 0, 400, 400);

#[derive(Clone, Copy, Debug)]
enum Step {
    // Another clip of an element or another viewport, which are touched.
    Clip(u32, Option<Sides>),
    View(Sides),
    Box(u32, Sides),
    Stand(u32, Standing),
    // Which registrations of an observer are stale.
    Stale(WatcherId, &'static [u64]),
    // What is found of an observer's registration at a place: the index, the ratio, the root rectangle, and what is seen.
    Find(WatcherId, usize, u32, (u128, u128), Sides, Option<Sides>),
    Expire(u64),
}

const STEPS: [Step; 46] = [
    // What was never computed is stale, in order of registration.
    Step::Stale(FIRST, &[0, 1]),
    Step::Stale(SECOND, &[2]),
    Step::Find(
        FIRST,
        0,
        3,
        (10_000, 10_000),
        WIDE,
        Some((100, 100, 100, 100)),
    ),
    Step::Stale(FIRST, &[1]),
    Step::Find(FIRST, 1, 3, (20_000, 20_000), WIDE, Some((0, 0, 200, 100))),
    Step::Find(SECOND, 0, 1, (100, 100), INNER, Some((300, 300, 10, 10))),
    Step::Stale(FIRST, &[]),
    Step::Stale(SECOND, &[]),
    // A clip between two of the targets and their roots: half of 7 is left, and nothing of 6.
    Step::Clip(3, Some((100, 100, 100, 50))),
    Step::Stale(FIRST, &[0]),
    Step::Stale(SECOND, &[2]),
    Step::Find(
        FIRST,
        0,
        2,
        (5_000, 10_000),
        WIDE,
        Some((100, 100, 100, 50)),
    ),
    Step::Find(SECOND, 0, 1, (0, 100), INNER, None),
    Step::Stale(FIRST, &[]),
    Step::Stale(SECOND, &[]),
    // A clip that leaves the common part above 7 as it was, and the root rectangle of the second observer.
    Step::Clip(1, Some(INNER)),
    Step::Stale(FIRST, &[1]),
    Step::Stale(SECOND, &[]),
    Step::Find(FIRST, 1, 3, (20_000, 20_000), WIDE, Some((0, 0, 200, 100))),
    // The box of a target, and one of an element that is none.
    Step::Box(4, (350, 0, 200, 100)),
    Step::Box(5, (1, 2, 3, 4)),
    Step::Stale(FIRST, &[1]),
    Step::Find(FIRST, 1, 1, (5_000, 20_000), WIDE, Some((350, 0, 50, 100))),
    Step::Stale(FIRST, &[]),
    // The viewport is the root of the first observer alone; the edge of 7's box touches its own.
    Step::View((64, 64, 100, 100)),
    Step::Stale(FIRST, &[0, 1]),
    Step::Stale(SECOND, &[]),
    Step::Find(
        FIRST,
        0,
        2,
        (5_000, 10_000),
        NARROW,
        Some((100, 100, 100, 50)),
    ),
    Step::Find(FIRST, 1, 1, (0, 20_000), NARROW, None),
    Step::Stale(FIRST, &[]),
    // What expired counts as never computed.
    Step::Expire(1),
    Step::Stale(FIRST, &[1]),
    Step::Find(FIRST, 1, 1, (0, 20_000), NARROW, None),
    Step::Stale(FIRST, &[]),
    // A target without a box; what is above it then doesn't count.
    Step::Stand(4, Standing::NoBox),
    Step::Stale(FIRST, &[1]),
    Step::Find(FIRST, 1, 1, (0, 1), NARROW, None),
    Step::Clip(2, Some((0, 0, 1, 1))),
    Step::Stale(FIRST, &[]),
    Step::Stand(4, Standing::Chained),
    Step::Stale(FIRST, &[1]),
    // A target that isn't in the root.
    Step::Stand(6, Standing::Apart),
    Step::Stale(SECOND, &[2]),
    Step::Find(SECOND, 0, 0, (0, 1), INNER, None),
    Step::Stale(SECOND, &[]),
    Step::Stale(FIRST, &[1]),
];

fn make(
    alloc: Global,
    watchers: &mut Watchers,
    root: Root,
    margins: &[u8],
    thresholds: &[i64],
) -> Result<WatcherId, Fail>
    ensures watcher { IfOk result (λ watcher. watcher.0 ≡ length watchers.old.part.made) }
    ensures made { OnOk result (length watchers.new.part.made ≡ length watchers.old.part.made + 1) }
    ensures given { watchers.new.part.given ≡ watchers.old.part.given }
{
    let margins = Margins::parse(margins)?;
    let thresholds = Thresholds::new(alloc, thresholds)?;
    Ok(watchers.make(DocumentId(0), None, root, margins, thresholds)?)
}

// Makes two observers with their targets.
fn make_two(alloc: Global, watchers: &mut Watchers) -> Result<(), Fail>
    requires { watchers.old.part.given ≡ 0 }
{
    let first = make(alloc, watchers, Root::Implicit, b"1px", &ALL_THREE)?;
    let second = make(alloc, watchers, Root::Node(NodeId(1)), b"", &[])?;
    watchers.observe(first, NodeId(7))?;
    watchers.observe(first, NodeId(4))?;
    watchers.observe(second, NodeId(6))?;
    Ok(())
}

// The spots of an observer's root and of a target.
fn spots_of(watchers: &Watchers, registration: RegistrationId) -> (Container, Container)
    requires { IsStanding registration.0 watchers.now.part }
    ensures root { result.0 ≡ spot_of_root (observer_of watchers.now.part registration.0).root }
    ensures target { result.1 ≡ element_spot (target_of watchers.now.part registration.0) }
{
    let watcher = watchers.watcher_of(registration);
    let target = Container::Element(watchers.target_of(registration));
    (spot_of_root(watchers.root_of(watcher)), target)
}

// Makes sure that a registration's pair is there, and is that of its root and its target.
#[tactic(auto, using(crate::proofs::Samples::if_any))]
fn see_pair(
    rt: &impl Abort,
    page: &Page,
    clips: &Clips,
    watchers: &Watchers,
    registration: RegistrationId,
)
    requires standing { IsStanding registration.0 watchers.now.part }
    requires exact { AreExact (sample page.now.clips page.now.boxes page.now.view) clips.now }
    ensures { IsReady (sample page.now.clips page.now.boxes page.now.view) (λ root. sample_standing page.now.standings) watchers.now.part clips.now registration.0 }
{
    let (root, target) = spots_of(watchers, registration);
    let pair = clips.pair(registration.0).expect(rt, "a pair");
    assert!(rt; pair.root == root);
    assert!(rt; pair.of == target);
    assert!(rt; reaches(page, target, root));
}

// Makes sure of all pairs of an observer.
fn see_pairs(rt: &impl Abort, page: &Page, clips: &Clips, watchers: &Watchers, watcher: WatcherId)
    requires made { watcher.0 < length watchers.now.part.made }
    requires exact { AreExact (sample page.now.clips page.now.boxes page.now.view) clips.now }
    ensures { All (IsReady (sample page.now.clips page.now.boxes page.now.view) (λ root. sample_standing page.now.standings) watchers.now.part clips.now) (serials_at watchers.now.part watcher.0) }
{
    let registrations = watchers.registrations(watcher);
    for registration in registrations {
        see_pair(rt, page, clips, watchers, *registration);
    }
}

fn are(stale: &[RegistrationId], want: &[u64]) -> bool {
    if stale.len() != want.len() {
        return false;
    }
    for (place, number) in want.iter().enumerate() {
        if stale.get(place) != Some(&RegistrationId(*number)) {
            return false;
        }
    }
    true
}

fn ask<L: Ledger>(
    blank: Blank,
    rt: &impl Abort,
    page: &Page,
    clips: &mut Clips,
    index: &Index,
    watchers: &Watchers,
    watcher: WatcherId,
    want: &[u64],
) -> Result<bool, Fail>
    requires name { blank.name ≡ L.name }
    requires parts { blank.parts ≡ L.parts }
    requires one_part { 0 < blank.parts }
    requires exact { AreExact (sample page.now.clips page.now.boxes page.now.view) clips.old }
    ensures { AreExact (sample page.now.clips page.now.boxes page.now.view) clips.new }
{
    assert!(rt; watcher.0 < watchers.count());
    see_pairs(rt, page, clips, watchers, watcher);
    let mut steps = Steps::<L>::new(blank);
    let stale = index.stale_registrations(page, clips, watchers, watcher, &mut steps)?;
    Ok(are(stale.as_slice(), want))
}

fn find<L: Ledger>(
    blank: Blank,
    rt: &impl Abort,
    page: &Page,
    clips: &mut Clips,
    index: &mut Index,
    watchers: &Watchers,
    watcher: WatcherId,
    place: usize,
) -> Finding
    requires name { blank.name ≡ L.name }
    requires parts { blank.parts ≡ L.parts }
    requires one_part { 0 < blank.parts }
    requires exact { AreExact (sample page.now.clips page.now.boxes page.now.view) clips.old }
    ensures { AreExact (sample page.now.clips page.now.boxes page.now.view) clips.new }
{
    assert!(rt; watcher.0 < watchers.count());
    let registrations = watchers.registrations(watcher);
    assert!(rt; place < registrations.len());
    let registration = registrations[place];
    see_pair(rt, page, clips, watchers, registration);
    assert!(rt; index.is_added(registration));
    let mut steps = Steps::<L>::new(blank);
    index.recompute(page, clips, watchers, registration, &mut steps)
}

fn is_found(
    finding: &Finding,
    index: u32,
    ratio: (u128, u128),
    root: Sides,
    cut: Option<Sides>,
) -> bool {
    finding.index == index
        && (finding.ratio.part, finding.ratio.whole) == ratio
        && finding.root == rect(root)
        && finding.meets == cut.is_some()
        && finding.cut == rect(cut.unwrap_or((0, 0, 0, 0)))
}

// Changes the page, if this is what the step does.
fn change(rt: &impl Abort, page: &mut Page, clips: &mut Clips, step: Step)
    requires { AreExact (sample page.old.clips page.old.boxes page.old.view) clips.old }
    ensures { AreExact (sample page.new.clips page.new.boxes page.new.view) clips.new }
{
    match step {
        Step::Clip(number, sides) => change_clip(rt, page, clips, number, sides),
        Step::View(sides) => change_view(rt, page, clips, sides),
        Step::Box(number, sides) => page.put_box(number, sides),
        Step::Stand(number, standing) => page.put_standing(number, standing),
        _ => {}
    }
}

// Asks of the index what the step wants, or lets a registration expire.
fn inquire(
    rt: &impl Abort,
    page: &Page,
    clips: &mut Clips,
    index: &mut Index,
    watchers: &Watchers,
    step: Step,
) -> Result<(), Fail>
    requires { AreExact (sample page.now.clips page.now.boxes page.now.view) clips.old }
    ensures { AreExact (sample page.now.clips page.now.boxes page.now.view) clips.new }
{
    match step {
        Step::Stale(watcher, want) => {
            let as_wanted = ask::<Brand>(
                Blank::new(1),
                rt,
                page,
                clips,
                index,
                watchers,
                watcher,
                want,
            )?;
            assert!(rt; as_wanted, "{step:?}");
        }
        Step::Find(watcher, place, number, ratio, root, cut) => {
            let finding = find::<Brand>(
                Blank::new(1),
                rt,
                page,
                clips,
                index,
                watchers,
                watcher,
                place,
            );
            assert!(rt;
                is_found(&finding, number, ratio, root, cut),
                "{step:?}: {finding:?}"
            );
        }
        Step::Expire(number) => {
            assert!(rt; index.is_added(RegistrationId(number)));
            index.expire(RegistrationId(number));
        }
        _ => {}
    }
    Ok(())
}

// Adds the registrations, and holds a pair of each.
fn hold_pairs(rt: &impl Abort, clips: &mut Clips, index: &mut Index) -> Result<(), Fail>
    ensures { (scene : SceneOf) → AreExact scene clips.old → AreExact scene clips.new }
{
    clips.add(node(7))?;
    clips.add(Container::Document(DocumentId(0)))?;
    for (number, root, of) in REGISTRATIONS {
        index.add(RegistrationId(number))?;
        assert!(rt; clips.pair(number).is_none());
        clips.hold(number, root, of)?;
    }
    Ok(())
}

// Each step of a page whose clips are all exact.
fn follow(
    rt: &impl Abort,
    page: &mut Page,
    clips: &mut Clips,
    index: &mut Index,
    watchers: &Watchers,
) -> Result<(), Fail>
    requires { AreExact (sample page.old.clips page.old.boxes page.old.view) clips.old }
{
    for step in STEPS {
        change(rt, page, clips, step);
        inquire(rt, page, clips, index, watchers, step)?;
    }
    Ok(())
}

fn see_page(
    rt: &impl Abort,
    alloc: Global,
    clips: &mut Clips,
    index: &mut Index,
    watchers: &mut Watchers,
) -> Result<(), Fail>
    requires exact { (scene : SceneOf) → AreExact scene clips.old }
    requires given { watchers.old.part.given ≡ 0 }
{
    make_two(alloc, watchers)?;
    hold_pairs(rt, clips, index)?;
    follow(rt, &mut Page::new(), clips, index, watchers)
}

#[test]
fn registrations_are_stale_where_something_differs(rt: HostRuntime) -> Result<(), Fail> {
    let alloc = rt.alloc();
    let mut watchers = Watchers::new(alloc, 2, 3);
    let mut clips = Clips::new(alloc);
    let mut index = Index::new(alloc);
    see_page(&rt, alloc, &mut clips, &mut index, &mut watchers)
}

fn see_forgetting(rt: &impl Abort, index: &mut Index) -> Result<(), Fail> {
    let registration = RegistrationId(5);
    index.add(registration)?;
    assert!(rt; index.is_added(registration));
    assert!(rt; index.kept(registration).is_none());
    index.expire(registration);
    assert!(rt; index.is_added(registration));
    index.forget(registration);
    assert!(rt; !index.is_added(registration));
    Ok(())
}

#[test]
fn what_is_forgotten_is_not_there(rt: HostRuntime) -> Result<(), Fail> {
    let mut index = Index::new(rt.alloc());
    see_forgetting(&rt, &mut index)
}
