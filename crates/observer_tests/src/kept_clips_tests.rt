//! Clips of a small page, worked out by hand from its rectangles, and which of them are computed again once spots are touched.

ghost use Rattle.std.specs.Prelude.{◌≡◌, ◌<◌};
ghost use Rattle.clip_chain.specs.Scenes.{Scene as SceneOf};
ghost use Rattle.observer_tests.specs.Sample.{sample, AreExact};

use crate::common::{Page, Sides, change_clip, node, rect};
use clip_chain::reaches;
use element_tree::{Container, DocumentId, NodeId};
use kept_clips::{Clip, Clips};
use std::marker::Brand;
use std::process::Abort;
use std::sync::ledger::{Blank, Ledger};
use std::test::Fail;
use step_count::Steps;

#[derive(Clone, Copy, Debug)]
enum Want {
    Whole,
    Cut(Sides),
    Nothing,
}

#[derive(Clone, Copy, Debug)]
enum Step {
    // Another clip of an element, which is touched.
    Put(u32, Option<Sides>),
    // The clip of a pair, and how many clips it is computed from.
    Ask(u64, Want, u32),
}

const PAIRS: [(u64, Container, Container); 4] = [
    (
        1,
        Container::Document(DocumentId(0)),
        Container::Element(NodeId(7)),
    ),
    (
        2,
        Container::Document(DocumentId(0)),
        Container::Element(NodeId(4)),
    ),
    (
        3,
        Container::Element(NodeId(1)),
        Container::Element(NodeId(6)),
    ),
    (
        4,
        Container::Element(NodeId(0)),
        Container::Element(NodeId(1)),
    ),
];

const STEPS: [Step; 28] = [
    // Nothing clips between. The second time the clip is held.
    Step::Ask(1, Want::Whole, 3),
    Step::Ask(1, Want::Whole, 0),
    // The target's own clip isn't counted, nor is there any spot between an element and what it stands in.
    Step::Put(7, Some((0, 0, 1, 1))),
    Step::Ask(1, Want::Whole, 3),
    Step::Ask(4, Want::Whole, 0),
    // 3 is between the spots of pairs 1 and 3, and isn't between those of pair 2.
    Step::Put(3, Some((10, 10, 40, 40))),
    Step::Ask(1, Want::Cut((10, 10, 40, 40)), 3),
    Step::Ask(3, Want::Cut((10, 10, 40, 40)), 1),
    Step::Ask(2, Want::Whole, 3),
    // 2 is between those of pair 2 alone, so that the other clips are held.
    Step::Put(2, Some((0, 0, 10, 90))),
    Step::Ask(2, Want::Cut((0, 0, 10, 90)), 3),
    Step::Ask(1, Want::Cut((10, 10, 40, 40)), 0),
    Step::Ask(3, Want::Cut((10, 10, 40, 40)), 0),
    // 0 touches 3 at an edge, and has no point in common with 2. It is beyond the root of pair 3.
    Step::Put(0, Some((50, 0, 40, 90))),
    Step::Ask(1, Want::Cut((50, 10, 0, 40)), 3),
    Step::Ask(2, Want::Nothing, 3),
    Step::Ask(3, Want::Cut((10, 10, 40, 40)), 0),
    // One unit apart isn't enough.
    Step::Put(0, Some((51, 0, 39, 90))),
    Step::Ask(1, Want::Nothing, 3),
    // 1 touches 3 at a corner. As a root it is on the chain of pair 3, and its clip isn't counted.
    Step::Put(0, None),
    Step::Put(1, Some((50, 50, 10, 10))),
    Step::Ask(1, Want::Cut((50, 50, 0, 0)), 3),
    Step::Ask(3, Want::Cut((10, 10, 40, 40)), 1),
    // Each cuts a side.
    Step::Put(1, Some((20, 0, 40, 40))),
    Step::Ask(1, Want::Cut((20, 10, 30, 30)), 3),
    Step::Put(3, None),
    Step::Put(1, None),
    Step::Ask(1, Want::Whole, 3),
];

fn wanted(want: Want) -> Clip {
    match want {
        Want::Whole => Clip::Whole,
        Want::Cut(sides) => Clip::Cut(rect(sides)),
        Want::Nothing => Clip::Nothing,
    }
}

fn ask<L: Ledger>(
    blank: Blank,
    rt: &impl Abort,
    page: &Page,
    clips: &mut Clips,
    number: u64,
) -> Clip
    requires name { blank.name ≡ L.name }
    requires parts { blank.parts ≡ L.parts }
    requires one_part { 0 < blank.parts }
    requires exact { AreExact (sample page.now.clips page.now.boxes page.now.view) clips.old }
    ensures { AreExact (sample page.now.clips page.now.boxes page.now.view) clips.new }
{
    let pair = clips.pair(number).expect(rt, "a pair");
    assert!(rt; reaches(page, pair.of, pair.root));
    let mut steps = Steps::<L>::new(blank);
    clips.clip_of(page, number, &mut steps)
}

fn follow(rt: &impl Abort, page: &mut Page, clips: &mut Clips, step: Step)
    requires { AreExact (sample page.old.clips page.old.boxes page.old.view) clips.old }
    ensures { AreExact (sample page.new.clips page.new.boxes page.new.view) clips.new }
{
    match step {
        Step::Put(number, sides) => change_clip(rt, page, clips, number, sides),
        Step::Ask(number, want, count) => {
            page.asked.set(0);
            let clip = ask::<Brand>(Blank::new(1), rt, page, clips, number);
            assert_eq!(rt; (clip, page.asked.get()), (wanted(want), count), "{step:?}");
        }
    }
}

// Each step of a page whose clips are all exact.
fn follow_all(rt: &impl Abort, page: &mut Page, clips: &mut Clips)
    requires { AreExact (sample page.old.clips page.old.boxes page.old.view) clips.old }
{
    for step in STEPS {
        follow(rt, page, clips, step);
    }
}

fn hold_pairs(rt: &impl Abort, clips: &mut Clips) -> Result<(), Fail>
    ensures { (scene : SceneOf) → AreExact scene clips.old → AreExact scene clips.new }
{
    clips.add(node(7))?;
    for (number, root, of) in PAIRS {
        assert!(rt; clips.pair(number).is_none());
        clips.hold(number, root, of)?;
    }
    Ok(())
}

#[test]
fn clips_are_computed_again_where_their_chains_are_touched(rt: HostRuntime) -> Result<(), Fail> {
    let mut clips = Clips::new(rt.alloc());
    hold_pairs(&rt, &mut clips)?;
    follow_all(&rt, &mut Page::new(), &mut clips);
    Ok(())
}

fn see_adding(rt: &impl Abort, clips: &mut Clips) -> Result<(), Fail> {
    assert!(rt; !clips.is_added(Container::Document(DocumentId(0))));
    clips.add(Container::Document(DocumentId(1)))?;
    assert!(rt; clips.is_added(Container::Document(DocumentId(0))));
    assert!(rt; !clips.is_added(node(1)));
    clips.touch(Container::Document(DocumentId(0)));
    Ok(())
}

fn see_holding(rt: &impl Abort, clips: &mut Clips) -> Result<(), Fail> {
    assert_eq!(rt; clips.pair(3), None);
    clips.hold(3, Container::Document(DocumentId(0)), node(1))?;
    assert!(rt; clips.pair(3).is_some());
    clips.release(3);
    assert_eq!(rt; clips.pair(3), None);
    Ok(())
}

#[test]
fn pairs_are_held_and_let_go(rt: HostRuntime) -> Result<(), Fail> {
    let mut clips = Clips::new(rt.alloc());
    see_adding(&rt, &mut clips)?;
    see_holding(&rt, &mut clips)
}
