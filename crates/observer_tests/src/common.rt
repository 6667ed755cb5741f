//! What more than one module tries its crate on: a small page, and three resize observers.

ghost use Rattle.std.specs.Prelude.{◌≡◌, IfOk};
ghost use Rattle.clip_chain.specs.Ranges.{IsClip, IsBounds};
ghost use Rattle.clip_chain.specs.Worlds.{element_spot, view_spot};
ghost use Rattle.clip_chain.specs.Scenes.{Scene as SceneOf};
ghost use Rattle.kept_clips.specs.Scenes.{DiffersOnlyAt};
ghost use Rattle.observer_tests.specs.Sample.{rect_of, sample, sample_standing, AreExact};

use candidate_index::{Scene, Standing};
use clip_chain::Geometry;
use element_tree::{Container, DocumentId, NodeId};
use intersection_observer::Root;
use kept_clips::Clips;
use px_units::Rect;
use resize_observer::{ObserveFault, Observers};
use std::alloc::Global;
use std::cell::Cell;
use std::process::Abort;

/// Left, top, width and height.
pub(crate) type Sides = (u32, u32, u32, u32);

/// Element 0 stands in the viewport, 1 in it, 2 and 3 in 1, 4 and 5 in 2, 6 and 7 in 3.
#[derive(Drop)]
pub(crate) struct Page {
    pub(crate) clips: [Option<Sides>; 8],
    pub(crate) boxes: [Sides; 8],
    pub(crate) standings: [Standing; 8],
    pub(crate) view: Sides,
    /// How often a clip was asked for.
    pub(crate) asked: Cell<u32>,
}

impl Geometry for Page {
    ghost use Rattle.observer_tests.specs.Sample.{sample, sample_rank};

    ghost scene = { λ it. sample it.clips it.boxes it.view };

    ghost rank = { λ it. sample_rank };

    fn container(&self, of: Container) -> Option<Container> {
        match of {
            Container::Document(_) => None,
            Container::Element(NodeId(0)) => Some(Container::Document(DocumentId(0))),
            Container::Element(NodeId(number)) => Some(node(number / 2)),
        }
    }

    fn clip(&self, of: Container) -> Option<Rect> {
        self.asked.set(self.asked.get().saturating_add(1));
        match of {
            Container::Document(DocumentId(0)) => Some(rect(self.view)),
            Container::Document(_) => None,
            Container::Element(NodeId(number)) => match self.clips.get(number as usize) {
                Some(Some(sides)) => Some(rect(*sides)),
                _ => None,
            },
        }
    }

    fn bounds(&self, of: Container) -> Rect {
        match of {
            Container::Document(_) => rect(self.view),
            Container::Element(NodeId(number)) => match self.boxes.get(number as usize) {
                Some(sides) => rect(*sides),
                None => rect((0, 0, 0, 0)),
            },
        }
    }
}

impl Scene for Page {
    ghost use Rattle.observer_tests.specs.Sample.{sample_standing};

    ghost standings = { λ it root. sample_standing it.standings };

    fn standing(&self, _root: Root, target: NodeId) -> Standing {
        match self.standings.get(target.0 as usize) {
            Some(standing) => *standing,
            None => Standing::Apart,
        }
    }
}

impl Page {
    /// A page where nothing clips but the viewport.
    pub(crate) fn new() -> Page {
        Page {
            clips: [None; 8],
            boxes: [
                (0, 0, 800, 600),
                (0, 0, 400, 400),
                (0, 0, 0, 0),
                (0, 0, 0, 0),
                (0, 0, 200, 100),
                (0, 0, 0, 0),
                (300, 300, 10, 10),
                (100, 100, 100, 100),
            ],
            standings: [Standing::Chained; 8],
            view: (64, 64, 800, 600),
            asked: Cell::new(0),
        }
    }

    fn put_clip(&mut self, number: u32, sides: Option<Sides>)
        ensures { DiffersOnlyAt (element_spot number) (sample self.old.clips self.old.boxes self.old.view) (sample self.new.clips self.new.boxes self.new.view) }
    {
        let place = number as usize;
        if place < 8 {
            self.clips[place] = sides;
        }
    }

    fn put_view(&mut self, sides: Sides)
        ensures { DiffersOnlyAt (view_spot 0) (sample self.old.clips self.old.boxes self.old.view) (sample self.new.clips self.new.boxes self.new.view) }
    {
        self.view = sides;
    }

    pub(crate) fn put_box(&mut self, number: u32, sides: Sides)
        ensures clips { self.new.clips ≡ self.old.clips }
        ensures view { self.new.view ≡ self.old.view }
    {
        let place = number as usize;
        if place < 8 {
            self.boxes[place] = sides;
        }
    }

    pub(crate) fn put_standing(&mut self, number: u32, standing: Standing)
        ensures clips { self.new.clips ≡ self.old.clips }
        ensures view { self.new.view ≡ self.old.view }
    {
        let place = number as usize;
        if place < 8 {
            self.standings[place] = standing;
        }
    }
}

pub(crate) fn rect(sides: Sides) -> Rect
    ensures value { result ≡ rect_of sides }
    ensures clip { IsClip result }
    ensures range { IsBounds result }
{
    let (left, top, width, height) = sides;
    Rect {
        left: left as i64,
        top: top as i64,
        right: left as i64 + width as i64,
        bottom: top as i64 + height as i64,
    }
}

pub(crate) fn node(number: u32) -> Container
    ensures { result ≡ element_spot number }
{
    Container::Element(NodeId(number))
}

fn touch(rt: &impl Abort, clips: &mut Clips, of: Container)
    ensures { (before after : SceneOf) → AreExact before clips.old → DiffersOnlyAt of before after → AreExact after clips.new }
{
    assert!(rt; clips.is_added(of));
    clips.touch(of);
}

/// Another clip of an element, which is touched.
pub(crate) fn change_clip(
    rt: &impl Abort,
    page: &mut Page,
    clips: &mut Clips,
    number: u32,
    sides: Option<Sides>,
)
    requires { AreExact (sample page.old.clips page.old.boxes page.old.view) clips.old }
    ensures { AreExact (sample page.new.clips page.new.boxes page.new.view) clips.new }
{
    page.put_clip(number, sides);
    touch(rt, clips, Container::Element(NodeId(number)));
}

/// Another viewport, which is touched.
pub(crate) fn change_view(rt: &impl Abort, page: &mut Page, clips: &mut Clips, sides: Sides)
    requires { AreExact (sample page.old.clips page.old.boxes page.old.view) clips.old }
    ensures { AreExact (sample page.new.clips page.new.boxes page.new.view) clips.new }
{
    page.put_view(sides);
    touch(rt, clips, Container::Document(DocumentId(0)));
}

fn make_three(observers: &mut Observers) -> Result<(), ObserveFault>
    ensures { observers.new.part.given ≡ observers.old.part.given }
{
    observers.make(DocumentId(0), None)?;
    observers.make(DocumentId(1), Some(4))?;
    observers.make(DocumentId(0), Some(0))?;
    Ok(())
}

/// Of documents 0, 1 and 0, as many as there may be, and so many observations.
pub(crate) fn three_observers(alloc: Global, most: u32) -> Result<Observers, ObserveFault>
    ensures { IfOk result (λ observers. observers.part.given ≡ 0) }
{
    let mut observers = Observers::new(alloc, 3, most);
    make_three(&mut observers)?;
    Ok(observers)
}
