//! The initial state of a page besides its elements and documents: the name `top`, and empty tables.

ghost use Rattle.std.specs.Prelude.{◌≡◌, ℕ, List, [], ◌∷◌, None, IfOk, codes};
ghost use Rattle.text_io.specs.Limits.{limit_number};
ghost use Rattle.text_io.specs.declared.kinds.LimitKind.TheVariants as limits;
ghost use Rattle.script_model.specs.Margins.{Margins as ScrollMargins};
ghost use Rattle.page_model.specs.World.{DocumentThing, IntersectionObservers};
ghost use Rattle.clip_chain.specs.Worlds.{view_spot};
ghost use Rattle.intersection_observer.specs.Places.{standing_of};
ghost use Rattle.kept_clips.specs.Looked.{MayBeSeen};
ghost use Rattle.kept_findings.specs.Held.{no_findings, IsRoomier};
ghost use Rattle.kept_findings.specs.Registered.{AreRegistered};

use crate::by_document::ByDocument;
use crate::page::most;
use element_tree::{Container, DocumentId};
use event_tables::{FrameCallbacks, Listeners, Tasks, Timers};
use intersection_observer::Watchers;
use kept_findings::KeptFindings;
use page_names::{Names, Thing};
use px_units::Size;
use resize_observer::Observers;
use std::alloc::{AllocError, Global};
use text_io::{LimitKind, Name, Version};

// The names: only that of the document `top`.
fn names(alloc: Global) -> Result<Names, AllocError>
    ensures { IfOk result (λ names. names.list ≡ record { text = codes "top"; thing = DocumentThing 0 } ∷ []) }
{
    let Some(top) = Name::read(b"top") else {
        return Err(AllocError);
    };
    let mut names = Names::new(alloc);
    names.insert(top, Thing::Document(DocumentId(0)))?;
    Ok(names)
}

// The cached findings: none, with room for the spot of `top`.
fn findings(alloc: Global) -> Result<KeptFindings, AllocError>
    ensures roomier { IfOk result (λ it. IsRoomier no_findings it) }
    ensures room { IfOk result (λ it. MayBeSeen it.seen it.clips (view_spot 0)) }
    ensures registered { (watchers : IntersectionObservers) (margins : List ScrollMargins) → ((serial : ℕ) → standing_of serial watchers ≡ None) → IfOk result (AreRegistered watchers margins) }
{
    let mut findings = KeptFindings::new(alloc);
    findings.add(Container::Document(DocumentId(0)))?;
    Ok(findings)
}

// All parts of a page whose creation can fail, except its elements and documents: the names, the cached findings, the notify
// flags and the recorded viewport sizes, both empty.
pub(crate) fn parts(
    alloc: Global,
) -> Result<
    (
        Names,
        KeptFindings,
        ByDocument<bool>,
        ByDocument<Option<Size>>,
    ),
    AllocError,
>
    ensures names { IfOk result (λ parts. parts.0.list ≡ record { text = codes "top"; thing = DocumentThing 0 } ∷ []) }
    ensures roomier { IfOk result (λ parts. IsRoomier no_findings parts.1) }
    ensures room { IfOk result (λ parts. MayBeSeen parts.1.seen parts.1.clips (view_spot 0)) }
    ensures registered { (watchers : IntersectionObservers) (margins : List ScrollMargins) → ((serial : ℕ) → standing_of serial watchers ≡ None) → IfOk result (λ parts. AreRegistered watchers margins parts.1) }
    ensures notifying { IfOk result (λ parts. parts.2 ≡ []) }
    ensures noted { IfOk result (λ parts. parts.3 ≡ []) }
{
    let notifying = ByDocument::new(alloc)?;
    let noted = ByDocument::new(alloc)?;
    let names = names(alloc)?;
    let findings = findings(alloc)?;
    Ok((names, findings, notifying, noted))
}

// The resize observers of a new page for a script of a version: none.
pub(crate) fn observers(alloc: Global, version: Version) -> Observers
    ensures { result ≡ record {
      part = record { given = 0; made = [] };
      most_observers = limit_number version limits.ResizeObservers;
      most_observations = limit_number version limits.ResizeObservations;
    } }
{
    Observers::new(
        alloc,
        most(LimitKind::ResizeObservers, version),
        most(LimitKind::ResizeObservations, version),
    )
}

// The intersection observers: none.
pub(crate) fn watchers(alloc: Global, version: Version) -> Watchers
    ensures { result ≡ record {
      part = record { given = 0; made = [] };
      most_watchers = limit_number version limits.IntersectionObservers;
      most_registrations = limit_number version limits.IntersectionObservations;
    } }
{
    Watchers::new(
        alloc,
        most(LimitKind::IntersectionObservers, version),
        most(LimitKind::IntersectionObservations, version),
    )
}

// The event tables, all empty.
pub(crate) fn tables(alloc: Global, version: Version) -> (Listeners, FrameCallbacks, Timers, Tasks)
    ensures listeners { result.0 ≡ record { part = record { given = 0; held = [] }; most = limit_number version limits.Listeners } }
    ensures frame_callbacks { result.1 ≡ record { part = record { given = 0; held = [] }; most = limit_number version limits.FrameCallbacks } }
    ensures timers { result.2 ≡ record { part = record { given = 0; held = [] }; most = limit_number version limits.Timers } }
    ensures tasks { result.3 ≡ record { part = []; most = limit_number version limits.Tasks } }
{
    (
        Listeners::new(alloc, most(LimitKind::Listeners, version)),
        FrameCallbacks::new(alloc, most(LimitKind::FrameCallbacks, version)),
        Timers::new(alloc, most(LimitKind::Timers, version)),
        Tasks::new(alloc, most(LimitKind::Tasks, version)),
    )
}
