//! Stale registrations, recomputed and settled.

ghost use Rattle.std.specs.Prelude.{◌≡◌, ◌⊎◌, ◌<◌, ◌≤◌, ◌+◌, ℕ, All, false, length, IfOk, OnOk, OnErr};
ghost use Rattle.page_model.specs.Lookups.{change_intersection_observer};
ghost use Rattle.page_model.specs.Intersections.{is_rooted_in, settled_observer, has_queued};
ghost use Rattle.element_tree.specs.declared.container.Container.{Container as ContainerOf};
ghost use Rattle.clip_chain.specs.Worlds.{scene_of};
ghost use Rattle.intersection_observer.specs.Serials.{HasSerials};
ghost use Rattle.kept_clips.specs.Touches.{last_number};
ghost use Rattle.kept_clips.specs.Held.{pair_of};
ghost use Rattle.kept_clips.specs.Looked.{IsLeft, ChangesByLooks};
ghost use Rattle.candidate_index.specs.Registrations.{place_of, observer_of, serials_at};
ghost use Rattle.candidate_index.specs.Held.{kept_of};
ghost use Rattle.kept_findings.specs.Registered.{AreRegistered};
ghost use Rattle.kept_findings.specs.Rooms.{HaveRoom};
ghost use Rattle.intersection_update.specs.Watching.{AreWatchers, is_watched};
ghost use Rattle.intersection_update.specs.Updating.{found_through, updated, has_news, AreKept, AreSettled, Carried, IsBegun, IsStopped};
ghost use Rattle.intersection_update.specs.Keeping.{HaveChains, is_stale_in, StandsAt, IsLookedAt, IsSeen, IsOff, AreLookedAlong, HasCurrentClip, KeepsComputed, IsRefusedAt, IsRefused, HaveLooked};
ghost use Rattle.intersection_update.specs.Steps.{steps_at, most_steps};

use crate::rooted::{is_looked_at, is_watched};
use element_tree::DocumentId;
use intersection_observer::{WatcherId, Watchers};
use kept_findings::{KeptFindings, Looks};
use page_geometry::Shown;
use std::alloc::AllocError;
use std::sync::ledger::Ledger;
use step_count::Steps;
use thresholds::Margins;

/// Tells a proof that serial numbers are unique; it does nothing.
pub fn tell_serials(watchers: &Watchers)
    ensures { HasSerials watchers.now.part }
{
    if watchers.count() > 0 {
        watchers.registrations(WatcherId(0));
    }
}

fn is_watched_in(shown: &Shown<'_>, watchers: &Watchers, document: DocumentId) -> bool
    ensures { result ≡ is_watched shown.now.tree document.0 watchers.now.part }
{
    is_watched(shown.page(), watchers, document)
}

// Settles the stale registrations of an observer, and returns whether an entry was queued.
fn settle_stale<L: Ledger>(
    shown: &Shown<'_>,
    watchers: &mut Watchers,
    scroll_margins: &[Margins],
    findings: &mut KeptFindings,
    looks: &mut Looks,
    watcher: WatcherId,
    time: u64,
    steps: &mut Steps<L>,
) -> Result<bool, AllocError>
    requires watcher { watcher.0 < length watchers.old.part.made }
    requires margins { length scroll_margins.now ≡ length watchers.old.part.made }
    requires registered { AreRegistered watchers.old.part scroll_margins.now findings.old }
    requires room { HaveRoom (length shown.now.tree.elements) (length shown.now.tree.documents) findings.old }
    requires known { HaveLooked shown.now findings.old.seen looks.old }
    ensures settled { OnOk result (watchers.new ≡ record watchers.old { part = change_intersection_observer (settled_observer time (found_through shown.now scroll_margins.now watcher.0)) watcher.0 (watchers.old.part) }) }
    ensures stopped { OnErr result (IsBegun shown.now scroll_margins.now time watcher.0 watchers.old.part watchers.new.part) }
    ensures queued { IfOk result (λ queued. queued ≡ has_queued watchers.old.part watchers.new.part watcher.0) }
    ensures kept { AreKept (length shown.now.tree.elements) watchers.old watchers.new }
    ensures registered { AreRegistered watchers.new.part scroll_margins.now findings.new }
    ensures room { HaveRoom (length shown.now.tree.elements) (length shown.now.tree.documents) findings.new }
    ensures known { HaveLooked shown.now findings.new.seen looks.new }
    ensures looked { AreLookedAlong shown.now watchers.old.part watcher.0 findings.old findings.new }
    ensures same { (chained : HaveChains shown.now) (serial : ℕ) → is_stale_in shown.now scroll_margins.now chained watchers.old.part findings.old.kept serial ≡ false →
        kept_of findings.new.kept serial ≡ kept_of findings.old.kept serial }
    ensures others { (serial : ℕ) → (¬ (place_of watchers.old.part serial).watcher ≡ watcher.0) → kept_of findings.new.kept serial ≡ kept_of findings.old.kept serial }
    ensures fresh { (chained : HaveChains shown.now) → OnOk result ((serial : ℕ) → StandsAt watchers.old.part watcher.0 serial →
        is_stale_in shown.now scroll_margins.now chained watchers.old.part findings.new.kept serial ≡ false) }
    ensures rest { (chained : HaveChains shown.now) → OnOk result ((serial : ℕ) →
        (kept_of findings.new.kept serial ≡ kept_of findings.old.kept serial) ⊎ (is_stale_in shown.now scroll_margins.now chained watchers.old.part findings.new.kept serial ≡ false)) }
    ensures computed { KeepsComputed findings.old.clips findings.new.clips }
    ensures listed { All (λ serial. StandsAt watchers.old.part watcher.0 serial) (serials_at watchers.old.part watcher.0) }
    ensures pairs { (serial : ℕ) → (¬ (place_of watchers.old.part serial).watcher ≡ watcher.0) → pair_of findings.new.clips serial ≡ pair_of findings.old.clips serial }
    ensures paid { (chained : HaveChains shown.now) → steps.new ≤ steps.old + steps_at shown.now scroll_margins.now chained watchers.old.part (serials_at watchers.old.part watcher.0) findings.old findings.new }
    ensures current { (chained : HaveChains shown.now) → OnOk result (findings.new.clips.touches.count < last_number →
        All (HasCurrentClip shown.now chained watchers.old.part findings.new.clips) (serials_at watchers.old.part watcher.0)) }
    ensures refused { (chained : HaveChains shown.now) → OnErr result (IsRefusedAt shown.now scroll_margins.now chained time watcher.0 watchers.old.part watchers.new.part findings.old.kept findings.new.kept) }
{
    // Yields that chains lead to roots.
    shown.document_count();
    // Yields that serial numbers are unique.
    watchers.registrations(watcher);
    findings.look(shown, looks, watchers, watcher);
    // Yields that no clip was computed at a future touch.
    findings.clips();
    let stale = findings.stale_registrations(
        shown,
        looks,
        watchers,
        scroll_margins,
        watcher,
        steps,
    )?;
    let mut queued = false;
    for registration in &stale {
        queued |= findings.settle(
            shown,
            looks,
            watchers,
            scroll_margins,
            watcher,
            *registration,
            time,
            steps,
        )?;
    }
    Ok(queued)
}

/// Updates the intersection observations of a document at a time in milliseconds: settles the current finding of each
/// registration of the observers whose root is the document or is in its tree (for the top document also those with the
/// implicit root), through the scroll margins of each observer, which are listed by the observers' numbers. Returns whether
/// an entry was queued at one of them, so that the document's notify task is due (Intersection Observer, 3.2.10: run the
/// update intersection observations steps).
///
/// Answers at once if none of these observers has a target. Only stale registrations are recomputed: the spots on the chains of all
/// of them are looked at, and the findings of the others are no news. It takes a step for each finding computed, and for each clip computed one for each spot strictly
/// between the target and its root.
///
/// # Errors
///
/// If an entry or a list can't be allocated: the registrations before it are settled then, and no other registration or queue
/// is changed. It takes no more steps then than an update that succeeds may take.
pub fn update<L: Ledger>(
    shown: &Shown<'_>,
    watchers: &mut Watchers,
    scroll_margins: &[Margins],
    findings: &mut KeptFindings,
    document: DocumentId,
    time: u64,
    steps: &mut Steps<L>,
) -> Result<bool, AllocError>
    requires margins { length scroll_margins.now ≡ length watchers.old.part.made }
    requires registered { AreRegistered watchers.old.part scroll_margins.now findings.old }
    requires room { HaveRoom (length shown.now.tree.elements) (length shown.now.tree.documents) findings.old }
    ensures updated { OnOk result (watchers.new ≡ record watchers.old { part = updated shown.now scroll_margins.now shown.now.tree document.0 time (watchers.old.part) }) }
    ensures stopped { OnErr result (IsStopped shown.now scroll_margins.now shown.now.tree document.0 time watchers.old.part watchers.new.part) }
    ensures settled { OnOk result (AreSettled shown.now scroll_margins.now document.0 watchers.old.part watchers.new.part) }
    ensures queued { IfOk result (λ queued. queued ≡ has_news shown.now.tree document.0 watchers.old.part (updated shown.now scroll_margins.now shown.now.tree document.0 time watchers.old.part)) }
    ensures written { AreWatchers (length shown.now.tree.elements) watchers.old.part.made → AreWatchers (length shown.now.tree.elements) watchers.new.part.made }
    ensures limits { watchers.new ≡ record watchers.old { part = watchers.new.part } }
    ensures count { length watchers.new.part.made ≡ length watchers.old.part.made }
    ensures given { watchers.new.part.given ≡ watchers.old.part.given }
    ensures carried { OnOk result (Carried watchers.old.part watchers.new.part) }
    ensures registered { AreRegistered watchers.new.part scroll_margins.now findings.new }
    ensures room { HaveRoom (length shown.now.tree.elements) (length shown.now.tree.documents) findings.new }
    ensures touched { ChangesByLooks (scene_of shown.now) findings.old.seen findings.new.seen findings.old.clips.touches findings.new.clips.touches }
    ensures left { (spot : ContainerOf) → ((serial : ℕ) → IsLookedAt shown.now.tree document.0 watchers.old.part serial → IsOff shown.now watchers.old.part spot serial) →
        IsLeft findings.old.seen findings.new.seen findings.old.clips.touches findings.new.clips.touches spot }
    ensures seen { OnOk result ((serial : ℕ) → IsLookedAt shown.now.tree document.0 watchers.new.part serial → IsSeen shown.now watchers.new.part findings.new.seen serial) }
    ensures kept { (chained : HaveChains shown.now) (serial : ℕ) → is_stale_in shown.now scroll_margins.now chained watchers.old.part findings.old.kept serial ≡ false →
        kept_of findings.new.kept serial ≡ kept_of findings.old.kept serial }
    ensures others { (serial : ℕ) → is_rooted_in shown.now.tree document.0 (observer_of watchers.old.part serial).root ≡ false →
        kept_of findings.new.kept serial ≡ kept_of findings.old.kept serial }
    ensures fresh { (chained : HaveChains shown.now) → OnOk result ((serial : ℕ) → IsLookedAt shown.now.tree document.0 watchers.new.part serial →
        is_stale_in shown.now scroll_margins.now chained watchers.new.part findings.new.kept serial ≡ false) }
    ensures computed { KeepsComputed findings.old.clips findings.new.clips }
    ensures pairs { (serial : ℕ) → is_rooted_in shown.now.tree document.0 (observer_of watchers.old.part serial).root ≡ false →
        pair_of findings.new.clips serial ≡ pair_of findings.old.clips serial }
    ensures ticks { (chained : HaveChains shown.now) → steps.new ≤ steps.old + most_steps shown.now scroll_margins.now chained document.0 watchers.old.part findings.old findings.new }
    ensures current { (chained : HaveChains shown.now) → OnOk result (findings.new.clips.touches.count < last_number → (serial : ℕ) →
        IsLookedAt shown.now.tree document.0 watchers.new.part serial → HasCurrentClip shown.now chained watchers.new.part findings.new.clips serial) }
    ensures refused { (chained : HaveChains shown.now) → OnErr result (IsRefused shown.now scroll_margins.now chained document.0 time watchers.old.part watchers.new.part findings.old.kept findings.new.kept) }
{
    if !is_watched_in(shown, watchers, document) {
        return Ok(false);
    }
    // Yields that chains lead to roots.
    shown.document_count();
    tell_serials(watchers);
    let mut looks = findings.looks()?;
    let mut queued = false;
    for number in 0..watchers.count() {
        let watcher = WatcherId(number);
        if is_looked_at(shown.page(), watchers, watcher, document) {
            // Yields that no spot was touched at a future touch.
            findings.clips();
            queued |= settle_stale(
                shown,
                watchers,
                scroll_margins,
                findings,
                &mut looks,
                watcher,
                time,
                steps,
            )?;
        }
    }
    Ok(queued)
}
