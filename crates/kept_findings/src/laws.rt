//! The cached registrations through commands and updates, and the steps that their clips take: each law is stated as the
//! contract of an empty function.

ghost use Rattle.std.specs.Prelude.{◌≡◌, ◌<◌, ◌≤◌, ◌+◌, ℕ, Bool, List, [], Option, Some, false, length, sum_by};
ghost use Rattle.std.specs.List.{AllByRecursion};
ghost use Rattle.script_model.specs.Margins.{Margins};
ghost use Rattle.page_model.specs.World.{Root, Finding as ModelFinding, Registration, IntersectionObservers};
ghost use Rattle.page_model.specs.Lookups.{intersection_observer_at, scroll_margins_at};
ghost use Rattle.page_model.specs.IntersectionObserving.{is_registered, with_intersection_observer, with_registration, without_registration, without_queue};
ghost use Rattle.element_tree.specs.declared.container.Container.{Container as ContainerOf};
ghost use Rattle.clip_chain.specs.Scenes.{Scene as SceneOf};
ghost use Rattle.clip_chain.specs.Worlds.{element_spot, spot_of_root, view_spot};
ghost use Rattle.intersection_observer.specs.Serials.{HasSerials, registrations_at};
ghost use Rattle.intersection_observer.specs.Settling.{each_settled};
ghost use Rattle.intersection_observer.specs.Watchers.{serial_of};
ghost use Rattle.kept_clips.specs.Touches.{last_number};
ghost use Rattle.kept_clips.specs.Held.{HeldClips};
ghost use Rattle.kept_clips.specs.Numbers.{AreNumbered};
ghost use Rattle.kept_clips.specs.Looked.{Looked, MayBeSeen};
ghost use Rattle.candidate_index.specs.declared.scene.Standing.{Standing as StandingOf};
ghost use Rattle.candidate_index.specs.Asked.{asked_for, steps_for, all_steps};
ghost use Rattle.kept_findings.specs.Held.{HeldFindings, with_findings, without_findings, with_expired, IsRoomier};
ghost use Rattle.kept_findings.specs.Rooms.{HaveRoom};
ghost use Rattle.kept_findings.specs.Registered.{AreRegistered};
ghost use Rattle.kept_findings.specs.Stale.{chosen, IsQuiet};

/// The cache holds exactly the existing registrations, and their findings are settled, through all that commands do to
/// intersection observers: creating an observer with its scroll margins, creating or removing a registration with its pair,
/// taking a queue, making room for more spots.
pub fn registrations_stay_registered()
    ensures made { (it : IntersectionObservers) (document : ℕ) (handler : Option ℕ) (root : Root) (margins : Margins) (thresholds : List ℕ) (scroll_margins now : List Margins) (kept : HeldFindings) →
        ((watcher : ℕ) → watcher < length it.made → scroll_margins_at now watcher ≡ scroll_margins_at scroll_margins watcher) →
        AreRegistered it scroll_margins kept → AreRegistered (with_intersection_observer document handler root margins thresholds it) now kept }
    ensures observed { (it : IntersectionObservers) (scroll_margins : List Margins) (watcher n : ℕ) (kept : HeldFindings) → HasSerials it → watcher < length it.made → is_registered n (registrations_at it watcher) ≡ false →
        AreRegistered it scroll_margins kept → AreRegistered (with_registration watcher n it) scroll_margins (with_findings it.given (spot_of_root (intersection_observer_at it watcher).root) (element_spot n) kept) }
    ensures unobserved { (it : IntersectionObservers) (scroll_margins : List Margins) (watcher n serial : ℕ) (kept : HeldFindings) → HasSerials it → watcher < length it.made → serial_of n (registrations_at it watcher) ≡ Some serial →
        AreRegistered it scroll_margins kept → AreRegistered (without_registration watcher n it) scroll_margins (without_findings serial kept) }
    ensures roomier { (it : IntersectionObservers) (scroll_margins : List Margins) (before now : HeldFindings) → IsRoomier before now → AreRegistered it scroll_margins before → AreRegistered it scroll_margins now }
    ensures taken { (it : IntersectionObservers) (scroll_margins : List Margins) (watcher : ℕ) (kept : HeldFindings) → AreRegistered it scroll_margins kept → AreRegistered (without_queue watcher it) scroll_margins kept }
{}

/// If the findings of all other registrations are no news, settling the chosen ones settles the observer.
pub fn settling_the_stale_ones_settles_all()
    ensures { (test : ℕ → Bool) (time : ℕ) (find : ℕ → ModelFinding) (watcher : ℕ) (registrations : List Registration) (it : IntersectionObservers) → HasSerials it →
        AllByRecursion (IsQuiet test find watcher it) registrations → each_settled time find (chosen test registrations) it ≡ each_settled time find registrations it }
{}

/// Requesting the clips of several registrations one after the other takes no more steps than each alone would, and
/// requesting one again takes none, unless the touch count is at its maximum.
pub fn clips_that_are_asked_for_take_steps_once()
    ensures together { (scene : SceneOf) (standings : Root → ℕ → StandingOf) (it : IntersectionObservers) (between : ℕ → List ContainerOf) (serials : List ℕ) (clips : HeldClips) →
        all_steps scene standings it between serials clips ≤ sum_by (λ serial. steps_for scene standings it between serial clips) serials }
    ensures less { (scene : SceneOf) (standings : Root → ℕ → StandingOf) (it : IntersectionObservers) (between : ℕ → List ContainerOf) (serial other : ℕ) (clips : HeldClips) →
        steps_for scene standings it between other (asked_for scene standings it between serial clips) ≤ steps_for scene standings it between other clips }
    ensures again { (scene : SceneOf) (standings : Root → ℕ → StandingOf) (it : IntersectionObservers) (between : ℕ → List ContainerOf) (serial : ℕ) (clips : HeldClips) → AreNumbered clips →
        clips.touches.count < last_number → steps_for scene standings it between serial (asked_for scene standings it between serial clips) ≡ 0 }
{}

/// Room for the states of elements and documents is kept by all calls, and adding a spot makes room for one more element or
/// document.
pub fn room_stays()
    ensures none { (it : HeldFindings) → HaveRoom 0 0 it }
    ensures roomier { (elements documents : ℕ) (before now : HeldFindings) → IsRoomier before now → HaveRoom elements documents before → HaveRoom elements documents now }
    ensures element { (elements documents : ℕ) (it : HeldFindings) → MayBeSeen it.seen it.clips (element_spot elements) →
        HaveRoom elements documents it → HaveRoom (elements + 1) documents it }
    ensures document { (elements documents : ℕ) (it : HeldFindings) → MayBeSeen it.seen it.clips (view_spot documents) →
        HaveRoom elements documents it → HaveRoom elements (documents + 1) it }
    ensures registered { (elements documents serial : ℕ) (root target : ContainerOf) (it : HeldFindings) →
        HaveRoom elements documents it → HaveRoom elements documents (with_findings serial root target it) }
    ensures forgotten { (elements documents serial : ℕ) (it : HeldFindings) → HaveRoom elements documents it → HaveRoom elements documents (without_findings serial it) }
    ensures expired { (elements documents serial : ℕ) (it : HeldFindings) → HaveRoom elements documents it → HaveRoom elements documents (with_expired serial it) }
    ensures looked { (scene : SceneOf) (elements documents : ℕ) (before now : HeldFindings) → Looked scene before.seen now.seen before.clips now.clips →
        HaveRoom elements documents before → HaveRoom elements documents now }
    ensures same { (elements documents : ℕ) (before now : HeldFindings) → now.seen ≡ before.seen → now.clips.touches ≡ before.clips.touches →
        HaveRoom elements documents before → HaveRoom elements documents now }
{}
