//! Laws of the definitions, each stated as the contract of an empty function.

ghost use Rattle.std.specs.Prelude.{◌≡◌, ℕ, List, false};
ghost use Rattle.page_model.specs.World.{Finding, IntersectionObserver, IntersectionObservers};
ghost use Rattle.page_model.specs.Lookups.{intersection_observer_at, change_intersection_observer};
ghost use Rattle.page_model.specs.Intersections.{settled_observer, settling};
ghost use Rattle.intersection_observer.specs.Serials.{HasSerials, registrations_at};
ghost use Rattle.intersection_observer.specs.Settling.{with_settled, is_news_for, each_settled, all_settled};

/// Settling the registrations of an observer one after the other, each by the finding of its target, is what an update does
/// to the observer.
#[tactic(auto, using(crate::proofs::Settling::observer_settled))]
pub fn settling_each_registration_settles_the_observer()
    ensures { (time : ℕ) (find : IntersectionObserver → ℕ → Finding) (watcher : ℕ) (it : IntersectionObservers) → HasSerials it → each_settled time (find (intersection_observer_at it watcher)) (registrations_at it watcher) it ≡ change_intersection_observer (settled_observer time find) watcher it }
{}

/// Settling the registrations observer by observer is what an update of a document does.
#[tactic(auto, using(crate::proofs::Settling::observers_settled))]
pub fn settling_each_observer_is_an_update()
    ensures { (time : ℕ) (find : ℕ → IntersectionObserver → ℕ → Finding) (watchers : List ℕ) (it : IntersectionObservers) → HasSerials it → all_settled time find watchers it ≡ settling time find watchers it }
{}

/// A finding that is no news for a registration changes nothing.
#[tactic(auto, using(crate::proofs::Settling::quiet_settled))]
pub fn settling_without_news_changes_nothing()
    ensures { (serial time : ℕ) (now : Finding) (it : IntersectionObservers) → is_news_for serial now it ≡ false → with_settled serial time now it ≡ it }
{}
