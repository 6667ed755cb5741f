//! The effect of an update, registration by registration, and of a further one, each stated as the contract of an empty function.

ghost use Rattle.std.specs.Prelude.{◌≡◌, ℕ, List, Some, true, false, slice_get};
ghost use Rattle.script_model.specs.Margins.{Margins};
ghost use Rattle.page_model.specs.Shown.{Shown};
ghost use Rattle.page_model.specs.World.{Registration, IntersectionObservers};
ghost use Rattle.page_model.specs.Lookups.{intersection_observer_at};
ghost use Rattle.page_model.specs.Intersections.{is_rooted_in};
ghost use Rattle.intersection_observer.specs.Serials.{HasSerials, registrations_at};
ghost use Rattle.intersection_update.specs.Updating.{found_through, updated, IsSettledBy};

/// Each registration of the observers that are updated with a document has the current threshold index and isIntersecting of
/// its target, and got one entry if one of the two differs from before, otherwise none. All other observers are unchanged.
pub fn an_update_settles_each_registration_once()
    ensures each { (shown : Shown) (margins : List Margins) (document time watcher place : ℕ) (registration : Registration) (it : IntersectionObservers) → HasSerials it →
        is_rooted_in shown.tree document (intersection_observer_at it watcher).root ≡ true → slice_get (registrations_at it watcher) place ≡ Some registration →
        IsSettledBy (found_through shown margins watcher (intersection_observer_at it watcher) registration.target) registration place (intersection_observer_at it watcher)
        (intersection_observer_at (updated shown margins shown.tree document time it) watcher) }
    ensures others { (shown : Shown) (margins : List Margins) (document time watcher : ℕ) (it : IntersectionObservers) → is_rooted_in shown.tree document (intersection_observer_at it watcher).root ≡ false →
        intersection_observer_at (updated shown margins shown.tree document time it) watcher ≡ intersection_observer_at it watcher }
{}

/// A further update of a document, at whatever time, changes no observer while the same is shown: each registration holds what is
/// found, so that nothing is news.
pub fn a_further_update_is_no_news()
    ensures { (shown : Shown) (margins : List Margins) (document earlier time : ℕ) (it : IntersectionObservers) →
        updated shown margins shown.tree document time (updated shown margins shown.tree document earlier it) ≡ updated shown margins shown.tree document earlier it }
{}
