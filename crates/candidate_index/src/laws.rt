//! Findings computed over a scene are those of a world, and what isn't stale is unchanged: each law is stated as the contract
//! of an empty function.

ghost use Rattle.std.specs.Prelude.{◌≡◌, ◌↔◌, ℕ, List, Option, IsSome, IfSome, true, false};
ghost use Rattle.std.specs.Ordering.{nat_cmp};
ghost use Rattle.std.specs.FinMap.{FinMap};
ghost use Rattle.script_model.specs.Margins.{Margins};
ghost use Rattle.page_model.specs.Shown.{Shown};
ghost use Rattle.page_model.specs.World.{Root, IntersectionObserver, IntersectionObservers};
ghost use Rattle.page_model.specs.Findings.{relation, finding};
ghost use Rattle.clip_chain.specs.Worlds.{scene_for};
ghost use Rattle.element_tree.specs.declared.container.Container.{Container as ContainerOf};
ghost use Rattle.clip_chain.specs.Scenes.{Scene as SceneOf};
ghost use Rattle.intersection_observer.specs.Seen.{seen_finding};
ghost use Rattle.candidate_index.specs.declared.scene.Standing.{Standing as StandingOf};
ghost use Rattle.candidate_index.specs.declared.basis.Basis.{Basis as BasisOf};
ghost use Rattle.candidate_index.specs.declared.index.Kept.{Kept as KeptOf};
ghost use Rattle.candidate_index.specs.Bases.{is_same_basis};
ghost use Rattle.candidate_index.specs.Findings.{finding_over};
ghost use Rattle.candidate_index.specs.Registrations.{finding_for, IfChained};
ghost use Rattle.candidate_index.specs.Held.{kept_of, is_stale_now, AreFound};
ghost use Rattle.candidate_index.specs.Worlds.{standing_in, told, IsChain};

/// Two bases compare as the same exactly when they are equal. If a registration isn't stale, a finding is stored for it, and
/// that is its current finding.
pub fn what_is_not_stale_is_found_as_it_was()
    ensures same { (one other : BasisOf) → (is_same_basis one other ≡ true) ↔ (one ≡ other) }
    ensures found { (scene : SceneOf) (standings : Root → ℕ → StandingOf) (it : IntersectionObservers) (between : ℕ → List ContainerOf) (kept : FinMap nat_cmp (Option KeptOf)) (serial : ℕ) →
        AreFound it kept → is_stale_now scene standings it between kept serial ≡ false →
        IsSome (kept_of kept serial) × IfSome (kept_of kept serial) (λ last. seen_finding last.finding ≡ finding_for scene standings it serial (between serial)) }
{}

/// In any world, the finding computed from its containers, clips and boxes, as an observer with these scroll margins sees
/// them, and from the relation of the target to the root, is the world's finding, once the target's box and its visible part
/// are mapped to the coordinates of the target's document, and the root rectangle to those of the root's.
pub fn findings_are_those_of_any_world()
    ensures { (shown : Shown) (margins : Margins) (observer : IntersectionObserver) (target : ℕ) (between : List ContainerOf) →
        IfChained (standing_in (relation shown observer.root target)) (IsChain shown observer.root target between) →
        finding shown margins observer target ≡ told shown observer target (relation shown observer.root target) (finding_over (scene_for shown observer.root margins) (standing_in (relation shown observer.root target)) observer target between) }
{}
