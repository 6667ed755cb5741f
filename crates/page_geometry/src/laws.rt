//! Laws on the chains and findings of every page, each stated as the contract of an empty function.

ghost use Rattle.std.specs.Prelude.{◌≡◌, ◌≤◌, ℕ, List, length};
ghost use Rattle.script_model.specs.Margins.{Margins};
ghost use Rattle.page_model.specs.World.{IntersectionObserver};
ghost use Rattle.page_model.specs.Shown.{Shown as ModelShown};
ghost use Rattle.page_model.specs.Chains.{most_containers};
ghost use Rattle.page_model.specs.Findings.{finding};
ghost use Rattle.element_tree.specs.declared.container.Container.{Container as ContainerOf};
ghost use Rattle.clip_chain.specs.Chains.{Leads};
ghost use Rattle.clip_chain.specs.Worlds.{scene_of};
ghost use Rattle.kept_findings.specs.Walks.{EachAlong, AreChained, found_in};
ghost use Rattle.page_geometry.specs.Scenes.{IsPageTree, IsThere, standings_of, telling_of};

/// From a target that has a box and isn't apart from a root the chain of containers leads to the root. No chain is longer
/// than the definition of clips follows, and each spot on one is an existing element or document.
pub fn chains_lead_to_roots()
    ensures chained { (shown : ModelShown) → IsPageTree shown.tree → AreChained (scene_of shown) (standings_of shown) }
    ensures short { (shown : ModelShown) → IsPageTree shown.tree → (from root : ContainerOf) (between : List ContainerOf) → Leads (scene_of shown) from between root → length between ≤ most_containers }
    ensures there { (shown : ModelShown) → IsPageTree shown.tree → (from root : ContainerOf) → EachAlong (IsThere shown.tree) (scene_of shown) from root }
{}

/// The finding computed over the scene of a page, as an observer with scroll margins sees it, and mapped to document
/// coordinates, is the definitions' finding.
pub fn what_is_told_is_found()
    ensures { (shown : ModelShown) → IsPageTree shown.tree → (chained : AreChained (scene_of shown) (standings_of shown)) (margins : Margins) (observer : IntersectionObserver) (target : ℕ) →
        finding shown margins observer target ≡ found_in (scene_of shown) (standings_of shown) chained (telling_of shown) margins observer target }
{}
