//! Chains and visible parts are those of a page: each law is stated as the contract of an empty function.

ghost use Rattle.std.specs.Prelude.{◌≡◌, ◌↔◌, ◌+◌, ◌≤◌, ℕ, List, [], ◌∷◌, ◌++◌, length, filter_map, Some};
ghost use Rattle.std.specs.List.{slice_index_or, Contains};
ghost use Rattle.px_units.specs.declared.Rect.{Rect};
ghost use Rattle.script_model.specs.Margins.{Margins};
ghost use Rattle.page_model.specs.World.{Root};
ghost use Rattle.page_model.specs.Shown.{Shown};
ghost use Rattle.page_model.specs.Chains.{most_containers, border_rect, clips_between, clips_for, common_part, root_bounds as root_bounds_in};
ghost use Rattle.element_tree.specs.declared.container.Container.{Container as ContainerOf};
ghost use Rattle.clip_chain.specs.Scenes.{Scene, root_bounds};
ghost use Rattle.clip_chain.specs.Chains.{Leads};
ghost use Rattle.clip_chain.specs.Visible.{part_between};
ghost use Rattle.clip_chain.specs.Worlds.{scene_of, scene_for, element_spot, spot_of_root};

/// On a chain each spot after the first is the container of the one before, the last one is the root, and the root doesn't
/// occur before.
pub fn a_chain_goes_from_container_to_container()
    ensures { (scene : Scene) (from root : ContainerOf) (between : List ContainerOf) →
        Leads scene from between root
        ↔ (((k : ℕ) (default : ContainerOf) → k ≤ length between → scene.container (slice_index_or (from ∷ between) k default) ≡ Some (slice_index_or (between ++ root ∷ []) k default))
        × (¬ Contains between root)) }
{}

/// There is at most one chain from a spot to a root.
pub fn a_chain_is_the_only_one()
    ensures { (scene : Scene) (from root : ContainerOf) (some others : List ContainerOf) →
        Leads scene from some root → Leads scene from others root → some ≡ others }
{}

/// In any world, the clips on the chain from a target to a root are those of the world's definition, so that the visible part
/// of the target is that of its finding. The root rectangle before root margins are applied is the world's, too. This is for
/// chains no longer than that definition follows.
pub fn chains_are_those_of_any_world()
    ensures clips { (shown : Shown) (root : Root) (target : ℕ) (between : List ContainerOf) →
        Leads (scene_of shown) (element_spot target) between (spot_of_root root) → length between ≤ most_containers →
        filter_map (scene_of shown).clip between ≡ clips_between shown root target }
    ensures part { (shown : Shown) (root : Root) (target : ℕ) (between : List ContainerOf) (limits : Rect) →
        Leads (scene_of shown) (element_spot target) between (spot_of_root root) → length between ≤ most_containers →
        part_between (scene_of shown) (element_spot target) between limits
        ≡ common_part (border_rect shown target) (limits ∷ clips_between shown root target) }
    ensures root { (shown : Shown) (root : Root) → root_bounds (scene_of shown) (spot_of_root root) ≡ root_bounds_in shown root }
{}

/// The same holds for the page as an observer with scroll margins sees it. They don't affect its root rectangle.
pub fn chains_with_scroll_margins_are_those_of_any_world()
    ensures clips { (shown : Shown) (margins : Margins) (root : Root) (target : ℕ) (between : List ContainerOf) →
        Leads (scene_of shown) (element_spot target) between (spot_of_root root) → length between ≤ most_containers →
        filter_map (scene_for shown root margins).clip between ≡ clips_for shown margins root target }
    ensures part { (shown : Shown) (margins : Margins) (root : Root) (target : ℕ) (between : List ContainerOf) (limits : Rect) →
        Leads (scene_of shown) (element_spot target) between (spot_of_root root) → length between ≤ most_containers →
        part_between (scene_for shown root margins) (element_spot target) between limits
        ≡ common_part (border_rect shown target) (limits ∷ clips_for shown margins root target) }
    ensures root { (shown : Shown) (margins : Margins) (root : Root) →
        root_bounds (scene_for shown root margins) (spot_of_root root) ≡ root_bounds (scene_of shown) (spot_of_root root) }
{}
