//! Laws on the bounds of the definitions' recursions over frames.

ghost use Rattle.std.specs.Prelude.{◌≡◌, ◌≤◌, ℕ, List, true};
ghost use Rattle.page_model.specs.World.{Screen, Tree, World};
ghost use Rattle.page_model.specs.Documents.{frame_levels, is_active_state, is_fresh_state, stands_in_active, frames_in, led_to, documents_inside, shown};
ghost use Rattle.page_model.specs.PageBoxes.{view_up, view_of, has_box};
ghost use Rattle.page_model.specs.Shown.{shown_of};
ghost use Rattle.page_model.specs.Chains.{origin_up, origin, holding, containers_by, containers_from, containers_of};
ghost use Rattle.document_laws.specs.Levels.{IsWithinLevels};

/// No search along frames is cut off. What a document shows, and the Active documents that its frames lead to, are the same
/// with any bound of at least 64, and the origin of a document's viewport is with any bound of at least 65. The Fresh
/// documents inside an element are searched for when it is inserted into the tree of an Active document, which leaves a tree
/// within its levels: there they are the same with any bound of at least 64. So the bound that the definitions give them,
/// 65,536, is never reached.
pub fn frames_are_never_cut_off()
    ensures views { (tree : Tree) → IsWithinLevels tree → (most : ℕ) (screen : Screen) (document : ℕ) → 64 ≤ most →
        view_up most tree screen document ≡ view_of tree screen document }
    ensures origins { (world : World) → IsWithinLevels world.tree → (most document : ℕ) → 65 ≤ most →
        origin_up most (shown_of world) document ≡ origin (shown_of world) document }
    ensures active { (tree : Tree) → IsWithinLevels tree → (most : ℕ) (documents : List ℕ) → 64 ≤ most →
        led_to most is_active_state tree documents ≡ led_to frame_levels is_active_state tree documents }
    ensures fresh { (tree : Tree) (n : ℕ) → IsWithinLevels (shown tree n) → stands_in_active tree n ≡ true → (most : ℕ) → 64 ≤ most →
        led_to most is_fresh_state tree (frames_in tree n) ≡ documents_inside is_fresh_state tree n }
{}

/// An element that has a box is in the tree of an Active document, and all containers of such an element are found with any
/// bound of at least 16,448. The clips of a target are only computed if it has a box, so the bound that the definition gives
/// the chain, 65,536, is never reached.
pub fn containers_are_never_cut_off()
    ensures boxes { (tree : Tree) → IsWithinLevels tree → (screen : Screen) (n : ℕ) → has_box tree screen n ≡ true → stands_in_active tree n ≡ true }
    ensures containers { (tree : Tree) → IsWithinLevels tree → (most n : ℕ) → stands_in_active tree n ≡ true → 16448 ≤ most →
        containers_by (containers_from most tree) (holding tree n) ≡ containers_of tree n }
{}
