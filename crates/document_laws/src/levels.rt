//! Laws on the bounds of the definitions' recursions over levels of elements.

ghost use Rattle.std.specs.Prelude.{◌≡◌, ◌<◌, ◌≤◌, ℕ, Option, length};
ghost use Rattle.layout_model.specs.Nodes.{path_up, path_of, order_down as nodes_down, tree_order, held};
ghost use Rattle.layout_model.specs.Boxes.{Inputs, box_down, box_in, inputs_up, inputs_at};
ghost use Rattle.layout_model.specs.Views.{View};
ghost use Rattle.layout_model.specs.FlatPlaces.{flat_up, flat_place};
ghost use Rattle.page_model.specs.World.{Tree, Container};
ghost use Rattle.page_model.specs.Documents.{nodes_of, order_down, inclusive_descendants, levels_down, levels_of};
ghost use Rattle.page_model.specs.Steps.{Did};
ghost use Rattle.page_model.specs.Commands.{placing};
ghost use Rattle.page_documents.specs.Places.{IsThere};
ghost use Rattle.document_laws.specs.Insertions.{IsLowThroughout};
ghost use Rattle.document_laws.specs.Levels.{MakeLowTrees, IsWithinLevels};

/// In trees of at most 256 levels no search upwards or downwards is cut off: with any bound of at least 256, a path to the
/// root, the descendants in tree order, the number of levels, a box with all that is in it, the chain of its holders, its
/// inputs and its place are the same. So the bound that the definitions give them, 65,536, is never reached.
pub fn levels_are_never_cut_off()
    ensures worlds { (tree : Tree) → IsWithinLevels tree → MakeLowTrees tree }
    ensures paths { (tree : Tree) → MakeLowTrees tree → (most n : ℕ) → 256 ≤ most → path_up most (nodes_of tree) n ≡ path_of (nodes_of tree) n }
    ensures orders { (tree : Tree) → MakeLowTrees tree → (most n : ℕ) → 256 ≤ most → order_down most tree n ≡ inclusive_descendants tree n }
    ensures heights { (tree : Tree) → MakeLowTrees tree → (most n : ℕ) → 256 ≤ most → levels_down most tree n ≡ levels_of tree n }
    ensures boxes { (tree : Tree) → MakeLowTrees tree → (most : ℕ) (inputs : Inputs) (n : ℕ) → 256 ≤ most →
        box_down most (nodes_of tree) inputs n ≡ box_in (nodes_of tree) inputs n }
    ensures holders { (tree : Tree) → MakeLowTrees tree → (most n : ℕ) → 256 ≤ most → path_up most (held (nodes_of tree)) n ≡ path_of (held (nodes_of tree)) n }
    ensures inputs { (tree : Tree) → MakeLowTrees tree → (most : ℕ) (viewport : Inputs) (n : ℕ) → 256 ≤ most →
        inputs_up most (nodes_of tree) viewport n ≡ inputs_at (nodes_of tree) viewport n }
    ensures places { (tree : Tree) → MakeLowTrees tree → (most : ℕ) (view : View) (n : ℕ) → 256 ≤ most →
        flat_up most (nodes_of tree) view n ≡ flat_place (nodes_of tree) view n }
    ensures trees { (tree : Tree) → MakeLowTrees tree → (most n : ℕ) → 256 ≤ most → nodes_down most (nodes_of tree) n ≡ tree_order (nodes_of tree) n }
{}

/// An insertion that neither throws nor exceeds the limit on depth goes through trees of at most 256 levels: after the
/// element is removed from its old place, after it is inserted at its new place, and after it is adopted there.
pub fn insertions_stay_low()
    ensures { (tree after : Tree) (container : Container) (n : ℕ) (sibling : Option ℕ) → IsWithinLevels tree → IsThere tree container →
        n < length tree.elements → placing container n sibling tree ≡ Did after → IsLowThroughout tree after container n sibling }
{}
