//! The cache stays sound when a tree changes elsewhere, and which nodes a change of a tree affects.

ghost use Rattle.std.specs.Prelude.{◌≡◌, ◌==◌, ◌||◌, ◌++◌, ◌∷◌, ℕ, Bool, false, Option, None, List, [], length};
ghost use Rattle.layout_model.specs.Nodes.{Node};
ghost use Rattle.element_tree.specs.Edits.{change_at, with_payload, lone, removed, inserted};
ghost use Rattle.element_tree.specs.Forest.{Knot, IsForest, names, parent_of};
ghost use Rattle.block_layout.specs.Trees.{layout_tree};
ghost use Rattle.kept_layout.specs.declared.slots.Slot.{Slot};
ghost use Rattle.kept_layout.specs.Changes.{ChangesOnly};
ghost use Rattle.kept_layout.specs.Sound.{IsSound, IsSoundBut};

use block_layout::Styled;

/// If a tree changes at some nodes only, the cache is sound except at these. So marking them makes it sound: showing or
/// hiding a node counts as a change of its parent, too.
pub fn changes_leave_the_rest_right()
    ensures { (old new : ℕ → Node) (slot : ℕ → Slot) (changed : ℕ → Bool) → ChangesOnly changed old new → IsSound old slot →
        IsSoundBut new slot changed }
{}

/// A node without children for which no box is stored needs no mark.
pub fn new_nodes_need_no_mark()
    ensures { (at : ℕ → Node) (slot : ℕ → Slot) (n : ℕ) (others : ℕ → Bool) → (at n).children ≡ [] → (slot n).found ≡ None →
        IsSoundBut at slot (λ m. m == n || others m) → IsSoundBut at slot others }
{}

/// A marked node needs no exception, so the marks may also come before the change.
pub fn marked_nodes_are_no_exception()
    ensures { (at : ℕ → Node) (slot : ℕ → Slot) (others : ℕ → Bool) →
        IsSoundBut at slot (λ n. (slot n).marked || others n) → IsSoundBut at slot others }
{}

/// A cache that is sound except at some nodes is sound except at more.
pub fn exceptions_may_be_more()
    ensures { (at : ℕ → Node) (slot : ℕ → Slot) (few more : ℕ → Bool) → ((n : ℕ) → more n ≡ false → few n ≡ false) →
        IsSoundBut at slot few → IsSoundBut at slot more }
{}

/// Changes of a tree affect few nodes: the old parent of a node that is removed, the new parent of one that is inserted, a
/// node that is added, and a node whose payload is written, with its parent.
pub fn trees_change_at_few_nodes<P: Styled>()
    ensures removed { (most : ℕ) (nodes : List (Knot P)) (n : ℕ) → IsForest most nodes →
        ChangesOnly (names (parent_of nodes n)) (layout_tree P.style P.kind nodes) (layout_tree P.style P.kind (removed n nodes)) }
    ensures inserted { (most : ℕ) (nodes : List (Knot P)) (p n : ℕ) (mark : Option ℕ) → IsForest most nodes →
        ChangesOnly (λ m. names (parent_of nodes n) m || m == p) (layout_tree P.style P.kind nodes) (layout_tree P.style P.kind (inserted p n mark nodes)) }
    ensures added { (most : ℕ) (nodes : List (Knot P)) (payload : P) → IsForest most nodes →
        ChangesOnly (λ m. m == length nodes) (layout_tree P.style P.kind nodes) (layout_tree P.style P.kind (nodes ++ lone payload ∷ [])) }
    ensures written { (most : ℕ) (nodes : List (Knot P)) (n : ℕ) (payload : P) → IsForest most nodes →
        ChangesOnly (λ m. m == n || names (parent_of nodes n) m) (layout_tree P.style P.kind nodes) (layout_tree P.style P.kind (change_at (with_payload payload) n nodes)) }
{}
