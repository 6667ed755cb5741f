//! Laws of the definitions, each stated as the contract of an empty function.

ghost use Rattle.std.specs.Prelude.{◌≡◌, ◌<◌, ℕ, ℤ, pos, List, length, map, Some, None, false};
ghost use Rattle.std.specs.List.Sorted.{IsNonDecreasing, IsPermutation};
ghost use Rattle.script_model.specs.MarginText.{thresholds_of};
ghost use Rattle.script_model.specs.Margins.{Margins as RootMargins};
ghost use Rattle.page_model.specs.Chains.{moved_out};
ghost use Rattle.px_units.specs.declared.Rect.{Rect};
ghost use Rattle.px_units.specs.Rects.{has_points, meeting};

/// Thresholds are in ascending order, and they are the values that were given, equal ones kept.
#[tactic(auto, using(crate::proofs::Order::kept))]
pub fn thresholds_are_the_values_in_order()
    ensures ascending { (values : List ℤ) (thresholds : List ℕ) → thresholds_of values ≡ Some thresholds → IsNonDecreasing thresholds }
    ensures kept { (values : List ℤ) (thresholds : List ℕ) → thresholds_of values ≡ Some thresholds → 0 < length values → IsPermutation values (map pos thresholds) }
{}

/// A root rectangle that the margins have inverted (an edge moved past the opposite one) intersects no rectangle.
#[tactic(auto, using(crate::proofs::Crossing::crossed_root))]
pub fn crossed_root_meets_nothing()
    ensures { (margins : RootMargins) (root other : Rect) → has_points (moved_out margins root) ≡ false → meeting other (moved_out margins root) ≡ None }
{}
