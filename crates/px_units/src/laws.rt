//! Laws of the definitions, each stated as the contract of a function with an empty body.

ghost use Rattle.std.specs.Prelude.{◌≡◌, ◌↔◌, ℤ, pos, negsuc, codes};
ghost use Rattle.px_units.specs.declared.Rect.{Rect};
ghost use Rattle.px_units.specs.Rects.{meeting, Holds, HeldBy};
ghost use Rattle.px_units.specs.Texts.{pixel_text};

/// The intersection of two rectangles doesn't depend on their order.
#[tactic(auto, using(crate::proofs::Meeting::no_order))]
pub fn common_part_has_no_order()
    ensures { (a b : Rect) → meeting a b ≡ meeting b a }
{}

/// The points of the intersection are those in both rectangles; so there is no intersection exactly where they share no point.
#[tactic(auto, using(crate::proofs::Meeting::common_points))]
pub fn common_part_is_the_common_points()
    ensures { (a b : Rect) (x y : ℤ) → HeldBy (meeting a b) x y ↔ (Holds a x y × Holds b x y) }
{}

/// The texts of some lengths.
#[tactic(auto, using(crate::proofs::Rows::one_unit, crate::proofs::Rows::half, crate::proofs::Rows::whole, crate::proofs::Rows::nothing, crate::proofs::Rows::largest))]
pub fn texts_of_units()
    ensures one_unit { pixel_text (pos 1) ≡ codes "0.015625" }
    ensures half { pixel_text (negsuc 31) ≡ codes "-0.5" }
    ensures whole { pixel_text (pos 51200) ≡ codes "800" }
    ensures nothing { pixel_text (pos 0) ≡ codes "0" }
    ensures largest { pixel_text (pos 9223372036854775807) ≡ codes "144115188075855871.984375" }
{}
