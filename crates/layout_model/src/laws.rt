//! Laws of the definitions, each stated as the contract of a function with an empty body.

ghost use Rattle.std.specs.Prelude.{◌==◌, ◌||◌, ◌&&◌, ◌≡◌, ◌<◌, ◌≤◌, ◌⊎◌, ◌+◌, ◌-◌, ℕ, ℤ, pos, ◌+ℤ◌, ◌-ℤ◌, ◌≤ℤ◌, Some, None, is_some, true, false, not, find};
ghost use Rattle.px_units.specs.Lengths.{LengthValue, cap, clamped, Automatic, Pixels, Percentage};
ghost use Rattle.layout_model.specs.Styles.{ContentBox, BorderBox, StaticPosition, RelativePosition, AbsolutePosition, FixedPosition};
ghost use Rattle.layout_model.specs.Items.{Item, BlockKind};
ghost use Rattle.layout_model.specs.Nodes.{Node, levels, depth_of, ancestors_of, is_in_path, top_of, position_of, is_positioned, is_in_flow, HeldByElement, HeldByPage, HeldByScreen, holder, held_by, held, is_on_screen, IsLinked, IsListed, IsShallow};
ghost use Rattle.layout_model.specs.Clips.{is_block};
ghost use Rattle.layout_model.specs.Boxes.{Inputs, against, used_insets, is_stretched, computed, child_inputs, inputs_held, inputs_in, box_in, kids_of, total, padding_width, padding_height, padding_size, border_width, border_height};
ghost use Rattle.layout_model.specs.Views.{View, view_size, inputs_in_view};
ghost use Rattle.layout_model.specs.FlatPlaces.{shift_of, height_above, offset_of, border_corner, flat_place};
ghost use Rattle.layout_model.specs.Reach.{clipped_by, reach_of, reach_of_view, range_of, range_of_view, offset_in_force, view_in_force};
ghost use Rattle.layout_model.specs.Places.{place_in};
ghost use Rattle.layout_model.specs.Points.{capped, moved, moved_back, IsWithin};

/// A node's depth is one more than its parent's, and 1 without a parent, in trees of at most 65,536 levels.
pub fn depth_counts_ancestors()
    ensures child { (at : ℕ → Node) (c p : ℕ) → (at c).parent ≡ Some p → depth_of at p ≤ levels →
        depth_of at c ≡ depth_of at p + 1 }
    ensures top { (at : ℕ → Node) (n : ℕ) → (at n).parent ≡ None → depth_of at n ≡ 1 }
{}

/// The inclusive ancestors of a node are the node and those of its parent, and both are in the tree of the same top.
pub fn paths_lead_to_the_top()
    ensures ancestor { (at : ℕ → Node) (a c p : ℕ) → (at c).parent ≡ Some p → depth_of at p ≤ levels →
        is_in_path at a c ≡ (a == c || is_in_path at a p) }
    ensures itself { (at : ℕ → Node) (a n : ℕ) → (at n).parent ≡ None → is_in_path at a n ≡ (a == n) }
    ensures same_top { (at : ℕ → Node) (c p : ℕ) → (at c).parent ≡ Some p → depth_of at p ≤ levels → top_of at c ≡ top_of at p }
    ensures top { (at : ℕ → Node) (n : ℕ) → (at n).parent ≡ None → top_of at n ≡ n }
{}

/// Children get their parent's used width, and its used height if that is definite, whatever their own heights add up to.
pub fn inputs_do_not_depend_on_children()
    ensures width { (item : Item) (inputs : Inputs) (inside : ℕ) →
        (child_inputs item inputs).width ≡ (computed item inputs inside).width }
    ensures pixels { (item : Item) (inputs : Inputs) (inside units : ℕ) → item.style.height ≡ Pixels units →
        (child_inputs item inputs).height ≡ Some ((computed item inputs inside).height) }
    ensures percentage { (item : Item) (inputs : Inputs) (inside hundredths basis : ℕ) →
        item.style.height ≡ Percentage hundredths → inputs.height ≡ Some basis →
        (child_inputs item inputs).height ≡ Some ((computed item inputs inside).height) }
    ensures indefinite { (item : Item) (inputs : Inputs) (hundredths : ℕ) →
        item.style.height ≡ Percentage hundredths → inputs.height ≡ None →
        is_stretched inputs (used_insets item.style.inset inputs) ≡ false → (child_inputs item inputs).height ≡ None }
    ensures automatic { (item : Item) (inputs : Inputs) → item.style.height ≡ Automatic →
        is_stretched inputs (used_insets item.style.inset inputs) ≡ false → (child_inputs item inputs).height ≡ None }
    ensures stretched { (item : Item) (inputs : Inputs) (inside : ℕ) → item.kind ≡ BlockKind → item.style.height ≡ Automatic →
        is_stretched inputs (used_insets item.style.inset inputs) ≡ true →
        (child_inputs item inputs).height ≡ Some ((computed item inputs inside).height) }
    ensures flow { (item : Item) (inputs : Inputs) → (child_inputs item inputs).flow ≡ true }
{}

/// The holder of a box: in flow its parent's box, for a fixed box the screen, and for an absolute box its parent's box if that is
/// positioned, otherwise the holder that the parent would have as an absolute box. A node without a parent is in flow, and the page holds it.
pub fn holders_go_up()
    ensures flow { (at : ℕ → Node) (c p : ℕ) → (at c).parent ≡ Some p → is_in_flow (at c) ≡ true → holder at c ≡ HeldByElement p }
    ensures absolute { (at : ℕ → Node) (c p : ℕ) → (at c).parent ≡ Some p → depth_of at p ≤ levels →
        position_of (at c) ≡ AbsolutePosition → is_positioned (at p) ≡ true → holder at c ≡ HeldByElement p }
    ensures passed { (at : ℕ → Node) (c p : ℕ) → (at c).parent ≡ Some p → depth_of at p ≤ levels →
        position_of (at c) ≡ AbsolutePosition → is_positioned (at p) ≡ false →
        holder at c ≡ held_by (find (λ a. is_positioned (at a)) (ancestors_of at p)) }
    ensures fixed { (at : ℕ → Node) (n : ℕ) → position_of (at n) ≡ FixedPosition → holder at n ≡ HeldByScreen }
    ensures top { (at : ℕ → Node) (n : ℕ) → (at n).parent ≡ None → holder at n ≡ HeldByPage }
    ensures ancestor { (at : ℕ → Node) → IsShallow at → (n h : ℕ) → holder at n ≡ HeldByElement h →
        (is_in_path at h n ≡ true) × depth_of at h < depth_of at n }
    ensures shallow { (at : ℕ → Node) → IsShallow at → IsShallow (held at) }
{}

/// A node has a box if it is displayed and its parent is a block that has one; a root element if it is displayed. Nodes in any other
/// tree have none.
pub fn boxes_go_down()
    ensures root { (at : ℕ → Node) (root : ℕ) (viewport : Inputs) (n : ℕ) → (at n).parent ≡ None →
        is_some (inputs_in at root viewport n) ≡ (not (at n).item.style.hidden && n == root) }
    ensures child { (at : ℕ → Node) (root : ℕ) (viewport : Inputs) (c p : ℕ) → (at c).parent ≡ Some p → depth_of at p ≤ levels →
        is_some (inputs_in at root viewport c)
        ≡ (not (at c).item.style.hidden && (is_block (at p).item.kind && is_some (inputs_in at root viewport p))) }
{}

/// The inputs of a node with a box are the viewport's for a root element, in flow what its parent passes down, and out of flow the size
/// of the padding box of the element that holds it, or of the viewport if no element does.
pub fn inputs_go_down()
    ensures root { (at : ℕ → Node) (root : ℕ) (viewport inputs : Inputs) (n : ℕ) → (at n).parent ≡ None →
        inputs_in at root viewport n ≡ Some inputs → inputs ≡ record viewport { flow = true } }
    ensures flow { (at : ℕ → Node) → IsShallow at → (root : ℕ) (viewport inputs above : Inputs) (c p : ℕ) → (at c).parent ≡ Some p →
        is_in_flow (at c) ≡ true → inputs_in at root viewport c ≡ Some inputs → inputs_in at root viewport p ≡ Some above →
        inputs ≡ child_inputs ((at p).item) above }
    ensures element { (at : ℕ → Node) → IsShallow at → (root : ℕ) (viewport inputs above : Inputs) (n h : ℕ) →
        is_in_flow (at n) ≡ false → holder at n ≡ HeldByElement h →
        inputs_in at root viewport n ≡ Some inputs → inputs_in at root viewport h ≡ Some above →
        inputs ≡ inputs_held (box_in at above h) }
    ensures page { (at : ℕ → Node) (root : ℕ) (viewport inputs : Inputs) (n : ℕ) → is_in_flow (at n) ≡ false →
        holder at n ≡ HeldByPage → inputs_in at root viewport n ≡ Some inputs → inputs ≡ record viewport { flow = false } }
    ensures screen { (at : ℕ → Node) (root : ℕ) (viewport inputs : Inputs) (n : ℕ) → holder at n ≡ HeldByScreen →
        inputs_in at root viewport n ≡ Some inputs → inputs ≡ record viewport { flow = false } }
{}

/// A box is computed from its inputs and its children's boxes alone, which are stacked in it.
pub fn boxes_hold_their_children()
    ensures value { (at : ℕ → Node) → IsLinked at → IsShallow at → (inputs : Inputs) (n : ℕ) →
        box_in at inputs n
        ≡ computed ((at n).item) inputs (total at (box_in at (child_inputs ((at n).item) inputs)) (kids_of (at n))) }
{}

/// A used size is at least the minimum, and at most a maximum that is not below the minimum. With `border-box` this applies to
/// the border box, unless its border and padding alone exceed the maximum.
pub fn used_sizes_keep_their_limits()
    ensures least_content_width { (item : Item) (inputs : Inputs) (inside least : ℕ) →
        item.style.box_sizing ≡ ContentBox → against (item.style.min_width) (Some (inputs.width)) ≡ Some least →
        least ≤ (computed item inputs inside).width }
    ensures most_content_width { (item : Item) (inputs : Inputs) (inside least most : ℕ) (limit : LengthValue) →
        item.style.box_sizing ≡ ContentBox → item.style.max_width ≡ Some limit →
        against limit (Some (inputs.width)) ≡ Some most →
        against (item.style.min_width) (Some (inputs.width)) ≡ Some least → least ≤ most →
        (computed item inputs inside).width ≤ most }
    ensures least_border_width { (item : Item) (inputs : Inputs) (inside least : ℕ) →
        item.style.box_sizing ≡ BorderBox → against (item.style.min_width) (Some (inputs.width)) ≡ Some least →
        least ≤ border_width (computed item inputs inside) }
    ensures most_border_width { (item : Item) (inputs : Inputs) (inside least most : ℕ) (limit : LengthValue) →
        item.style.box_sizing ≡ BorderBox → item.style.max_width ≡ Some limit →
        against limit (Some (inputs.width)) ≡ Some most →
        against (item.style.min_width) (Some (inputs.width)) ≡ Some least → least ≤ most →
        border_width (computed item inputs inside) ≤ most + (computed item inputs inside).width →
        border_width (computed item inputs inside) ≤ most }
    ensures least_content_height { (item : Item) (inputs : Inputs) (inside least : ℕ) →
        item.style.box_sizing ≡ ContentBox → against (item.style.min_height) (inputs.height) ≡ Some least →
        least ≤ (computed item inputs inside).height }
    ensures most_content_height { (item : Item) (inputs : Inputs) (inside least most : ℕ) (limit : LengthValue) →
        item.style.box_sizing ≡ ContentBox → item.style.max_height ≡ Some limit →
        against limit (inputs.height) ≡ Some most → against (item.style.min_height) (inputs.height) ≡ Some least →
        least ≤ most → (computed item inputs inside).height ≤ most }
    ensures least_border_height { (item : Item) (inputs : Inputs) (inside least : ℕ) →
        item.style.box_sizing ≡ BorderBox → against (item.style.min_height) (inputs.height) ≡ Some least →
        least ≤ border_height (computed item inputs inside) }
    ensures most_border_height { (item : Item) (inputs : Inputs) (inside least most : ℕ) (limit : LengthValue) →
        item.style.box_sizing ≡ BorderBox → item.style.max_height ≡ Some limit →
        against limit (inputs.height) ≡ Some most → against (item.style.min_height) (inputs.height) ≡ Some least →
        least ≤ most → border_height (computed item inputs inside) ≤ most + (computed item inputs inside).height →
        border_height (computed item inputs inside) ≤ most }
{}

/// The margin box of a block with `width: auto` and no minimum or maximum fills its containing width, if margins, borders and padding
/// leave room; out of flow, the margin box and the two horizontal insets do. Likewise, out of flow a block with `height: auto` and two
/// vertical insets fills its containing height.
pub fn automatic_blocks_fill_their_width()
    ensures value { (item : Item) (inputs : Inputs) (inside : ℕ) → item.kind ≡ BlockKind → inputs.flow ≡ true →
        item.style.width ≡ Automatic → item.style.min_width ≡ Pixels 0 → item.style.max_width ≡ None →
        (computed item inputs inside).margin.left + border_width (computed item inputs inside) + (computed item inputs inside).margin.right ≤ inputs.width + (computed item inputs inside).width →
        inputs.width ≤ 2147483647 →
        (computed item inputs inside).margin.left + border_width (computed item inputs inside) + (computed item inputs inside).margin.right ≡ inputs.width }
    ensures out_of_flow { (item : Item) (inputs : Inputs) (inside : ℕ) (left right : ℤ) → item.kind ≡ BlockKind → inputs.flow ≡ false →
        item.style.width ≡ Automatic → item.style.min_width ≡ Pixels 0 → item.style.max_width ≡ None →
        (used_insets item.style.inset inputs).left ≡ Some left → (used_insets item.style.inset inputs).right ≡ Some right →
        let own = computed item inputs inside in
        (left +ℤ pos (own.margin.left + border_width own + own.margin.right) +ℤ right) ≤ℤ pos (inputs.width + own.width) →
        (computed item inputs inside).width < 2147483647 →
        left +ℤ pos (own.margin.left + border_width own + own.margin.right) +ℤ right ≡ pos inputs.width }
    ensures high { (item : Item) (inputs : Inputs) (inside height : ℕ) (top bottom : ℤ) → item.kind ≡ BlockKind → inputs.flow ≡ false →
        item.style.height ≡ Automatic → item.style.min_height ≡ Pixels 0 → item.style.max_height ≡ None → inputs.height ≡ Some height →
        (used_insets item.style.inset inputs).top ≡ Some top → (used_insets item.style.inset inputs).bottom ≡ Some bottom →
        let own = computed item inputs inside in
        (top +ℤ pos (own.margin.top + border_height own + own.margin.bottom) +ℤ bottom) ≤ℤ pos (height + own.height) →
        (computed item inputs inside).height < 2147483647 →
        top +ℤ pos (own.margin.top + border_height own + own.margin.bottom) +ℤ bottom ≡ pos height }
{}

/// No used size exceeds the largest length.
pub fn used_sizes_are_capped()
    ensures width { (item : Item) (inputs : Inputs) (inside : ℕ) → (computed item inputs inside).width ≤ 2147483647 }
    ensures height { (item : Item) (inputs : Inputs) (inside : ℕ) → (computed item inputs inside).height ≤ 2147483647 }
{}

/// No scroll offset in force exceeds its range.
pub fn offsets_stay_in_range()
    ensures element { (at : ℕ → Node) (stored : ℕ → ℕ × ℕ) (view : View) (n : ℕ) →
        IsWithin (offset_in_force at stored view n) (range_of at view n) }
    ensures viewport { (at : ℕ → Node) (view : View) → IsWithin (view_in_force at view) (range_of_view at view) }
{}

/// A flat place is the parent's, moved by the box's offset, and for a relative box also by its insets. Out of flow it is, on each axis,
/// given by the inset of the start side (`left`, `top`), otherwise by that of the end side, from the padding box of the holder; with
/// neither it is the static position. (CSS 2.2, 9.4.3, 10.3.7 and 10.6.4.)
pub fn flat_places_go_down()
    ensures root { (at : ℕ → Node) (view : View) (n : ℕ) → (at n).parent ≡ None →
        flat_place at view n ≡ moved (pos 0, pos 0) (offset_of at view n) }
    ensures unmoved { (at : ℕ → Node) → IsShallow at → (view : View) (c p : ℕ) → (at c).parent ≡ Some p → position_of (at c) ≡ StaticPosition →
        flat_place at view c ≡ moved (flat_place at view p) (offset_of at view c) }
    ensures relative { (at : ℕ → Node) → IsShallow at → (view : View) (inputs : Inputs) (c p : ℕ) → (at c).parent ≡ Some p →
        position_of (at c) ≡ RelativePosition → inputs_in_view at view c ≡ Some inputs →
        let shift = shift_of (used_insets (at c).item.style.inset inputs) in
        flat_place at view c
        ≡ ((flat_place at view p).0 +ℤ pos (offset_of at view c).0 +ℤ shift.0, (flat_place at view p).1 +ℤ pos (offset_of at view c).1 +ℤ shift.1) }
    ensures near { (at : ℕ → Node) → IsShallow at → (view : View) (inputs : Inputs) (n h : ℕ) (left : ℤ) → is_in_flow (at n) ≡ false →
        inputs_in_view at view n ≡ Some inputs → holder at n ≡ HeldByElement h → (used_insets (at n).item.style.inset inputs).left ≡ Some left →
        (flat_place at view n).0
        ≡ (moved (flat_place at view h) (border_corner (at h).item)).0 +ℤ clamped (left +ℤ pos (box_in at inputs n).margin.left) }
    ensures far { (at : ℕ → Node) → IsShallow at → (view : View) (inputs : Inputs) (n h : ℕ) (right : ℤ) → is_in_flow (at n) ≡ false →
        inputs_in_view at view n ≡ Some inputs → holder at n ≡ HeldByElement h → (used_insets (at n).item.style.inset inputs).left ≡ None →
        (used_insets (at n).item.style.inset inputs).right ≡ Some right →
        (flat_place at view n).0
        ≡ (moved (flat_place at view h) (border_corner (at h).item)).0
        +ℤ clamped (pos inputs.width -ℤ right -ℤ pos (box_in at inputs n).margin.right -ℤ pos (border_width (box_in at inputs n))) }
    ensures neither { (at : ℕ → Node) → IsShallow at → (view : View) (inputs : Inputs) (c p : ℕ) → (at c).parent ≡ Some p →
        inputs_in_view at view c ≡ Some inputs → is_in_flow (at c) ≡ false →
        (used_insets (at c).item.style.inset inputs).left ≡ None → (used_insets (at c).item.style.inset inputs).right ≡ None →
        (flat_place at view c).0 ≡ (flat_place at view p).0 +ℤ pos (offset_of at view c).0 }
    ensures on_screen { (at : ℕ → Node) (view : View) (inputs : Inputs) (n : ℕ) (left : ℤ) → is_in_flow (at n) ≡ false →
        inputs_in_view at view n ≡ Some inputs → (holder at n ≡ HeldByPage) ⊎ (holder at n ≡ HeldByScreen) →
        (used_insets (at n).item.style.inset inputs).left ≡ Some left →
        (flat_place at view n).0 ≡ clamped (left +ℤ pos (box_in at inputs n).margin.left) }
{}

/// A place is the flat one, moved back by the scroll offset of each element that holds the box, directly or in turn, and by the
/// viewport's if the page, not the screen, ends the chain of holders. So what an element holds moves along with it.
pub fn places_add_up()
    ensures element { (at : ℕ → Node) (stored : ℕ → ℕ × ℕ) (view : View) → IsShallow at → (n h : ℕ) → holder at n ≡ HeldByElement h →
        let place = moved_back (place_in at stored view h) (offset_in_force at stored view h) in
        place_in at stored view n
        ≡ (place.0 +ℤ (flat_place at view n).0 -ℤ (flat_place at view h).0, place.1 +ℤ (flat_place at view n).1 -ℤ (flat_place at view h).1) }
    ensures page { (at : ℕ → Node) (stored : ℕ → ℕ × ℕ) (view : View) (n : ℕ) → holder at n ≡ HeldByPage →
        place_in at stored view n ≡ moved_back (flat_place at view n) (view_in_force at view) }
    ensures screen { (at : ℕ → Node) (stored : ℕ → ℕ × ℕ) (view : View) (n : ℕ) → holder at n ≡ HeldByScreen →
        place_in at stored view n ≡ flat_place at view n }
{}

/// The offset of an element in its parent, from their boxes: past the parent's left border and padding and the element's left
/// margin, and likewise downwards, past the element's earlier siblings in flow too.
pub fn offsets_come_from_boxes()
    ensures across { (at : ℕ → Node) (view : View) (inputs own : Inputs) (c p : ℕ) → (at c).parent ≡ Some p →
        inputs_in_view at view p ≡ Some inputs → inputs_in_view at view c ≡ Some own →
        (offset_of at view c).0
        ≡ cap ((box_in at inputs p).border.left + (box_in at inputs p).padding.left + (box_in at own c).margin.left) }
    ensures down { (at : ℕ → Node) (view : View) (inputs own : Inputs) (c p : ℕ) → (at c).parent ≡ Some p →
        inputs_in_view at view p ≡ Some inputs → inputs_in_view at view c ≡ Some own →
        (offset_of at view c).1
        ≡ cap ((box_in at inputs p).border.top + (box_in at inputs p).padding.top + height_above at (child_inputs ((at p).item) inputs) (at p) c + (box_in at own c).margin.top) }
    ensures root { (at : ℕ → Node) (view : View) (inputs : Inputs) (n : ℕ) → (at n).parent ≡ None →
        inputs_in_view at view n ≡ Some inputs →
        offset_of at view n ≡ capped ((box_in at inputs n).margin.left, (box_in at inputs n).margin.top) }
{}

/// The reach of a scroll container is at least its padding box, and that of a viewport at least its size, up to the largest
/// length.
pub fn reaches_cover_the_padding_box()
    ensures element { (at : ℕ → Node) (view : View) (inputs : Inputs) (n : ℕ) →
        inputs_in_view at view n ≡ Some inputs →
        IsWithin (capped (padding_size (box_in at inputs n))) (reach_of at view n) }
    ensures viewport { (at : ℕ → Node) (view : View) → IsWithin (capped (view_size view)) (reach_of_view at view) }
{}

/// The reach of a scroll container covers each box whose nearest clipping holder it is, and that of a viewport each box that no
/// element clips and whose chain of holders ends at the page, up to the largest length, if each node with a parent is among its children.
pub fn no_box_passes_the_reach()
    ensures across { (at : ℕ → Node) → IsListed at → IsShallow at → (view : View) (inputs below : Inputs) (n d : ℕ) →
        inputs_in_view at view n ≡ Some inputs → inputs_in_view at view d ≡ Some below → clipped_by at d ≡ Some n →
        ((flat_place at view d).0 +ℤ pos (border_width (box_in at below d)) -ℤ (moved (flat_place at view n) (border_corner (at n).item)).0) ≤ℤ pos 2147483647 →
        ((flat_place at view d).0 +ℤ pos (border_width (box_in at below d)) -ℤ (moved (flat_place at view n) (border_corner (at n).item)).0)
        ≤ℤ pos (reach_of at view n).0 }
    ensures down { (at : ℕ → Node) → IsListed at → IsShallow at → (view : View) (inputs below : Inputs) (n d : ℕ) →
        inputs_in_view at view n ≡ Some inputs → inputs_in_view at view d ≡ Some below → clipped_by at d ≡ Some n →
        ((flat_place at view d).1 +ℤ pos (border_height (box_in at below d)) -ℤ (moved (flat_place at view n) (border_corner (at n).item)).1) ≤ℤ pos 2147483647 →
        ((flat_place at view d).1 +ℤ pos (border_height (box_in at below d)) -ℤ (moved (flat_place at view n) (border_corner (at n).item)).1)
        ≤ℤ pos (reach_of at view n).1 }
    ensures view_across { (at : ℕ → Node) → IsListed at → IsShallow at → (view : View) (below : Inputs) (d : ℕ) →
        inputs_in_view at view d ≡ Some below → clipped_by at d ≡ None → is_on_screen at d ≡ false →
        ((flat_place at view d).0 +ℤ pos (border_width (box_in at below d))) ≤ℤ pos 2147483647 →
        ((flat_place at view d).0 +ℤ pos (border_width (box_in at below d))) ≤ℤ pos (reach_of_view at view).0 }
    ensures view_down { (at : ℕ → Node) → IsListed at → IsShallow at → (view : View) (below : Inputs) (d : ℕ) →
        inputs_in_view at view d ≡ Some below → clipped_by at d ≡ None → is_on_screen at d ≡ false →
        ((flat_place at view d).1 +ℤ pos (border_height (box_in at below d))) ≤ℤ pos 2147483647 →
        ((flat_place at view d).1 +ℤ pos (border_height (box_in at below d))) ≤ℤ pos (reach_of_view at view).1 }
{}

/// A reach is no larger than needed: it is the padding box, or the viewport's size, or the far edge of one of these border boxes, or
/// the largest length.
pub fn each_reach_is_met()
    ensures across { (at : ℕ → Node) (view : View) (inputs : Inputs) (n : ℕ) → inputs_in_view at view n ≡ Some inputs →
        ((reach_of at view n).0 ≡ cap (padding_width (box_in at inputs n))) ⊎ ((reach_of at view n).0 ≡ 2147483647) ⊎
        ((d : ℕ) × (below : Inputs) × (clipped_by at d ≡ Some n) × (inputs_in_view at view d ≡ Some below) ×
        (pos (reach_of at view n).0
        ≡ (flat_place at view d).0 +ℤ pos (border_width (box_in at below d)) -ℤ (moved (flat_place at view n) (border_corner (at n).item)).0)) }
    ensures down { (at : ℕ → Node) (view : View) (inputs : Inputs) (n : ℕ) → inputs_in_view at view n ≡ Some inputs →
        ((reach_of at view n).1 ≡ cap (padding_height (box_in at inputs n))) ⊎ ((reach_of at view n).1 ≡ 2147483647) ⊎
        ((d : ℕ) × (below : Inputs) × (clipped_by at d ≡ Some n) × (inputs_in_view at view d ≡ Some below) ×
        (pos (reach_of at view n).1
        ≡ (flat_place at view d).1 +ℤ pos (border_height (box_in at below d)) -ℤ (moved (flat_place at view n) (border_corner (at n).item)).1)) }
    ensures nothing { (at : ℕ → Node) (view : View) → view.root ≡ None →
        reach_of_view at view ≡ capped (view_size view) }
    ensures view_across { (at : ℕ → Node) (view : View) →
        ((reach_of_view at view).0 ≡ cap view.width) ⊎ ((reach_of_view at view).0 ≡ 2147483647) ⊎
        ((d : ℕ) × (below : Inputs) × (clipped_by at d ≡ None) × (is_on_screen at d ≡ false) × (inputs_in_view at view d ≡ Some below) ×
        (pos (reach_of_view at view).0 ≡ (flat_place at view d).0 +ℤ pos (border_width (box_in at below d)))) }
    ensures view_down { (at : ℕ → Node) (view : View) →
        ((reach_of_view at view).1 ≡ cap view.height) ⊎ ((reach_of_view at view).1 ≡ 2147483647) ⊎
        ((d : ℕ) × (below : Inputs) × (clipped_by at d ≡ None) × (is_on_screen at d ≡ false) × (inputs_in_view at view d ≡ Some below) ×
        (pos (reach_of_view at view).1 ≡ (flat_place at view d).1 +ℤ pos (border_height (box_in at below d)))) }
{}
