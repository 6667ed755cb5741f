//! What the elements of a tree must provide for layout.

ghost use Rattle.std.specs.Prelude.{◌≡◌, ◌<◌, ◌&&◌, not, length};
ghost use Rattle.layout_model.specs.Boxes.{kids_of, is_passed};
ghost use Rattle.layout_model.specs.Clips.{clips, is_block, is_visible, is_clip, is_scroll_container};
ghost use Rattle.element_tree.specs.Forest.{IsForest, first_of};
ghost use Rattle.element_tree.specs.Links.{node_ids};
ghost use Rattle.style_values.specs.Seen.{seen_style};
ghost use Rattle.block_layout.specs.Seen.{seen_kind};
ghost use Rattle.block_layout.specs.Trees.{layout_tree};

use crate::ItemKind;
use element_tree::{NodeId, Tree};
use style_values::{Display, Overflow, Position, Style};

/// An element with a style and a kind.
pub trait Styled {
    ghost use Rattle.layout_model.specs.Styles.{Style as StyleModel};
    ghost use Rattle.layout_model.specs.Items.{Kind};
    ghost use Rattle.style_values.specs.Ranges.{IsStyle};

    /// The style, as the definitions of layout see it.
    ghost style: { Self → StyleModel };

    /// The kind, as the definitions of layout see it.
    ghost kind: { Self → Kind };

    /// Returns the style of the element; each property has a value.
    fn style(&self) -> &Style
        ensures value { seen_style result.now ≡ style self.now }
        ensures range { IsStyle result.now };

    /// Returns the kind of the element.
    fn kind(&self) -> ItemKind
        ensures { seen_kind result ≡ kind self.now };
}

/// Whether the element itself has `display: none`. Doesn't allocate.
pub fn is_hidden<P: Styled>(tree: &Tree<P>, node: NodeId) -> bool
    requires { node.0 < length tree.now.nodes }
    ensures value { result ≡ (layout_tree P.style P.kind tree.now.nodes node.0).item.style.hidden }
    ensures forest { IsForest tree.now.most_depth tree.now.nodes }
{
    match tree.payload(node).style().display {
        Display::Hidden => true,
        Display::Block => false,
    }
}

// Whether a child adds nothing to the height of its parent because it isn't displayed or is out of flow. A root element
// counts as static.
pub(crate) fn is_passed<P: Styled>(tree: &Tree<P>, node: NodeId) -> bool
    requires { node.0 < length tree.now.nodes }
    ensures value { result ≡ is_passed (layout_tree P.style P.kind tree.now.nodes node.0) }
    ensures forest { IsForest tree.now.most_depth tree.now.nodes }
{
    if is_hidden(tree, node) {
        return true;
    }
    match tree.payload(node).style().position {
        Position::Static | Position::Relative => false,
        Position::Absolute | Position::Fixed => tree.parent(node).is_some(),
    }
}

/// Whether the element is a block, so that its children may have boxes. Doesn't allocate.
pub fn is_block<P: Styled>(tree: &Tree<P>, node: NodeId) -> bool
    requires { node.0 < length tree.now.nodes }
    ensures value { result ≡ is_block (layout_tree P.style P.kind tree.now.nodes node.0).item.kind }
    ensures forest { IsForest tree.now.most_depth tree.now.nodes }
{
    match tree.payload(node).kind() {
        ItemKind::Block => true,
        ItemKind::Image(_) | ItemKind::Frame => false,
    }
}

/// Returns the first of the children that may have boxes, `None` if there is none. Doesn't allocate.
pub fn first_inner<P: Styled>(tree: &Tree<P>, node: NodeId) -> Option<NodeId>
    requires { node.0 < length tree.now.nodes }
    ensures value { result ≡ node_ids (first_of (kids_of (layout_tree P.style P.kind tree.now.nodes node.0))) }
    ensures forest { IsForest tree.now.most_depth tree.now.nodes }
{
    match tree.payload(node).kind() {
        ItemKind::Block => tree.first_child(node),
        ItemKind::Image(_) | ItemKind::Frame => None,
    }
}

// Whether overflowing content is clipped (CSS Overflow 3, 3.1).
fn is_cut(style: &Style) -> bool
    ensures { result ≡ not (is_visible (seen_style style.now).overflow) }
{
    match style.overflow {
        Overflow::Visible => false,
        Overflow::Hidden | Overflow::Clip | Overflow::Scroll | Overflow::Auto => true,
    }
}

/// Whether the element's box, if it has one, clips its content at its padding box (CSS Overflow 3, 3.1). The `overflow` of a
/// root element is propagated to the viewport (CSS Overflow 3, 3.3). Doesn't allocate.
pub fn is_clipping<P: Styled>(tree: &Tree<P>, node: NodeId) -> bool
    requires { node.0 < length tree.now.nodes }
    ensures value { result ≡ clips (layout_tree P.style P.kind tree.now.nodes node.0) }
    ensures forest { IsForest tree.now.most_depth tree.now.nodes }
{
    let item = tree.payload(node);
    match item.kind() {
        ItemKind::Block => is_cut(item.style()) && tree.parent(node).is_some(),
        ItemKind::Image(_) | ItemKind::Frame => false,
    }
}

// Whether overflowing content can be scrolled to (CSS Overflow 3, 3.1).
fn is_scrollable(style: &Style) -> bool
    ensures { result ≡ (not (is_visible (seen_style style.now).overflow) && not (is_clip (seen_style style.now).overflow)) }
{
    match style.overflow {
        Overflow::Visible | Overflow::Clip => false,
        Overflow::Hidden | Overflow::Scroll | Overflow::Auto => true,
    }
}

/// Whether the element's box, if it has one, is a scroll container (CSS Overflow 3, 3.1). False for a root element, which
/// doesn't clip. Doesn't allocate.
pub fn is_scroll_container<P: Styled>(tree: &Tree<P>, node: NodeId) -> bool
    requires { node.0 < length tree.now.nodes }
    ensures value { result ≡ is_scroll_container (layout_tree P.style P.kind tree.now.nodes node.0) }
    ensures forest { IsForest tree.now.most_depth tree.now.nodes }
{
    let item = tree.payload(node);
    match item.kind() {
        ItemKind::Block => is_scrollable(item.style()) && tree.parent(node).is_some(),
        ItemKind::Image(_) | ItemKind::Frame => false,
    }
}
