//! Elements with a style and a kind, for trees that are laid out.

use block_layout::{Inputs, ItemKind, Styled};
use std::marker::Model;
use std::process::Abort;
use style_values::{Overflow, Style};

/// What the root element has around it: a viewport of 800 by 600 pixels.
pub const SCREEN: Inputs = Inputs {
    width: 51200,
    height: Some(38400),
    flow: true,
};

/// An element by itself. A contract sees its style and kind.
#[derive(Drop)]
pub struct Element {
    style: Style,
    kind: ItemKind,
}

impl Model for Element {
    ghost use Rattle.layout_model.specs.Items.{Item};
    ghost use Rattle.style_values.specs.Ranges.{IsStyle};
    ghost use Rattle.style_values.specs.Seen.{seen_style};
    ghost use Rattle.block_layout.specs.Seen.{seen_kind};

    ghost Value = { Item };

    ghost view = { λ e. record { style = seen_style e.style; kind = seen_kind e.kind } };

    ghost invariant = { λ e. IsStyle e.style };
}

impl Styled for Element {
    ghost style = { λ e. e.style };

    ghost kind = { λ e. e.kind };

    fn style(&self) -> &Style {
        &self.style
    }

    fn kind(&self) -> ItemKind {
        self.kind
    }
}

impl Element {
    /// An element of the first style.
    pub fn new(kind: ItemKind) -> Element {
        Element {
            style: Style::new(),
            kind,
        }
    }

    /// Sets a property; false where there is none of this name, or it hasn't this value.
    pub fn set(&mut self, property: &str, value: &str) -> bool {
        self.style.set(property.as_bytes(), value.as_bytes()) == Ok(())
    }

    /// Whether it is a scroll container, unless it is the root element.
    pub fn scrolls(&self) -> bool {
        let is_cut = matches!(
            self.style.overflow,
            Overflow::Hidden | Overflow::Scroll | Overflow::Auto
        );
        is_cut && self.kind == ItemKind::Block
    }
}

fn declare(rt: &impl Abort, element: &mut Element, declaration: &str) {
    match declaration.split_once(':') {
        Some((property, value)) => assert!(rt; element.set(property, value), "{declaration}"),
        None => assert!(rt; false, "{declaration}"),
    }
}

/// An element with declarations as `width:1px height:50%`.
pub fn styled(rt: &impl Abort, kind: ItemKind, declarations: &str) -> Element {
    let mut element = Element::new(kind);
    for declaration in declarations.split_whitespace() {
        declare(rt, &mut element, declaration);
    }
    element
}
