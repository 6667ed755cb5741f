//! Scripts.

ghost use Rattle.std.specs.Prelude.{◌≡◌, map, length, filter, option_map, slice_get, IfOk};
ghost use Rattle.std.specs.List.{All};
ghost use Rattle.text_io.specs.declared.kinds.Version.TheVariants.{First};
ghost use Rattle.script_model.specs.Scripts.{handlers_in, handler_number};
ghost use Rattle.script_syntax.specs.Seen.{item_of, handler_of, is_handler, handler_item};
ghost use Rattle.script_syntax.specs.Allowed.{ItemAllowed};
ghost use Rattle.script_syntax.specs.Read.{IsRead};

use crate::commands::{Handler, Item};
use crate::index::{Index, index_of};
use std::alloc::{AllocError, Global};
use std::marker::Model;
use text_io::{Name, Version};

/// A script: its version, its items in the order of their lines, and its handlers, numbered from 0 in that order. A
/// contract sees the definition's record of the version and the items.
#[derive(Drop)]
pub struct Script {
    version: Version,
    items: Vec<Item>,
    index: Index,
}

impl Model for Script {
    ghost use Rattle.std.specs.Prelude.{map};
    ghost use Rattle.std.specs.List.{All};
    ghost use Rattle.script_model.specs.Syntax.{Script};
    ghost use Rattle.script_syntax.specs.Codes.{script_code};

    ghost Value = { Script };

    ghost coded = { script_code };

    ghost use Rattle.script_syntax.specs.Seen.{item_of};
    ghost use Rattle.std.specs.Prelude.{bytes_eq};
    ghost use Rattle.indexmap.specs.IndexMap.{get};
    ghost use Rattle.script_syntax.specs.Allowed.{ItemAllowed};
    ghost use Rattle.script_syntax.specs.Indexes.{Indexed};
    ghost use Rattle.script_syntax.specs.Read.{IsRead};

    ghost view = { λ script. record { version = script.version; items = map item_of script.items.items } };

    ghost invariant = { λ script. All ItemAllowed script.items.items
        × IsRead (record { version = script.version; items = map item_of script.items.items })
        × Indexed (map item_of script.items.items) script.index.places.items (get bytes_eq script.index.numbers) };
}

impl Script {
    /// Creates the script of the first version with these items. They must be those of some text: operands, nesting, the names of
    /// handlers, line numbers and lengths of lines must be as the grammar requires. `script_text` defines which items these are,
    /// and its laws give the text. Fails only if an allocation fails.
    pub fn build(alloc: Global, items: Vec<Item>) -> Result<Script, AllocError>
        requires allowed { All ItemAllowed items.items }
        requires read { IsRead (record { version = First; items = map item_of items.items }) }
        ensures { IfOk result (λ script. script ≡ record { version = First; items = map item_of items.items }) }
    {
        Script::make(alloc, Version::First, items)
    }

    /// Creates the script of this version with these items. Fails only if an allocation fails.
    pub(crate) fn make(
        alloc: Global,
        version: Version,
        items: Vec<Item>,
    ) -> Result<Script, AllocError>
        requires allowed { All ItemAllowed items.items }
        requires read { IsRead (record { version = version; items = map item_of items.items }) }
        ensures { IfOk result (λ script. script ≡ record { version = version; items = map item_of items.items }) }
    {
        let index = index_of(alloc, items.as_slice())?;
        Ok(Script {
            version,
            items,
            index,
        })
    }

    /// Returns the version of the language that the script is written in.
    pub fn version(&self) -> Version
        ensures { result ≡ self.now.version }
    {
        self.version
    }

    /// Returns the items in the order of their lines. They are those of some text.
    pub fn items(&self) -> &[Item]
        ensures value { map item_of result.now ≡ self.now.items }
        ensures read { IsRead self.now }
        ensures allowed { All ItemAllowed result.now }
    {
        self.items.as_slice()
    }

    /// Returns the number of handlers.
    #[tactic(auto, using(crate::proofs::Handlers::handler_count))]
    pub fn handlers(&self) -> u32
        ensures { result ≡ length (handlers_in self.now.items) }
    {
        self.index.places.len() as u32
    }

    /// Returns the handler of this number, or `None` exactly if the number isn't less than `handlers`.
    pub fn handler(&self, number: u32) -> Option<&Handler>
        ensures value { option_map (λ handler. handler_of handler.now) result ≡ slice_get (handlers_in self.now.items) number }
        ensures item { option_map (λ handler. handler_item handler.now) result ≡ slice_get (filter is_handler self.now.items) number }
    {
        let place = self.index.places.get(number as usize)?;
        match self.items.get(*place)? {
            Item::Handler(handler) => Some(handler),
            _ => None,
        }
    }

    /// Returns the number of the handler of this name, or `None` exactly if there is none.
    pub fn handler_named(&self, name: Name) -> Option<u32>
        ensures { result ≡ handler_number self.now.items name }
    {
        self.index.numbers.get(&name).copied()
    }
}
