//! An index of the handlers of a script.

ghost use Rattle.std.specs.Prelude.{map, IfOk, bytes_eq};
ghost use Rattle.indexmap.specs.IndexMap.{get};
ghost use Rattle.script_syntax.specs.Indexes.{Indexed, Noted};
ghost use Rattle.script_syntax.specs.Seen.{item_of};

use crate::commands::Item;
use indexmap::IndexMap;
use std::alloc::{AllocError, Global};
use text_io::Name;

/// The positions of the handlers among the items, in order, and the number of each by its name.
#[derive(Drop)]
pub struct Index {
    pub places: Vec<usize>,
    pub numbers: IndexMap<Name, u32>,
}

/// Indexes the handlers of these items.
#[tactic(auto, using(crate::proofs::Handlers::all_noted))]
pub fn index_of(alloc: Global, items: &[Item]) -> Result<Index, AllocError>
    ensures { IfOk result (λ index. Indexed (map item_of items.now) index.places.items (get bytes_eq index.numbers)) }
{
    let mut index = Index {
        places: Vec::new(alloc),
        numbers: IndexMap::new(alloc),
    };
    for (place, item) in items.iter().enumerate() {
        if let Item::Handler(handler) = item {
            note(&mut index, place, handler.name)?;
        }
    }
    Ok(index)
}

/// Adds a handler of this name and position, which comes after those added so far.
fn note(index: &mut Index, place: usize, name: Name) -> Result<(), AllocError>
    ensures { IfOk result (λ noted. Noted place name index.old.places.items (get bytes_eq index.old.numbers) index.new.places.items (get bytes_eq index.new.numbers)) }
{
    let number = match u32::try_from(index.places.len()) {
        Ok(number) if number < u32::MAX => number,
        _ => return Err(AllocError),
    };
    index.places.push(place)?;
    if !index.numbers.contains_key(&name) {
        index.numbers.insert(name, number)?;
    }
    Ok(())
}
