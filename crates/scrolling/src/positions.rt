//! Stored scroll positions, by number.

ghost use Rattle.std.specs.Prelude.{◌≡◌, ◌<◌, map, vec_len, vec_capacity, OnOk, IsOk};
ghost use Rattle.page_model.specs.Lookups.{no_extent, entry_or, put_at};
ghost use Rattle.scrolling.specs.Positions.{seen_position};

use std::alloc::AllocError;

// To the right and downwards.
#[derive(Clone, Copy)]
pub(crate) struct Position {
    pub(crate) across: u64,
    pub(crate) down: u64,
}

const START: Position = Position { across: 0, down: 0 };

// Returns the position stored for a number, 0 if there is none.
pub(crate) fn position_at(held: &[Position], number: u32) -> Position
    ensures { seen_position result ≡ entry_or no_extent (map seen_position held.now) number }
{
    match held.get(number as usize) {
        Some(position) => *position,
        None => START,
    }
}

// Reserves capacity for a number's position.
pub(crate) fn reserve_place(held: &mut Vec<Position>, number: u32) -> Result<(), AllocError>
    ensures items { held.new.items ≡ held.old.items }
    ensures room { OnOk result (number < vec_capacity held.new) }
    ensures there { number < vec_len held.old → IsOk result }
{
    let count = number as usize + 1;
    held.reserve(count.saturating_sub(held.len()))
}

// Stores a number's position, for which there is capacity.
pub(crate) fn store(held: &mut Vec<Position>, number: u32, position: Position)
    requires { number < vec_capacity held.old }
    ensures { map seen_position held.new.items ≡ put_at no_extent number (seen_position position) (map seen_position held.old.items) }
{
    let place = number as usize;
    if place < held.len() {
        held[place] = position;
        return;
    }
    let Ok(()) = held.resize(place, START) else {
        return;
    };
    held.push_reserved(position);
}
