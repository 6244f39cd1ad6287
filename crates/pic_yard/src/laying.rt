//! The slots of a board at its start.

ghost use Rattle.std.specs.Prelude.{◌≡◌, ◌≤◌, length, IfOk};
ghost use Rattle.pic_grid.specs.Tiles.{most_tiles};
ghost use Rattle.pic_tile.specs.Directions.{directions};
ghost use Rattle.pic_yard.specs.Laying.{AreLaid, HasBoxes};

use crate::slot_content::{Berth, SlotContent};
use crate::slot_numbers::SLOTS;
use pic_num::NoMemory;
use pic_tile::{Dir, Tile};
use std::alloc::Global;
use std::mem;

/// Lays the empty mailboxes of a tile.
fn lay_boxes(slots: &mut Vec<Option<SlotContent>>) -> Result<(), NoMemory>
    ensures { IfOk result (λ _. HasBoxes directions slots.old.items slots.new.items) }
{
    for _ in 0..Dir::COUNT {
        slots.push(None)?;
    }
    Ok(())
}

/// The slots of tiles, which are taken out of their list: for each its empty mailboxes, and itself
/// in its home slot.
///
/// # Errors
/// `NoMemory` where memory is refused.
pub(crate) fn lay(alloc: Global, tiles: &mut [Tile]) -> Result<Vec<Option<SlotContent>>, NoMemory>
    requires few { length tiles.old ≤ most_tiles }
    ensures laid { IfOk result (λ slots. AreLaid tiles.old (length tiles.old) slots.items) }
    ensures room { length tiles.new ≡ length tiles.old }
{
    let mut slots = Vec::with_capacity(alloc, tiles.len() * SLOTS)?;
    for t in 0..tiles.len() {
        lay_boxes(&mut slots)?;
        let tile = mem::replace(&mut tiles[t], Tile::bare(0));
        let berth = Berth::of(alloc, tile)?;
        slots.push(Some(SlotContent::Tile(berth)))?;
    }
    Ok(slots)
}
