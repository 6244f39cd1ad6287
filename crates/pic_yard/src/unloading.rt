//! The slots of a board at its end.

ghost use Rattle.std.specs.Prelude.{◌≡◌, ℕ, ◌*◌, ◌<◌, ◌≤◌, suc, length};
ghost use Rattle.std.specs.Slots.{slots_len, IsFull};
ghost use Rattle.pic_grid.specs.Tiles.{most_tiles};
ghost use Rattle.pic_tile.specs.Directions.{directions};
ghost use Rattle.pic_yard.specs.Laying.{LiesHome, LiesThere};
ghost use Rattle.pic_yard.specs.Sits.{slot_at};
ghost use Rattle.pic_yard.specs.Unloading.{AreEmptied, HasTile, IsOut, slots_in};

use crate::slot_content::SlotContent;
use crate::slot_numbers::SLOTS;
use atomic_table::Closed;
use pic_tile::{Dir, Tile};
use std::alloc::Global;

/// Takes out what lies in the slots of a tile, which is left in its home slot.
fn take_tile(closed: &mut Closed<Option<SlotContent>, Global>, tile: usize) -> Tile
    requires few { tile < most_tiles }
    requires below { slot_at tile directions < slots_len closed.old.slots }
    requires home { HasTile (slots_in closed.old) tile }
    requires emptied { AreEmptied (tile * suc directions) closed.old }
    ensures tile { LiesThere (slots_in closed.old) tile result }
    ensures out { IsOut (suc tile * suc directions) closed.old closed.new }
{
    for d in 0..Dir::COUNT as usize {
        drop(closed.take(tile * SLOTS + d));
    }
    let Some(SlotContent::Tile(berth)) = closed.take(tile * SLOTS + SLOTS - 1) else {
        unreachable!()
    };
    let Some(tile) = berth.into_tile() else {
        unreachable!()
    };
    tile
}

/// Takes out what lies in all slots, and puts the tiles that lie in the home slots into a list.
pub(crate) fn unload(closed: &mut Closed<Option<SlotContent>, Global>, tiles: &mut [Tile])
    requires few { length tiles.old ≤ most_tiles }
    requires long { slots_len closed.old.slots ≡ length tiles.old * suc directions }
    requires full { IsFull closed.old.slots }
    requires homes { (t : ℕ) → t < length tiles.old → HasTile (slots_in closed.old) t }
    ensures out { IsOut (slots_len closed.old.slots) closed.old closed.new }
    ensures long { length tiles.new ≡ length tiles.old }
    ensures tiles { (t : ℕ) → t < length tiles.old
        → LiesHome tiles.new (slots_in closed.old) t }
{
    for t in 0..tiles.len() {
        tiles[t] = take_tile(closed, t);
    }
}
