//! Where the slots of a tile are.

ghost use Rattle.std.specs.Prelude.{◌≡◌, ◌<◌, ◌*◌, ◌≤◌};
ghost use Rattle.pic_grid.specs.Tiles.{most_tiles};
ghost use Rattle.pic_tile.specs.Directions.{directions};
ghost use Rattle.pic_yard.specs.Sits.{slot_at};

use pic_tile::Dir;

/// How many slots a tile has: a mailbox for each direction, and its home slot.
pub(crate) const SLOTS: usize = 28;

/// The mailbox of a tile for the parcel of a direction.
pub(crate) fn mailbox(tile: u32, dir: Dir) -> usize
    requires { tile ≤ most_tiles }
    ensures { result ≡ slot_at tile dir }
{
    tile as usize * SLOTS + dir.number() as usize
}

/// The home slot of a tile.
pub(crate) fn home(tile: u32) -> usize
    requires { tile ≤ most_tiles }
    ensures { result ≡ slot_at tile directions }
{
    tile as usize * SLOTS + Dir::COUNT as usize
}
