//! Whether a grid can be cut into so many tiles, of a deck or beside one.

ghost use Rattle.std.specs.Prelude.{◌≡◌, ℕ, pos, ◌≤◌, IfOk, OnOk, OnErr, OkIff};
ghost use Rattle.pic_num.specs.Space.{triple};
ghost use Rattle.pic_walk.specs.Path.{path_of};
ghost use Rattle.pic_walk.specs.Walk.{WalksAs};
ghost use Rattle.pic_block.specs.Cells.{IsCells, IsSize, count_of};
ghost use Rattle.pic_grid.specs.Tiles.{IsTiled, AreTiles, most_tiles};
ghost use Rattle.pic_settings.specs.Tiles.{tiles_of_axis, few_tiles, tiles_fit};

use pic_walk::{Address, Limits, WalkStop, check_within};
use std::alloc::Global;

/// The most tiles of a grid.
const MAX_TILES: i64 = 1 << 9;

/// The tiles of an axis of so many cells: from 1 to half the cells, and none is left over.
pub(crate) fn check_axis_tiles(
    alloc: Global,
    address: Address<'_>,
    cells: u32,
    tiles: i64,
) -> Result<u32, WalkStop>
    ensures walks { WalksAs (λ (n : ℕ). n)
        (tiles_of_axis cells (path_of address.entry) tiles) result }
    ensures tiled { IfOk result (λ t. IsTiled cells t) }
    ensures beyond { OnErr result ((t : ℕ) → tiles ≡ pos t → IsTiled cells t → ⊥) }
{
    let half = i64::from(cells / 2);
    check_within(alloc, address, i128::from(tiles), Limits::new(1, half))?;
    let tiles = tiles as u32;
    check_within(alloc, address, i128::from(cells % tiles), Limits::new(0, 0))?;
    Ok(tiles)
}

fn tiles_in_all(tiles: [u32; 3]) -> u32
    requires { IsSize (triple tiles) }
    ensures { result ≡ count_of (triple tiles) }
{
    tiles[0] * tiles[1] * tiles[2]
}

/// Refuses the tiles of all three axes where together they are too many.
pub(crate) fn check_few_tiles(
    alloc: Global,
    address: Address<'_>,
    tiles: [u32; 3],
) -> Result<(), WalkStop>
    requires { IsSize (triple tiles) }
    ensures walks { WalksAs (λ _. tiles) (few_tiles (path_of address.entry) tiles) result }
    ensures few { OnOk result (count_of (triple tiles) ≤ most_tiles) }
    ensures beyond { OnErr result (count_of (triple tiles) ≤ most_tiles → ⊥) }
{
    let count = i128::from(tiles_in_all(tiles));
    check_within(alloc, address, count, Limits::new(1, MAX_TILES))?;
    Ok(())
}

/// Refuses tiles that a grid of these cells can't be cut into, as a deck with this `grid.tiles` is
/// refused: the tiles of each axis, and then of all together.
pub fn check_tiles(alloc: Global, cells: [u32; 3], tiles: [u32; 3]) -> Result<(), WalkStop>
    requires { IsCells (triple cells) }
    ensures walks { WalksAs (λ _. tt) (tiles_fit (triple cells) tiles) result }
    ensures exactly { OkIff result (AreTiles (triple cells) (triple tiles)) tt }
{
    let address = Address::new("grid", "tiles");
    check_axis_tiles(alloc, address.element(0), cells[0], i64::from(tiles[0]))?;
    check_axis_tiles(alloc, address.element(1), cells[1], i64::from(tiles[1]))?;
    check_axis_tiles(alloc, address.element(2), cells[2], i64::from(tiles[2]))?;
    check_few_tiles(alloc, address, tiles)?;
    Ok(())
}
