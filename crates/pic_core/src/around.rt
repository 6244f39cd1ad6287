//! The tiles that lie next to a tile, all at once.

ghost use Rattle.std.specs.Prelude.{◌≡◌, ℕ, ◌+◌, ◌-◌, ◌*◌, ◌<◌, ◌≤◌, slice_index_or};
ghost use Rattle.pic_block.specs.Cells.{count_of};
ghost use Rattle.pic_tile.specs.Directions.{directions, here};
ghost use Rattle.pic_tile.specs.Tiling.{neighbour_of};

use pic_tile::{Dir, TileMap};

/// The tiles that lie next to a tile, by direction. Those beside it on an axis give the others.
pub(crate) fn neighbours(map: &TileMap, tile: u32) -> [u32; 27]
    requires { tile < count_of map.now.tiles }
    ensures { (d : ℕ) → d < directions
        → slice_index_or result d 0 ≡ neighbour_of map.now.tiles tile d }
{
    let _most = map.count();
    let [down, own, up] = beside(map, tile, 1);
    let middles = middles(map, tile);
    let mut all = [tile; 27];
    for row in 0..9 {
        let middle = middles[row];
        all[row * 3] = down + middle - tile;
        all[row * 3 + 1] = own + middle - tile;
        all[row * 3 + 2] = up + middle - tile;
    }
    all
}

/// The middle of each row on x of the tiles next to a tile.
fn middles(map: &TileMap, tile: u32) -> [u32; 9]
    requires { tile < count_of map.now.tiles }
    ensures { (k : ℕ) → k < 9
        → slice_index_or result k 0 ≡ neighbour_of map.now.tiles tile (1 + k * 3) }
{
    let _most = map.count();
    let ys = beside(map, tile, 3);
    let zs = beside(map, tile, 9);
    let mut all = [tile; 9];
    for row in 0..9 {
        let y = ys[row % 3];
        let z = zs[row / 3];
        all[row] = y + z - tile;
    }
    all
}

/// On one axis the tile a step down, the tile itself, and that a step up. A step up makes the number
/// of a direction larger by `step`: 1 on x, 3 on y, 9 on z.
fn beside(map: &TileMap, tile: u32, step: u32) -> [u32; 3]
    requires tile { tile < count_of map.now.tiles }
    requires step { step ≤ here }
    ensures { (e : ℕ) → e < 3
        → slice_index_or result e 0 ≡ neighbour_of map.now.tiles tile (here - step + e * step) }
{
    let here = Dir::HERE.number();
    [
        map.neighbour(tile, Dir::of(here - step)),
        map.neighbour(tile, Dir::HERE),
        map.neighbour(tile, Dir::of(here + step)),
    ]
}
