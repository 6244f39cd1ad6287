//! The tiles of a grid: which cells are whose, and which tile lies next to which.

ghost use Rattle.std.specs.Prelude.{◌≡◌, ℕ, ◌-◌, ◌*◌, ◌/◌, ◌%◌, ◌<◌, ◌≤◌};
ghost use Rattle.pic_num.specs.Space.{triple, spot};
ghost use Rattle.pic_block.specs.Cells.{IsWithin, count_of, index_of, cell_of};
ghost use Rattle.pic_grid.specs.Parts.{corner_of};
ghost use Rattle.pic_grid.specs.Tiles.{AreTiles, most_tiles};
ghost use Rattle.pic_tile.specs.Directions.{opposite, ring_step};
ghost use Rattle.pic_tile.specs.Tiling.{IsMap, cells_of, grid_of_tiling, tiles_of, IsInTile, owner_of, neighbour_of, place_in_tile};
ghost use Rattle.pic_tile.specs.Zones.{IsTileZone};

use crate::dir::Dir;
use pic_block::{Zone, count_in, index_in};
use pic_grid::Cells;
use std::marker::Model;

/// A grid cut into equal tiles of two layers of cells or more on each axis, numbered x fastest,
/// then y, then z.
#[derive(Clone, Copy, Debug, PartialEq, Eq)]
pub struct TileMap {
    cells: Cells,
    tiles: [u32; 3],
    layers: [u32; 3],
}

impl Model for TileMap {
    ghost use Rattle.pic_grid.specs.Arrays.{array_of_triple};
    ghost use Rattle.pic_tile.specs.Tiling.{Tiling, IsTileMap, tiling_of, grid_of_tiling};

    ghost Value = { Tiling };

    ghost view = { λ m. tiling_of m.cells.side m.tiles m.layers };

    ghost invariant = { λ m. IsTileMap m.cells m.tiles m.layers };

    ghost inverse = { λ t. record {
      cells = grid_of_tiling t;
      tiles = array_of_triple t.tiles;
      layers = array_of_triple t.size;
    } };

    ghost inverse_ok = { λ m h i. record {
      cells = record { n = h.whole i; side = m.cells.side };
      tiles = Rattle.pic_grid.specs.Arrays.array_of_triple-triple m.tiles h.tiles_long i;
      layers = Rattle.pic_grid.specs.Arrays.array_of_triple-triple m.layers h.layers_long i;
    } };
}

impl TileMap {
    /// The tiles of these cells, so many on x, y and z: each axis is cut into equal tiles of two
    /// layers or more, and there are at most 512 in all.
    pub fn new(cells: Cells, tiles: [u32; 3]) -> TileMap
        requires { AreTiles cells.n (triple tiles) }
        ensures value { result ≡ tiles_of cells (triple tiles) }
        ensures cells { grid_of_tiling result ≡ cells }
    {
        let [nx, ny, nz] = cells.numbers();
        let [tx, ty, tz] = tiles;
        let layers = [nx / tx, ny / ty, nz / tz];
        TileMap {
            cells,
            tiles,
            layers,
        }
    }

    /// The cells.
    pub fn cells(&self) -> Cells
        ensures { result ≡ grid_of_tiling self.now }
    {
        self.cells
    }

    /// The numbers of tiles on x, y and z.
    pub fn tiles(&self) -> [u32; 3]
        ensures value { triple result ≡ self.now.tiles }
        ensures limits { IsMap self.now }
    {
        self.tiles
    }

    /// How many tiles there are.
    pub fn count(&self) -> u32
        ensures value { result ≡ count_of self.now.tiles }
        ensures most { result ≤ most_tiles }
    {
        let [tx, ty, tz] = self.tiles;
        tx * ty * tz
    }

    /// How many cells each tile has.
    pub fn cells_of_tile(&self) -> usize
        ensures { result ≡ count_of self.now.size }
    {
        count_in(self.layers)
    }

    /// The number of `cell` among those of its tile, x fastest, then y, then z.
    #[inline(always)]
    pub fn number_in_tile(&self, cell: [u32; 3]) -> usize
        ensures value { result ≡ index_of self.now.size (place_in_tile self.now (triple cell)) }
        ensures below { result < count_of self.now.size }
    {
        let [nx, ny, nz] = self.layers;
        let [x, y, z] = cell;
        index_in(self.layers, [x % nx, y % ny, z % nz])
    }

    /// The tile of `cell`, one of the cells.
    pub fn owner(&self, cell: [u32; 3]) -> u32
        requires { IsWithin (triple cell) (cells_of self.now) }
        ensures value { result ≡ owner_of self.now (triple cell) }
        ensures below { result < count_of self.now.tiles }
        ensures has { IsInTile self.now result (triple cell) }
        ensures alone { (tile : ℕ) → tile < count_of self.now.tiles
            → IsInTile self.now tile (triple cell) → tile ≡ result }
    {
        let [nx, ny, nz] = self.layers;
        let [x, y, z] = cell;
        number_in(self.tiles, [x / nx, y / ny, z / nz])
    }

    /// The box of cells of a tile, whose number is below that of the tiles.
    pub fn zone(&self, tile: u32) -> Zone
        requires { tile < count_of self.now.tiles }
        ensures low { spot result.low ≡ corner_of self.now.size (cell_of self.now.tiles tile) }
        ensures size { triple result.size ≡ self.now.size }
        ensures tile { IsTileZone (spot result.low) (triple result.size) }
    {
        let [nx, ny, nz] = self.layers;
        let [x, y, z] = place_in(self.tiles, tile);
        let low = [(x * nx) as i32, (y * ny) as i32, (z * nz) as i32];
        Zone {
            low,
            size: self.layers,
        }
    }

    /// The tile that lies next to a tile, whose number is below that of the tiles, in a direction,
    /// round the grid where it is at the end. Where an axis has one tile alone, a step on it leads
    /// nowhere.
    pub fn neighbour(&self, tile: u32, dir: Dir) -> u32
        requires { tile < count_of self.now.tiles }
        ensures value { result ≡ neighbour_of self.now.tiles tile dir }
        ensures below { result < count_of self.now.tiles }
        ensures back { neighbour_of self.now.tiles result (opposite dir) ≡ tile }
    {
        let [tx, ty, tz] = self.tiles;
        let [x, y, z] = place_in(self.tiles, tile);
        let number = dir.number();
        let next = [
            step(tx, number % 3, x),
            step(ty, number / 3 % 3, y),
            step(tz, number / 9, z),
        ];
        number_in(self.tiles, next)
    }
}

/// The number of the tile at a place among so many on each axis.
#[tactic(auto, unfolding(pic_block::specs::Cells::index_of))]
fn number_in(tiles: [u32; 3], place: [u32; 3]) -> u32
    requires within { IsWithin (triple place) (triple tiles) }
    requires few { count_of (triple tiles) ≤ most_tiles }
    ensures value { result ≡ index_of (triple tiles) (triple place) }
    ensures below { result < count_of (triple tiles) }
{
    let [tx, ty, _] = tiles;
    let [x, y, z] = place;
    (z * ty + y) * tx + x
}

/// The place of a tile's number.
fn place_in(tiles: [u32; 3], tile: u32) -> [u32; 3]
    requires { tile < count_of (triple tiles) }
    ensures value { triple result ≡ cell_of (triple tiles) tile }
    ensures within { IsWithin (triple result) (triple tiles) }
{
    let [tx, ty, _] = tiles;
    [tile % tx, tile / tx % ty, tile / tx / ty]
}

/// Where a step leads round a ring of `count` places: step 0 down, 1 nowhere, 2 up.
#[tactic(auto, using(crate::proofs::RingLaws::ring_steps))]
fn step(count: u32, step: u32, at: u32) -> u32
    requires at { at < count }
    requires count { count ≤ most_tiles }
    requires step { step < 3 }
    ensures value { result ≡ ring_step count step at }
    ensures below { result < count }
{
    match step {
        0 => if at == 0 { count - 1 } else { at - 1 },
        1 => at,
        _ => if at + 1 == count { 0 } else { at + 1 },
    }
}
