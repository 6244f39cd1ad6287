//! Whose cell is whose, and which tile is whose neighbour.

ghost use Rattle.std.specs.Prelude.{◌≡◌};
ghost use Rattle.pic_num.specs.Space.{triple};
ghost use Rattle.pic_grid.specs.Tiles.{AreTiles};
ghost use Rattle.pic_tile.specs.Tiling.{cells_of};

use pic_grid::Cells;
use pic_num::Sub;
use pic_tile::{Dir, TileMap};

// [4, 4, 4] cells in such tiles
fn four(tiles: [u32; 3]) -> TileMap
    requires { AreTiles (record { x = 4; y = 4; z = 4 }) (triple tiles) }
    ensures { cells_of result ≡ record { x = 4; y = 4; z = 4 } }
{
    TileMap::new(Cells::new([4, 4, 4], Sub::of_bits(8)), tiles)
}

// a tile's number differs by `bit` where it lies in the upper half of an axis
fn if_upper(upper: bool, bit: u32) -> u32 {
    if upper { bit } else { 0 }
}

// of an axis that is cut in two, or has one tile alone where `bit` is 0
fn low_of(at: u32, bit: u32) -> i32 {
    if at >= 2 && bit != 0 { 2 } else { 0 }
}

// each of [4, 4, 4] cells is in the tile whose bits say on which axes it lies in the upper half
fn are_halves(map: &TileMap, bits: [u32; 3]) -> bool
    requires { cells_of map.now ≡ record { x = 4; y = 4; z = 4 } }
{
    let [bx, by, bz] = bits;
    for number in 0..64 {
        let (x, y, z) = (number % 4, number / 4 % 4, number / 16);
        let owner = map.owner([x, y, z]);
        if owner != if_upper(x >= 2, bx) ^ if_upper(y >= 2, by) ^ if_upper(z >= 2, bz) {
            return false;
        }
        if map.zone(owner).low != [low_of(x, bx), low_of(y, by), low_of(z, bz)] {
            return false;
        }
    }
    true
}

// each step leads into the other half
fn are_rings(map: &TileMap, bits: [u32; 3]) -> bool {
    let [bx, by, bz] = bits;
    for number in 0..map.count() * Dir::COUNT {
        let (tile, dir) = (number / 27, number % 27);
        let (x, y, z) = (dir % 3, dir / 3 % 3, dir / 9);
        let next = map.neighbour(tile, Dir::of(dir));
        let steps = if_upper(x != 1, bx) ^ if_upper(y != 1, by) ^ if_upper(z != 1, bz);
        if next != tile ^ steps {
            return false;
        }
    }
    true
}

#[test]
fn tiles_are_halves_of_the_axes(rt: HostRuntime) {
    let eight = four([2, 2, 2]);
    assert_eq!(rt; eight.count(), 8);
    assert_eq!(rt; eight.zone(7).size, [2, 2, 2]);
    assert!(rt; are_halves(&eight, [1, 2, 4]));
    assert!(rt; are_rings(&eight, [1, 2, 4]));
    let two = four([1, 2, 1]);
    assert_eq!(rt; two.count(), 2);
    assert_eq!(rt; two.zone(1).size, [4, 2, 4]);
    assert!(rt; are_halves(&two, [0, 1, 0]));
    assert!(rt; are_rings(&two, [0, 1, 0]));
    let one = four([1, 1, 1]);
    assert_eq!(rt; one.count(), 1);
    assert_eq!(rt; one.zone(0).size, [4, 4, 4]);
    assert!(rt; are_halves(&one, [0, 0, 0]));
    assert!(rt; are_rings(&one, [0, 0, 0]));
}

#[test]
fn tiles_follow_each_other_round_an_axis(rt: HostRuntime) {
    let cells = Cells::new([8, 2, 2], Sub::of_bits(8));
    let map = TileMap::new(cells, [4, 1, 1]);
    assert_eq!(rt; map.cells(), cells);
    assert_eq!(rt; map.tiles(), [4, 1, 1]);
    assert_eq!(rt; map.count(), 4);
    for (tile, dir, next) in [
        (0, 14, 1),
        (0, 12, 3),
        (3, 14, 0),
        (2, 12, 1),
        (2, 26, 3),
        (0, 0, 3),
        (1, 13, 1),
    ] {
        if tile < map.count() && dir < Dir::COUNT {
            assert_eq!(rt; map.neighbour(tile, Dir::of(dir)), next, "{tile} {dir}");
        }
    }
}

#[test]
fn the_largest_grid_has_the_most_tiles(rt: HostRuntime) {
    let cells = Cells::new([128, 128, 128], Sub::of_bits(14));
    let map = TileMap::new(cells, [8, 8, 8]);
    assert_eq!(rt; map.count(), 512);
    assert_eq!(rt; map.owner([127, 127, 127]), 511);
    assert_eq!(rt; map.zone(511).low, [112, 112, 112]);
    assert_eq!(rt; map.zone(511).size, [16, 16, 16]);
    assert_eq!(rt; map.neighbour(511, Dir::of(26)), 0);
}
