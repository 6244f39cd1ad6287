//! The layers of cells of a tile's parcels, by direction.

ghost use Rattle.std.specs.Prelude.{◌≡◌, pos, ◌+◌, ◌<◌, ◌≤◌, ◌≤ℤ◌, unsigned_abs};
ghost use Rattle.pic_num.specs.Limits.{most_cells_of_axis};
ghost use Rattle.pic_num.specs.Space.{triple, spot};
ghost use Rattle.pic_tile.specs.Layers.{layer_begin, layer_count, layer_low, layers_begin, layers_from, layers_size};
ghost use Rattle.pic_tile.specs.Zones.{IsTileZone};

use crate::dir::Dir;
use pic_block::Zone;

/// How many layers a step has on an axis of `size` layers.
#[tactic(auto, using(crate::proofs::LayerSteps::count_up))]
fn layer_count(size: u32, step: u32) -> u32
    ensures { result ≡ layer_count size step }
{
    match step {
        0 => 1,
        1 => size,
        _ => 2,
    }
}

/// The lowest layer of a step, on an axis of `size` layers from `low` on.
#[tactic(auto, using(crate::proofs::LayerSteps::low_up))]
fn layer_low(low: i32, size: u32, step: u32) -> i32
    requires low { pos 0 ≤ℤ low }
    requires high { unsigned_abs low + size ≤ most_cells_of_axis }
    ensures { result ≡ layer_low size low step }
{
    match step {
        0 => low - 1,
        1 => low,
        _ => low + size as i32,
    }
}

/// Which of a tile's layers the lowest of a step is there, on an axis of `size` layers.
#[tactic(auto, using(crate::proofs::LayerSteps::begin_on))]
fn layer_begin(size: u32, step: u32) -> u32
    requires { 0 < size }
    ensures { result ≡ layer_begin size step }
{
    if step == 0 { size - 1 } else { 0 }
}

/// The layers of a direction from the tile of a zone.
pub fn layers_zone(zone: Zone, dir: Dir) -> Zone
    requires { IsTileZone (spot zone.low) (triple zone.size) }
    ensures low { spot result.low ≡ layers_from (triple zone.size) (spot zone.low) dir }
    ensures size { triple result.size ≡ layers_size (triple zone.size) dir }
{
    let [low_x, low_y, low_z] = zone.low;
    let [nx, ny, nz] = zone.size;
    let [x, y, z] = dir.steps();
    Zone {
        low: [
            layer_low(low_x, nx, x),
            layer_low(low_y, ny, y),
            layer_low(low_z, nz, z),
        ],
        size: [layer_count(nx, x), layer_count(ny, y), layer_count(nz, z)],
    }
}

/// Where the layers of a direction that come to the tile of a zone begin in it.
pub fn layers_begin(zone: Zone, dir: Dir) -> [u32; 3]
    requires { IsTileZone (spot zone.low) (triple zone.size) }
    ensures { triple result ≡ layers_begin (triple zone.size) dir }
{
    let [nx, ny, nz] = zone.size;
    let [x, y, z] = dir.steps();
    [layer_begin(nx, x), layer_begin(ny, y), layer_begin(nz, z)]
}
