//! Where a piece of a path lies in its tile, and which layers of its cell the tile's blocks have.

ghost use Rattle.std.specs.Prelude.{◌≡◌, ◌⊎◌, pos, ◌≤◌, ◌≤ℤ◌, ◌<ℤ◌, IsTrue};
ghost use Rattle.pic_num.specs.Space.{triple, spot};
ghost use Rattle.pic_push.specs.Region.{IsInner, IsLevel, LiesIn, layers_at};

use pic_block::{Zone, is_among};
use pic_flux::Layers;
use pic_tile::Dir;

/// The number of the direction without a step.
pub(crate) const HERE: u32 = 13;

/// The number of the direction of a step up on x alone.
pub(crate) const UP_X: u32 = 14;

/// That of a step up on y alone.
pub(crate) const UP_Y: u32 = 16;

/// That of a step up on z alone.
pub(crate) const UP_Z: u32 = 22;

/// That of steps up on y and z, with none on x.
pub(crate) const UP_YZ: u32 = 25;

/// That of steps up on x and z, with none on y.
pub(crate) const UP_XZ: u32 = 23;

/// That of steps up on x and y, with none on z.
pub(crate) const UP_XY: u32 = 17;

/// Where a cell lies in its tile: in the tile's last layer on one axis at a face, and on the two
/// others than the axis of an edge there; on the rest of the axes it lies before that layer.
#[derive(Clone, Copy)]
pub(crate) enum Region {
    Inside,
    FaceX,
    FaceY,
    FaceZ,
    EdgeX,
    EdgeY,
    EdgeZ,
    Elsewhere,
}

/// Where a cell lies in the tile of a zone: most lie inside.
#[inline(always)]
pub(crate) fn region_of(zone: Zone, cell: [i32; 3]) -> Region
    ensures { LiesIn result (spot zone.low) (triple zone.size) (spot cell) }
{
    let [low_x, low_y, low_z] = zone.low;
    let [nx, ny, nz] = zone.size;
    let [x, y, z] = cell;
    if is_before_last(low_x, nx, x)
        && is_before_last(low_y, ny, y)
        && is_before_last(low_z, nz, z)
    {
        return Region::Inside;
    }
    let (x, y, z) = (
        level_on(low_x, nx, x),
        level_on(low_y, ny, y),
        level_on(low_z, nz, z),
    );
    match x + 3 * y + 9 * z {
        0 => Region::Inside,
        1 => Region::FaceX,
        3 => Region::FaceY,
        9 => Region::FaceZ,
        12 => Region::EdgeX,
        10 => Region::EdgeY,
        4 => Region::EdgeZ,
        _ => Region::Elsewhere,
    }
}

/// Whether a cell lies before the last layer on an axis on which a tile has `size` layers from
/// `low` on.
#[inline(always)]
fn is_before_last(low: i32, size: u32, cell: i32) -> bool
    ensures { IsTrue result → IsInner low size cell }
{
    is_among(low, size.saturating_sub(1), i64::from(cell))
}

/// Where a cell lies on an axis on which a tile has `size` layers from `low` on: 0 before the last
/// of them, 1 in it, 2 in none of them.
#[inline(always)]
fn level_on(low: i32, size: u32, cell: i32) -> u32
    ensures { IsLevel low size cell result }
{
    let above = i64::from(cell) - i64::from(low);
    let count = i64::from(size);
    outside(above, count) + outside(above, count - 1)
}

/// 0 for one of the first `count` numbers from 0 on, and 1 for any other.
#[inline(always)]
fn outside(number: i64, count: i64) -> u32
    ensures most { result ≤ 1 }
    ensures none { result ≡ 0 → (pos 0 ≤ℤ number) × (number <ℤ count) }
    ensures one { result ≡ 1 → (number <ℤ pos 0) ⊎ (count ≤ℤ number) }
{
    u32::from((number < 0) | (number >= count))
}

/// Which layers the block of a direction has of a cell, where on each axis the direction steps up
/// or not at all, and the cell is in the tile's last layer where `last` steps up.
#[inline(always)]
pub(crate) fn layers_at(last: Dir, up: Dir) -> Layers
    ensures { result ≡ layers_at last up }
{
    let [last_x, last_y, last_z] = last.steps();
    let [x, y, z] = up.steps();
    Layers {
        x: x != 2,
        y: y != 2,
        z: z != 2,
        up_x: (x == 2) | (last_x != 2),
        up_y: (y == 2) | (last_y != 2),
        up_z: (z == 2) | (last_z != 2),
    }
}
