//! The cells of a zone that lies among those of a grid.

ghost use Rattle.std.specs.Prelude.{◌≡◌, ◌*◌, ◌<◌, ◌≤◌};
ghost use Rattle.std.specs.Bool.{OnTrue, OnFalse};
ghost use Rattle.pic_num.specs.Limits.{most_cells_of_axis};
ghost use Rattle.pic_num.specs.Space.{triple, spot, unwrapped};
ghost use Rattle.pic_block.specs.Cells.{IsWithin, count_of};
ghost use Rattle.pic_block.specs.Block.{InZone, IsAmongCells, outer_of};
ghost use Rattle.pic_field.specs.Beside.{next_to, plane_room, swept_layer};
ghost use Rattle.pic_field.specs.Lines.{HasCells, line_start};

use pic_block::Zone;
use pic_grid::Cells;
use pic_num::Axis;

/// How many places a block has whose zone lies among the cells.
pub(crate) fn place_count(cells: Cells, zone: Zone) -> u32
    requires { IsAmongCells (spot zone.low) (triple zone.size) cells.n }
    ensures { result ≡ 3 * count_of (triple zone.size) }
{
    let [_, _, _] = cells.n;
    let [nx, ny, nz] = zone.size;
    3 * (nx * ny * nz)
}

/// How many cells a line of a zone among the cells has.
pub(crate) fn line_length(cells: Cells, zone: Zone) -> usize
    requires { IsAmongCells (spot zone.low) (triple zone.size) cells.n }
    ensures value { result ≡ (triple zone.size).x }
    ensures few { result ≤ most_cells_of_axis }
{
    let [_, _, _] = cells.n;
    let [nx, _, _] = zone.size;
    nx as usize
}

/// Whether a zone has no cell.
pub(crate) fn is_empty(zone: Zone) -> bool
    ensures none { OnTrue result (HasCells (triple zone.size) → ⊥) }
    ensures some { OnFalse result (HasCells (triple zone.size)) }
{
    let [nx, ny, nz] = zone.size;
    if nx == 0 {
        return true;
    }
    if ny == 0 {
        return true;
    }
    nz == 0
}

/// The cell of the grid that lies `inner` above the lowest of a zone.
pub(crate) fn cell_in(cells: Cells, zone: Zone, inner: [u32; 3]) -> [u32; 3]
    requires among { IsAmongCells (spot zone.low) (triple zone.size) cells.n }
    requires within { IsWithin (triple inner) (triple zone.size) }
    ensures value { triple result ≡ outer_of (spot zone.low) (triple inner) }
    ensures within { IsWithin (triple result) cells.n }
    ensures inside { InZone (spot zone.low) (triple zone.size) (unwrapped (triple result)) }
{
    let [_, _, _] = cells.n;
    let [low_x, low_y, low_z] = zone.low;
    let [x, y, z] = inner;
    [low_x as u32 + x, low_y as u32 + y, low_z as u32 + z]
}

/// The cell at which the planes begin that are of the line `y` and the layer `z` of a zone: that of
/// the line itself, or else a cell before it in x and a line before it in y.
pub(crate) fn corner_in(cells: Cells, zone: Zone, up: bool, y: u32, z: u32) -> [u32; 3]
    requires among { IsAmongCells (spot zone.low) (triple zone.size) cells.n }
    requires within { IsWithin (record { x = 0; y = y; z = z }) (triple zone.size) }
    ensures value { triple result ≡ plane_room up cells.n (line_start (spot zone.low) y z) }
    ensures within { IsWithin (triple result) cells.n }
{
    let here = cell_in(cells, zone, [0, y, z]);
    if up {
        return here;
    }
    let before = cells.down(Axis::Y, here);
    cells.down(Axis::X, before)
}

/// The cell beside one in z.
pub(crate) fn beside_in_z(cells: Cells, up: bool, cell: [u32; 3]) -> [u32; 3]
    requires { IsWithin (triple cell) cells.n }
    ensures value { triple result ≡ next_to up cells.n Axis.Z (triple cell) }
    ensures within { IsWithin (triple result) cells.n }
{
    if up {
        return cells.up(Axis::Z, cell);
    }
    cells.down(Axis::Z, cell)
}

/// The layer to which a sweep comes after `done` others, of `count`.
pub(crate) fn layer_of(up: bool, count: u32, done: u32) -> u32
    requires { done < count }
    ensures value { result ≡ swept_layer up count done }
    ensures below { result < count }
{
    if up { count - 1 - done } else { done }
}
