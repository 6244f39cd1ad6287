//! The filter of a lattice, row by row into a block.

ghost use Rattle.std.specs.Prelude.{◌≡◌, ℕ, pos, ◌+◌, ◌*◌, ◌<◌, ◌≤◌, length};
ghost use Rattle.pic_num.specs.declared.axis.Axis.{Axis as AxisName};
ghost use Rattle.pic_num.specs.declared.axis.Axis.TheVariants.{Y, Z};
ghost use Rattle.pic_num.specs.Space.{Triple, triple, spot};
ghost use Rattle.pic_block.specs.Block.{IsAmongCells, IsShaped, AllAtMost, inner_at, outer_of};
ghost use Rattle.pic_block.specs.Cells.{IsWithin, count_of};
ghost use Rattle.pic_grid.specs.Copying.{IsRunOf, AreValuesOf};
ghost use Rattle.pic_grid.specs.Differences.{up};
ghost use Rattle.pic_grid.specs.Lattice.{EachAtMost, value_at};
ghost use Rattle.pic_grid.specs.Parts.{origin};
ghost use Rattle.pic_filter.specs.Kept.{AreSmall, HoldLines};
ghost use Rattle.pic_filter.specs.Smoothing.{smoothed, smoothed_along, smoothed_field, most_to_smooth, most_smoothed};

use crate::kept::{Kept, NONE, make_ready, take_in};
use crate::weights::weigh_row;
use pic_block::{Block, Place, Zone};
use pic_grid::{Cells, Lattice};
use pic_num::Axis;

/// For how many cells of a row there is room: two more than the most cells of an axis.
const CELLS_OF_ROW: usize = 130;

/// Makes every value of a block that of the filtered lattice there, whatever the block held: the
/// binomial filter along x, y and z (C. K. Birdsall and A. B. Langdon, "Plasma Physics via Computer
/// Simulation", appendix C), whose weights add up to 64. The lattice has these cells, the zone of the
/// block lies among them, and all values of the lattice are at most 2^83 in size. However the lattice
/// is cut into parts, those beside the zone are read too.
pub fn smooth(cells: Cells, from: &Lattice, to: &mut Block)
    requires same_cells { from.now.cells ≡ cells.n }
    requires among { IsAmongCells to.old.low to.old.size cells.n }
    requires small { EachAtMost most_to_smooth from.now }
    ensures shape { IsShaped to.new to.old }
    ensures values { (a : AxisName) → (p : Triple) → IsWithin p to.old.size
        → inner_at to.new a p ≡ smoothed cells.n (value_at from.now a) (outer_of to.old.low p) }
    ensures small { AllAtMost most_smoothed to.new }
{
    let zone = to.zone();
    let [nx, _, _] = zone.size;
    if nx == 0 {
        return;
    }
    let low = lowest_of(cells, zone);
    smooth_rows(from, low, zone.size, to.values_mut());
}

/// The lowest cell of a zone that lies among the cells.
fn lowest_of(cells: Cells, zone: Zone) -> [u32; 3]
    requires { IsAmongCells (spot zone.low) (triple zone.size) cells.n }
    ensures { triple result ≡ outer_of (spot zone.low) origin }
{
    let [_, _, _] = cells.numbers();
    let [x, y, z] = zone.low;
    [x as u32, y as u32, z as u32]
}

/// Gives `size` layers the values of the filtered lattice from the cell `low` on, row by row up y. Of
/// each row the cells are kept, and one more on either side.
fn smooth_rows(from: &Lattice, low: [u32; 3], size: [u32; 3], to: &mut [i128])
    requires x { (triple low).x + (triple size).x ≤ from.now.cells.x }
    requires y { (triple low).y + (triple size).y ≤ from.now.cells.y }
    requires z { (triple low).z + (triple size).z ≤ from.now.cells.z }
    requires some { 0 < (triple size).x }
    requires long { length to.old ≡ 3 * count_of (triple size) }
    requires small { EachAtMost most_to_smooth from.now }
    ensures { AreValuesOf (smoothed_field from.now) (triple low) (triple size) to.new }
{
    let [nx, ny, nz] = size;
    let [x, low_y, low_z] = low;
    let rows = [1, ny, nz];
    let [_, _, _] = from.cells().numbers();
    let mut room = [NONE; CELLS_OF_ROW];
    let kept = &mut room[..nx as usize + 2];
    let mut place = Place::first();
    let mut start = 0;
    for _row in 0..3 * (ny as usize * nz as usize) {
        let [_, y, z] = place.inner;
        let cell = [x, low_y + y, low_z + z];
        make_ready(from, place.axis, cell, y == 0, kept);
        smooth_row(
            from,
            place.axis,
            cell,
            kept,
            &mut to[start..start + nx as usize],
        );
        place = place.following(rows);
        start = start + nx as usize;
    }
}

/// Fills a row with the components of the filtered lattice on `axis`, from `cell` on: takes in the
/// line above it, so that what is kept is ready for the row there.
fn smooth_row(from: &Lattice, axis: Axis, cell: [u32; 3], kept: &mut [Kept], to: &mut [i128])
    requires within { IsWithin (triple cell) from.now.cells }
    requires end { (triple cell).x + length to.old ≤ from.now.cells.x }
    requires room { length kept.old ≡ length to.old + 2 }
    requires small { EachAtMost most_to_smooth from.now }
    requires kept_small { AreSmall kept.old }
    requires held { HoldLines from.now.cells
        (smoothed_along Z from.now.cells (value_at from.now axis)) (triple cell) kept.old }
    ensures row { IsRunOf (smoothed_field from.now) axis (triple cell) (length to.old) to.new }
    ensures holds { HoldLines from.now.cells
        (smoothed_along Z from.now.cells (value_at from.now axis))
        (up from.now.cells Y (triple cell)) kept.new }
    ensures small { AreSmall kept.new }
{
    take_in(from, axis, from.cells().up(Axis::Y, cell), kept);
    weigh_row(kept, to);
}
