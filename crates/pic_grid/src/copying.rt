//! A lattice given the values of another one, row by row, however the two are cut into parts.

ghost use Rattle.std.specs.Prelude.{◌≡◌, ℕ, pos, ◌+◌, ◌*◌, ◌^◌, ◌<◌, ◌≤◌, length, slice_index_or};
ghost use Rattle.pic_num.specs.Space.{triple, spot};
ghost use Rattle.pic_block.specs.Block.{IsAmongCells, outer_of};
ghost use Rattle.pic_block.specs.Cells.{IsWithin, count_of};
ghost use Rattle.pic_grid.specs.Copying.{AreAmong, AreCopied, IsCopied, IsRunOf, AreValuesOf};
ghost use Rattle.pic_grid.specs.Parts.{origin};

use crate::lattice::Lattice;
use pic_block::{Block, Place, Zone, row_start};
use pic_num::Axis;

impl Lattice {
    /// Gives it the values of a lattice of as many cells. Its side and its parts stay.
    pub fn copy_from(&mut self, from: &Lattice)
        requires { self.old.cells ≡ from.now.cells }
        ensures { self.new ≡ record from.now { side = self.old.side; parts = self.old.parts } }
    {
        let _cells = from.cells();
        copy_blocks(from, self.blocks.as_mut_slice());
    }
}

/// Gives blocks the values that a lattice has in their zones.
fn copy_blocks(from: &Lattice, blocks: &mut [Block])
    requires { AreAmong from.now.cells blocks.old }
    ensures { AreCopied from.now blocks.old blocks.new }
{
    for i in 0..blocks.len() {
        copy_zone(from, &mut blocks[i]);
    }
}

/// Gives a block the values that a lattice has in its zone.
fn copy_zone(from: &Lattice, to: &mut Block)
    requires { IsAmongCells to.old.low to.old.size from.now.cells }
    ensures { IsCopied from.now to.old to.new }
{
    let zone = to.zone();
    let [nx, _, _] = zone.size;
    if nx == 0 {
        return;
    }
    let low = lowest_of(zone, from);
    copy_rows(from, low, zone.size, to.values_mut());
}

/// The lowest cell of a zone that lies among a lattice's cells.
fn lowest_of(zone: Zone, from: &Lattice) -> [u32; 3]
    requires { IsAmongCells (spot zone.low) (triple zone.size) from.now.cells }
    ensures { triple result ≡ outer_of (spot zone.low) origin }
{
    let [x, y, z] = zone.low;
    [x as u32, y as u32, z as u32]
}

/// Gives `size` layers the values that a lattice has from the cell `low` on.
fn copy_rows(from: &Lattice, low: [u32; 3], size: [u32; 3], to: &mut [i128])
    requires x { (triple low).x + (triple size).x ≤ from.now.cells.x }
    requires y { (triple low).y + (triple size).y ≤ from.now.cells.y }
    requires z { (triple low).z + (triple size).z ≤ from.now.cells.z }
    requires some { 0 < (triple size).x }
    requires long { length to.old ≡ 3 * count_of (triple size) }
    ensures { AreValuesOf from.now (triple low) (triple size) to.new }
{
    let [nx, ny, nz] = size;
    let [x, low_y, low_z] = low;
    let rows = [1, ny, nz];
    let [_, _, _] = from.cells().numbers();
    let mut place = Place::first();
    for _row in 0..3 * (ny as usize * nz as usize) {
        let [_, y, z] = place.inner;
        let start = row_start(size, place.axis, y, z);
        let row = &mut to[start..start + nx as usize];
        copy_row(from, place.axis, [x, low_y + y, low_z + z], row);
        place = place.following(rows);
    }
}

/// Fills a row with the components of a lattice on `axis`, from `cell` on.
fn copy_row(from: &Lattice, axis: Axis, cell: [u32; 3], to: &mut [i128])
    requires within { IsWithin (triple cell) from.now.cells }
    requires end { (triple cell).x + length to.old ≤ from.now.cells.x }
    ensures { IsRunOf from.now axis (triple cell) (length to.old) to.new }
{
    let [_, _, _] = from.cells().numbers();
    let [x, y, z] = cell;
    let count = to.len();
    let mut done = 0;
    while done < count {
        let run = from.run(axis, [x + done as u32, y, z]);
        let more = run.len().min(count - done);
        to[done..done + more].copy_from_slice(&run[..more]);
        done = done + more;
    }
}
