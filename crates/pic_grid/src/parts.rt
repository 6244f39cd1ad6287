//! A lattice cut into equal parts, one block for each.

ghost use Rattle.std.specs.Prelude.{◌≡◌, ℕ, ℤ, pos, ◌*◌, ◌<◌, ◌≤◌, replicate, slice_index_or, IfOk};
ghost use Rattle.pic_num.specs.Limits.{most_cells_of_axis};
ghost use Rattle.pic_num.specs.Space.{triple, spot};
ghost use Rattle.pic_block.specs.Cells.{IsCells, IsSize, IsWithin, count_of, index_of, cell_of};
ghost use Rattle.pic_block.specs.Block.{no_block};
ghost use Rattle.pic_grid.specs.Lattice.{IsParts};
ghost use Rattle.pic_grid.specs.Parts.{part_size, part_with, corner_of, ArePartsOf};
ghost use Rattle.pic_grid.specs.Parts.{IsFactor, AreFactors};

use crate::cells::Cells;
use crate::slot::part_of as part_on;
use pic_block::{Block, Zone, count_in, index_in};
use pic_num::NoMemory;
use std::alloc::Global;

/// The layers of each part of the cells.
pub(crate) fn layers_of(cells: Cells, parts: [u32; 3]) -> [u32; 3]
    requires { IsParts cells.n (triple parts) }
    ensures value { triple result ≡ part_size cells.n (triple parts) }
    ensures cells { IsCells cells.n }
    ensures parts { IsSize (triple parts) }
    ensures layers { IsSize (triple result) }
{
    let [nx, ny, nz] = cells.n;
    let [px, py, pz] = parts;
    [nx / px, ny / py, nz / pz]
}

/// On each axis a little more than 2^15 over the layers of a part: by it the part of an index is
/// found without a division.
pub(crate) fn factors_of(layers: [u32; 3]) -> [u16; 3]
    requires { IsSize (triple layers) }
    ensures { AreFactors (triple layers) (triple result) }
{
    let [nx, ny, nz] = layers;
    [factor_of(nx), factor_of(ny), factor_of(nz)]
}

fn factor_of(layers: u32) -> u16
    requires { 0 < layers }
    ensures { IsFactor layers result }
{
    (32768 / layers + 1) as u16
}

/// The number of the part in which a cell lies, by the factors of the parts' layers.
pub(crate) fn part_in(parts: [u32; 3], layers: [u32; 3], factors: [u16; 3], cell: [u32; 3]) -> usize
    requires parts { IsSize (triple parts) }
    requires layers { IsSize (triple layers) }
    requires factors { AreFactors (triple layers) (triple factors) }
    requires x { (triple cell).x < most_cells_of_axis }
    requires y { (triple cell).y < most_cells_of_axis }
    requires z { (triple cell).z < most_cells_of_axis }
    requires within { IsWithin (part_with (triple layers) (triple cell)) (triple parts) }
    ensures { result ≡ index_of (triple parts) (part_with (triple layers) (triple cell)) }
{
    if count_in(parts) == 1 {
        return 0;
    }
    let [nx, ny, nz] = layers;
    let [fx, fy, fz] = factors;
    let [x, y, z] = cell;
    let part = [part_on(nx, fx, x), part_on(ny, fy, y), part_on(nz, fz, z)];
    index_in(parts, part)
}

/// The zone of the part of a number.
fn zone_of(parts: [u32; 3], layers: [u32; 3], number: usize) -> Zone
    requires parts { IsSize (triple parts) }
    requires layers { IsSize (triple layers) }
    requires below { number < count_of (triple parts) }
    ensures low { spot result.low ≡ corner_of (triple layers) (cell_of (triple parts) number) }
    ensures size { triple result.size ≡ triple layers }
{
    let [px, py, _] = parts;
    let [nx, ny, nz] = layers;
    let number = number as u32;
    let low = [
        start_of(number % px, nx),
        start_of(number / px % py, ny),
        start_of(number / px / py, nz),
    ];
    Zone { low, size: layers }
}

/// The first layer of a part on one axis.
fn start_of(part: u32, layers: u32) -> i32
    requires part { part ≤ most_cells_of_axis }
    requires layers { layers ≤ most_cells_of_axis }
    ensures { result ≡ pos (part * layers) }
{
    (part * layers) as i32
}

/// A block of zeros for each part, x fastest.
pub(crate) fn blocks_of(
    alloc: Global,
    cells: Cells,
    parts: [u32; 3],
) -> Result<Vec<Block>, NoMemory>
    requires { IsParts cells.n (triple parts) }
    ensures zones { IfOk result (λ v. ArePartsOf cells.n (triple parts) v.items) }
    ensures zeros { IfOk result (λ v. (i : ℕ) → i < count_of (triple parts)
        → (slice_index_or v.items i no_block).values
        ≡ replicate (3 * count_of (part_size cells.n (triple parts))) (pos 0)) }
{
    let layers = layers_of(cells, parts);
    let count = count_in(parts);
    let mut blocks = Vec::with_capacity(alloc, count)?;
    for number in 0..count {
        let zone = zone_of(parts, layers, number);
        let block = Block::new(alloc, zone)?;
        blocks.push(block)?;
    }
    Ok(blocks)
}
