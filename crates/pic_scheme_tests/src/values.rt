//! Lattices and blocks of zeros but for listed values.

ghost use Rattle.std.specs.Prelude.{◌≡◌, ◌^◌, IfOk};
ghost use Rattle.pic_num.specs.Space.{triple, spot};
ghost use Rattle.pic_block.specs.Cells.{IsCells};
ghost use Rattle.pic_block.specs.Block.{IsShaped, AllAtMost};
ghost use Rattle.pic_grid.specs.Lattice.{EachAtMost, IsParts};

use pic_block::{Block, Zone};
use pic_grid::{Cells, Lattice};
use pic_num::{Axis, NoMemory, Sub};
use std::alloc::Global;

// a value of a lattice, and one of a block
pub(crate) type Value = (Axis, [u32; 3], i128);

pub(crate) type Edge = (Axis, [i32; 3], i128);

// The greatest size of a value, of a force value, and of a value that drives B.
pub(crate) const MAX_VALUE: u128 = 1 << 90;

pub(crate) const MAX_FORCE: u128 = 1 << 44;

pub(crate) const MAX_DRIVE: u128 = 1 << 64;

// A lattice of zeros in so many parts but for these values, as far as they are at most `most` in size.
pub(crate) fn lattice_in(
    alloc: Global,
    cells: Cells,
    parts: [u32; 3],
    most: u128,
    values: &[Value],
) -> Result<Lattice, NoMemory>
    requires { IsParts cells.n (triple parts) }
    ensures cells { IfOk result (λ f. f.cells ≡ cells.n) }
    ensures side { IfOk result (λ f. f.side ≡ cells.side) }
    ensures parts { IfOk result (λ f. f.parts ≡ triple parts) }
    ensures small { IfOk result (EachAtMost most) }
{
    let mut field = Lattice::new(alloc, cells, parts)?;
    for (axis, cell, value) in values {
        put(&mut field, most, *axis, *cell, *value);
    }
    Ok(field)
}

// The same in one part, in cells of 2^12 sub-cells.
pub(crate) fn lattice_of(
    alloc: Global,
    n: [u32; 3],
    most: u128,
    values: &[Value],
) -> Result<Lattice, NoMemory>
    requires { IsCells (triple n) }
    ensures cells { IfOk result (λ f. f.cells ≡ triple n) }
    ensures small { IfOk result (EachAtMost most) }
{
    lattice_in(alloc, Cells::new(n, Sub::of_bits(12)), [1; 3], most, values)
}

fn put(field: &mut Lattice, most: u128, axis: Axis, cell: [u32; 3], value: i128)
    requires { EachAtMost most field.old }
    ensures cells { field.new.cells ≡ field.old.cells }
    ensures side { field.new.side ≡ field.old.side }
    ensures parts { field.new.parts ≡ field.old.parts }
    ensures small { EachAtMost most field.new }
{
    let [nx, ny, nz] = field.cells().numbers();
    let [x, y, z] = cell;
    if x >= nx || y >= ny || z >= nz {
        return;
    }
    if value.unsigned_abs() > most {
        return;
    }
    field.set(axis, cell, value);
}

// A block of zeros but for these values.
pub(crate) fn block_of(alloc: Global, zone: Zone, values: &[Edge]) -> Result<Block, NoMemory>
    ensures low { IfOk result (λ b. b.low ≡ spot zone.low) }
    ensures size { IfOk result (λ b. b.size ≡ triple zone.size) }
    ensures small { IfOk result (AllAtMost (2 ^ 90)) }
{
    let mut block = Block::new(alloc, zone)?;
    for (axis, cell, value) in values {
        put_edge(&mut block, *axis, *cell, *value);
    }
    Ok(block)
}

fn put_edge(block: &mut Block, axis: Axis, cell: [i32; 3], value: i128)
    requires { AllAtMost (2 ^ 90) block.old }
    ensures shape { IsShaped block.new block.old }
    ensures small { AllAtMost (2 ^ 90) block.new }
{
    if !block.has(cell) {
        return;
    }
    if value.unsigned_abs() > 1 << 90 {
        return;
    }
    block.set(axis, cell, value);
}

// the value of a block at a cell of its zone
pub(crate) fn read(block: &Block, axis: Axis, cell: [i32; 3]) -> i128 {
    if block.has(cell) {
        block.at(axis, cell)
    } else {
        0
    }
}
