//! Where the components at a cell stand among those of a block, and how far from them those at the
//! next cells up: the block needn't have the cell.

ghost use Rattle.std.specs.Prelude.{◌≡◌, ◌+ℤ◌, ◌-ℤ◌, ◌*ℤ◌};
ghost use Rattle.std.specs.Int.{w64, int_wrap};
ghost use Rattle.pic_num.specs.Space.{spot};
ghost use Rattle.pic_block.specs.Fours.{IsBase, base_cell, base_number, step_by};

use crate::block::Block;
use pic_num::Axis;

/// A cell, the number of its place on x in a block, and how many places the block has for a
/// component in a row, in a layer and in all. It serves all blocks of one zone.
#[derive(Clone, Copy)]
pub struct Base {
    /// The cell, which isn't wrapped.
    pub cell: [i32; 3],
    /// The number of its place on x, in 64 bits.
    pub here: i64,
    /// How many places a component has in a row.
    pub row: i64,
    /// How many it has in a layer of z.
    pub layer: i64,
    /// How many it has in all.
    pub count: i64,
}

impl Base {
    /// The number of the place on `axis` at the cell, in 64 bits.
    #[inline(always)]
    pub(crate) fn first(&self, axis: Axis) -> i64
        ensures { result ≡ base_number self.now axis }
    {
        match axis {
            Axis::X => self.here,
            Axis::Y => sum(self.here, self.count),
            Axis::Z => sum(sum(self.here, self.count), self.count),
        }
    }

    /// How far the number of the next cell up `axis` is from a cell's.
    #[inline(always)]
    pub(crate) fn step(&self, axis: Axis) -> i64
        ensures { result ≡ step_by self.now axis }
    {
        match axis {
            Axis::X => 1,
            Axis::Y => self.row,
            Axis::Z => self.layer,
        }
    }
}

impl Block {
    /// Where the components at `cell` stand in the block, which needn't have the cell.
    #[inline(always)]
    pub fn base(&self, cell: [i32; 3]) -> Base
        ensures base { IsBase self.now.low self.now.size result }
        ensures cell { base_cell result ≡ spot cell }
    {
        let [low_x, low_y, low_z] = self.zone.low;
        let [nx, ny, nz] = self.zone.size;
        let [x, y, z] = cell;
        let (dx, dy, dz) = (over(low_x, x), over(low_y, y), over(low_z, z));
        let row = i64::from(nx);
        let layer = product(row, i64::from(ny));
        Base {
            cell,
            here: sum(sum(product(dz, layer), product(dy, row)), dx),
            row,
            layer,
            count: product(layer, i64::from(nz)),
        }
    }
}

/// How far `c` lies over `low`, or under it.
#[inline(always)]
fn over(low: i32, c: i32) -> i64
    ensures { result ≡ c -ℤ low }
{
    i64::from(c) - i64::from(low)
}

/// The sum in 64 bits.
#[inline(always)]
pub(crate) fn sum(a: i64, b: i64) -> i64
    ensures { result ≡ int_wrap w64 (a +ℤ b) }
{
    a.wrapping_add(b)
}

/// The product in 64 bits.
#[inline(always)]
fn product(a: i64, b: i64) -> i64
    ensures { result ≡ int_wrap w64 (a *ℤ b) }
{
    a.wrapping_mul(b)
}
