//! Rows of a block: the places of one component side by side in x.

ghost use Rattle.std.specs.Prelude.{◌≡◌, ℕ, pos, ◌+◌, ◌*◌, ◌^◌, ◌<◌, ◌≤◌, length, slice_index_or};
ghost use Rattle.std.specs.Borrow.{sem};
ghost use Rattle.pic_num.specs.Space.{triple};
ghost use Rattle.pic_block.specs.Cells.{count_of};
ghost use Rattle.pic_block.specs.Block.{inner_at};
ghost use Rattle.pic_block.specs.Lending.{LendsValues};
ghost use Rattle.pic_block.specs.Rows.{row_of};

use crate::block::Block;
use pic_num::Axis;

impl Block {
    /// The components on `axis` along the row at the layers `y` and `z`, counted from the zone's
    /// lowest.
    pub fn row(&self, axis: Axis, y: u32, z: u32) -> &[i128]
        requires y { y < self.now.size.y }
        requires z { z < self.now.size.z }
        ensures length { length result.now ≡ self.now.size.x }
        ensures values { (x : ℕ) → x < self.now.size.x
            → slice_index_or result.now x (pos 0)
            ≡ inner_at self.now axis (record { x = x; y = y; z = z }) }
    {
        let values = self.values.as_slice();
        let start = row_start(self.zone.size, axis, y, z);
        let [nx, _, _] = self.zone.size;
        &values[start..start + nx as usize]
    }

    /// The number, among the block's components, of the first on `axis` along the row at the layers
    /// `y` and `z`, counted from the zone's lowest.
    #[inline(always)]
    pub fn row_start(&self, axis: Axis, y: u32, z: u32) -> usize
        requires y { y < self.now.size.y }
        requires z { z < self.now.size.z }
        ensures value { result ≡ row_of self.now.size axis y z }
        ensures end { result + self.now.size.x ≤ length self.now.values }
    {
        let _count = self.values.len();
        row_start(self.zone.size, axis, y, z)
    }

    /// The components: x fastest, then y, z and the axis. The rows stand where `row_start` finds them.
    #[inline(always)]
    pub fn values(&self) -> &[i128]
        ensures value { result.now ≡ self.now.values }
        ensures shape { length result.now ≡ 3 * count_of self.now.size }
    {
        self.values.as_slice()
    }

    /// The components, for writing. They stand as in `values`.
    #[inline(always)]
    pub fn values_mut(&mut self) -> &mut [i128]
        ensures* writes_back { sem 𝓛 (LendsValues self.entry result) }
        ensures value { result.now ≡ self.old.values }
        ensures shape { length result.now ≡ 3 * count_of self.old.size }
    {
        self.blank = false;
        self.weak = false;
        self.values.as_mut_slice()
    }
}

/// The number of the first place of the row on `axis` at the layers `y` and `z` of a box.
pub fn row_start(size: [u32; 3], axis: Axis, y: u32, z: u32) -> usize
    requires y { y < (triple size).y }
    requires z { z < (triple size).z }
    requires room { 3 * count_of (triple size) < 2 ^ 64 }
    ensures value { result ≡ row_of (triple size) axis y z }
    ensures end { result + (triple size).x ≤ 3 * count_of (triple size) }
{
    let [nx, ny, nz] = size;
    let plane = ny as usize * nx as usize;
    let layer = axis.number() as usize * nz as usize + z as usize;
    layer * plane + y as usize * nx as usize
}
