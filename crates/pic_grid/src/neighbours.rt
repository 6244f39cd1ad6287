//! The next cell up and down an axis, periodically.

ghost use Rattle.std.specs.Prelude.{◌≡◌, ◌+◌, ◌-◌, ◌%◌, ◌<◌};
ghost use Rattle.pic_num.specs.Space.{triple};
ghost use Rattle.pic_block.specs.Cells.{IsWithin};
ghost use Rattle.pic_grid.specs.Differences.{up, down};

use crate::cells::Cells;
use pic_num::Axis;

impl Cells {
    /// The next cell up an axis, periodically.
    pub fn up(self, axis: Axis, cell: [u32; 3]) -> [u32; 3]
        requires { IsWithin (triple cell) self.n }
        ensures value { triple result ≡ up self.n axis (triple cell) }
        ensures within { IsWithin (triple result) self.n }
    {
        let [nx, ny, nz] = self.n;
        let [x, y, z] = cell;
        match axis {
            Axis::X => [after(nx, x), y, z],
            Axis::Y => [x, after(ny, y), z],
            Axis::Z => [x, y, after(nz, z)],
        }
    }

    /// The next cell down an axis, periodically.
    pub fn down(self, axis: Axis, cell: [u32; 3]) -> [u32; 3]
        requires { IsWithin (triple cell) self.n }
        ensures value { triple result ≡ down self.n axis (triple cell) }
        ensures within { IsWithin (triple result) self.n }
    {
        let [nx, ny, nz] = self.n;
        let [x, y, z] = cell;
        match axis {
            Axis::X => [before(nx, x), y, z],
            Axis::Y => [x, before(ny, y), z],
            Axis::Z => [x, y, before(nz, z)],
        }
    }
}

/// The number after `number`, modulo `count`.
pub(crate) fn after(count: u32, number: u32) -> u32
    requires { number < count }
    ensures value { result ≡ (number + 1) % count }
    ensures below { result < count }
{
    if number + 1 == count { 0 } else { number + 1 }
}

/// The number before `number`, modulo `count`.
fn before(count: u32, number: u32) -> u32
    requires { number < count }
    ensures value { result ≡ (number + (count - 1)) % count }
    ensures below { result < count }
{
    if number == 0 { count - 1 } else { number - 1 }
}
