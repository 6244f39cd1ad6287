//! One component at a point, in a lattice of any parts: a mean of eight values under the weights of
//! three pairs.

ghost use Rattle.std.specs.Prelude.{◌≡◌, pos, ◌*◌, ◌^◌, ◌<◌, ◌≤◌};
ghost use Rattle.pic_num.specs.Limits.{most_force, most_side};
ghost use Rattle.pic_num.specs.Rounding.{rounded};
ghost use Rattle.pic_num.specs.Sizes.{IsAtMost};
ghost use Rattle.pic_num.specs.Space.{triple};
ghost use Rattle.pic_block.specs.Cells.{IsWithin};
ghost use Rattle.pic_grid.specs.Lattice.{value_at};
ghost use Rattle.pic_grid.specs.Pair.{IsPair};
ghost use Rattle.pic_gather.specs.Cube.{IsCubeOf};
ghost use Rattle.pic_gather.specs.Forces.{AreForces, row_sum, whole_sum};
ghost use Rattle.pic_gather.specs.Sides.{AreSidesOf};

use crate::cube::Cube;
use crate::mix::{mix, wide_mix};
use crate::sides::Sides;
use pic_grid::{Lattice, Pair};
use pic_num::Axis;

/// The force value at a cell.
fn value(force: &Lattice, axis: Axis, cell: [u32; 3]) -> i64
    requires small { AreForces force.now }
    requires within { IsWithin (triple cell) force.now.cells }
    ensures value { result ≡ value_at force.now axis (triple cell) }
    ensures size { IsAtMost result most_force }
{
    force.at(axis, cell) as i64
}

/// The weighted sum along the row at the layers `y` and `z`.
fn row(force: &Lattice, axis: Axis, x: Pair, y: u32, z: u32) -> i64
    requires small { AreForces force.now }
    requires most { force.now.side ≤ most_side }
    requires x_on { IsPair force.now.side force.now.cells.x x }
    requires y_in { y < force.now.cells.y }
    requires z_in { z < force.now.cells.z }
    ensures value { result ≡ row_sum force.now axis x y z }
    ensures size { IsAtMost result (most_force * force.now.side) }
{
    let low = value(force, axis, [x.low, y, z]);
    let high = value(force, axis, [x.high, y, z]);
    mix(low, high, x)
}

/// One component at a point: of all places eight have a weight, in four rows.
pub(crate) fn component(force: &Lattice, cube: Cube, axis: Axis, at: Sides) -> i64
    requires cube { IsCubeOf force.now.side cube }
    requires most { force.now.side ≤ most_side }
    requires small { AreForces force.now }
    requires on { AreSidesOf force.now at }
    ensures value { result ≡ rounded (whole_sum force.now axis at.x.pair at.y.pair at.z)
        (pos (force.now.side ^ 3)) }
    ensures size { IsAtMost result most_force }
{
    let x = at.x.pair;
    let y = at.y.pair;
    let z = at.z;
    let low_low = row(force, axis, x, y.low, z.low);
    let high_low = row(force, axis, x, y.high, z.low);
    let low_high = row(force, axis, x, y.low, z.high);
    let high_high = row(force, axis, x, y.high, z.high);
    let sum = wide_mix(low_low, high_low, low_high, high_high, y, z);
    cube.mean(sum)
}
