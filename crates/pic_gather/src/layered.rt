//! One component at a point, in a lattice with a part for each layer of z: the values of a layer
//! stand in one list, and the number of a place in it is a sum of three numbers.

ghost use Rattle.std.specs.Prelude.{◌≡◌, pos, ◌+◌, ◌*◌, ◌^◌, ◌≤◌, ◌+ℤ◌, ◌*ℤ◌, IsTrue, slice_index_or};
ghost use Rattle.pic_num.specs.Limits.{most_force, most_side};
ghost use Rattle.pic_num.specs.Rounding.{rounded};
ghost use Rattle.pic_num.specs.Sizes.{IsAtMost};
ghost use Rattle.pic_block.specs.Weak.{most_weak};
ghost use Rattle.pic_grid.specs.Parts.{IsLayer};
ghost use Rattle.pic_gather.specs.Cube.{IsCubeOf};
ghost use Rattle.pic_gather.specs.Forces.{AreForces, IsForce, whole_sum};
ghost use Rattle.pic_gather.specs.Sides.{AreSidesOf};
ghost use Rattle.pic_gather.specs.Weak.{AreWeakLayers};

use crate::cube::Cube;
use crate::mix::{mix, weak_sum, wide_mix};
use crate::sides::{Side, Sides};
use pic_grid::Lattice;
use pic_num::Axis;

/// The values of the two layers of z between whose places a point lies, and whether they are known to
/// be weak, in cells of few enough sub-cells.
#[derive(Clone, Copy)]
pub(crate) struct Layers<'a> {
    pub(crate) low: &'a [i128],
    pub(crate) high: &'a [i128],
    pub(crate) weak: bool,
}

/// The weighted sum along a row whose first place has the number `start`.
#[inline(always)]
fn row(values: &[i128], start: usize, x: Side) -> i64
    requires low { IsForce values.now (start + x.low) }
    requires high { IsForce values.now (start + x.high) }
    requires most { x.pair.low_weight + x.pair.high_weight ≤ most_side }
    ensures value { result
        ≡ slice_index_or values.now (start + x.low) (pos 0) *ℤ pos x.pair.low_weight
        +ℤ slice_index_or values.now (start + x.high) (pos 0) *ℤ pos x.pair.high_weight }
    ensures size { IsAtMost result (most_force * (x.pair.low_weight + x.pair.high_weight)) }
    ensures weak { IsAtMost (slice_index_or values.now (start + x.low) (pos 0)) most_weak
        → IsAtMost (slice_index_or values.now (start + x.high) (pos 0)) most_weak
        → IsAtMost result (most_weak * (x.pair.low_weight + x.pair.high_weight)) }
{
    let low = values[start + x.low] as i64;
    let high = values[start + x.high] as i64;
    mix(low, high, x.pair)
}

/// One component of `force` at a point between two layers, which may be known to be weak.
#[inline(always)]
pub(crate) fn layered_component(
    force: &Lattice,
    cube: Cube,
    axis: Axis,
    at: Sides,
    layers: Layers,
) -> i64
    requires low { IsLayer force.now at.z.low layers.low.now }
    requires high { IsLayer force.now at.z.high layers.high.now }
    requires weak { IsTrue layers.weak → AreWeakLayers force.now at.z }
    requires cube { IsCubeOf force.now.side cube }
    requires most { force.now.side ≤ most_side }
    requires small { AreForces force.now }
    requires on { AreSidesOf force.now at }
    ensures value { result ≡ rounded (whole_sum force.now axis at.x.pair at.y.pair at.z)
        (pos (force.now.side ^ 3)) }
    ensures size { IsAtMost result most_force }
{
    let Sides { x, y, z } = at;
    let [nx, ny, _] = force.cells().numbers();
    let first = axis.number() as usize * (nx as usize * ny as usize);
    let Layers { low, high, weak } = layers;
    let low_low = row(low, first + y.low, x);
    let high_low = row(low, first + y.high, x);
    let low_high = row(high, first + y.low, x);
    let high_high = row(high, first + y.high, x);
    if weak {
        let sum = weak_sum(low_low, high_low, low_high, high_high, y.pair, z);
        return cube.weak_mean(sum);
    }
    let sum = wide_mix(low_low, high_low, low_high, high_high, y.pair, z);
    cube.mean(sum)
}
