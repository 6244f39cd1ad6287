//! What a particle gives, and the nodes that share it.

ghost use Rattle.std.specs.Prelude.{◌≡◌, pos, ◌^◌, ◌*ℤ◌, All};
ghost use Rattle.pic_num.specs.Limits.{most_charge};
ghost use Rattle.pic_num.specs.Sizes.{IsAtMost};
ghost use Rattle.pic_num.specs.Space.{Triple};
ghost use Rattle.pic_block.specs.Cells.{IsWithin};
ghost use Rattle.pic_grid.specs.Pair.{weight_in};
ghost use Rattle.pic_grid.specs.PushPhase.{kind_of, CanShare};
ghost use Rattle.pic_charge.specs.Charge.{share, IsCharged};
ghost use Rattle.pic_charge.specs.Spread.{spread, CanSpread};

use pic_grid::{Cells, Pair};
use pic_num::{Kind, Particle};

/// An amount, and the pair of nodes on each axis that share it.
#[derive(Clone, Copy)]
pub(crate) struct Cloud {
    pub amount: i64,
    pub x: Pair,
    pub y: Pair,
    pub z: Pair,
}

/// 12 times a particle's charge, and the nodes round it.
#[inline(always)]
pub(crate) fn cloud_of(cells: Cells, kinds: &[Kind], particle: &Particle) -> Cloud
    requires limits { All IsCharged kinds.now }
    requires placed { CanShare cells.side cells.n kinds.now particle.now }
    ensures amount { result.amount ≡ pos 12 *ℤ (kind_of kinds.now particle.now).charge }
    ensures x { CanSpread cells.n.x result.x }
    ensures y { CanSpread cells.n.y result.y }
    ensures z { CanSpread cells.n.z result.z }
    ensures shares { (p : Triple) → IsWithin p cells.n
        → spread result.amount (weight_in result.x) (weight_in result.y) (weight_in result.z) p
        ≡ share cells.side cells.n kinds.now particle.now p }
{
    let kind = kinds[particle.species as usize];
    let sub = cells.sub();
    let _side = sub.side();
    let [nx, ny, nz] = cells.numbers();
    let [x, y, z] = particle.x;
    Cloud {
        amount: twelvefold(kind.charge),
        x: Pair::of_nodes(sub, nx, x),
        y: Pair::of_nodes(sub, ny, y),
        z: Pair::of_nodes(sub, nz, z),
    }
}

/// 12 times a charge.
#[inline(always)]
fn twelvefold(charge: i32) -> i64
    requires { IsAtMost charge most_charge }
    ensures value { result ≡ pos 12 *ℤ charge }
    ensures size { IsAtMost result (2 ^ 19) }
{
    12 * i64::from(charge)
}
