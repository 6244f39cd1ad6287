//! The turn of a velocity by the magnetic field.

ghost use Rattle.std.specs.Prelude.{◌≡◌, pos, ◌^◌, ◌+ℤ◌, ◌-ℤ◌, ◌*ℤ◌, ◌<ℤ◌, ◌≤ℤ◌};
ghost use Rattle.pic_num.specs.Push.{cross, dot, half_turned, turned};
ghost use Rattle.pic_num.specs.Rounding.{rounded};
ghost use Rattle.pic_num.specs.Sizes.{IsAtMost};
ghost use Rattle.pic_boris.specs.Vector.{spot_of};
ghost use Rattle.pic_num.specs.Space.{AreAtMost};

use crate::vector::{Vector, rounded_shift};
use pic_num::rdiv;

/// A turn is in units of 1 / 2^20.
pub const TURN_BITS: u32 = 20;

/// One, squared, in those units.
const ONE_SQUARED: i128 = 1 << (2 * TURN_BITS);

/// Two, in those units.
pub const TWO: i128 = 1 << (TURN_BITS + 1);

/// A minor of two vectors: one component of their cross product.
fn minor(a: i128, b: i128, c: i128, d: i128) -> i128
    requires a_small { IsAtMost a (2 ^ 46) }
    requires b_small { IsAtMost b (2 ^ 24) }
    requires c_small { IsAtMost c (2 ^ 46) }
    requires d_small { IsAtMost d (2 ^ 24) }
    ensures value { result ≡ a *ℤ b -ℤ c *ℤ d }
    ensures size { IsAtMost result (2 ^ 71) }
{
    a * b - c * d
}

/// The cross product of a velocity and a turn.
#[tactic(auto, unfolding(pic_num::specs::Push::cross))]
fn cross_of(v: Vector, t: Vector) -> Vector
    requires v_small { AreAtMost (spot_of v) (2 ^ 46) }
    requires t_small { AreAtMost (spot_of t) (2 ^ 24) }
    ensures value { spot_of result ≡ cross (spot_of v) (spot_of t) }
    ensures size { AreAtMost (spot_of result) (2 ^ 71) }
{
    Vector {
        x: minor(v.y, t.z, v.z, t.y),
        y: minor(v.z, t.x, v.x, t.z),
        z: minor(v.x, t.y, v.y, t.x),
    }
}

/// One component of the first turn: the velocity's `v`, and the cross product's `w` over 2^20.
fn half_part(v: i128, w: i128) -> i128
    requires v_small { IsAtMost v (2 ^ 40) }
    requires w_small { IsAtMost w (2 ^ 71) }
    ensures { result ≡ v +ℤ rounded w (pos (2 ^ 20)) }
{
    v + rounded_shift(w, TURN_BITS)
}

/// Boris's first turn of the velocity `v` by the turn `t`.
fn turned_half(v: Vector, t: Vector) -> Vector
    requires v_small { AreAtMost (spot_of v) (2 ^ 40) }
    requires t_small { AreAtMost (spot_of t) (2 ^ 24) }
    ensures value { spot_of result ≡ half_turned (spot_of v) (spot_of t) }
    ensures size { AreAtMost (spot_of result) (2 ^ 46) }
{
    let w = cross_of(v, t);
    Vector {
        x: half_part(v.x, w.x),
        y: half_part(v.y, w.y),
        z: half_part(v.z, w.z),
    }
}

fn square(c: i128) -> i128
    requires { IsAtMost c (2 ^ 24) }
    ensures value { result ≡ c *ℤ c }
    ensures low { pos 0 ≤ℤ result }
    ensures size { IsAtMost result (2 ^ 48) }
{
    c * c
}

/// The square of one and of the turn `t`.
fn divisor(t: Vector) -> i128
    requires { AreAtMost (spot_of t) (2 ^ 24) }
    ensures value { result ≡ pos (2 ^ 40) +ℤ dot (spot_of t) (spot_of t) }
    ensures above_zero { pos 0 <ℤ result }
    ensures size { IsAtMost result (2 ^ 50) }
{
    ONE_SQUARED + (square(t.x) + square(t.y) + square(t.z))
}

/// One component of the whole turn: the velocity's `v`, and twice the cross product's `w` over the
/// divisor.
fn whole_part(v: i128, w: i128, divisor: i128) -> i128
    requires v_small { IsAtMost v (2 ^ 40) }
    requires w_small { IsAtMost w (2 ^ 71) }
    requires divisor_above_zero { pos 0 <ℤ divisor }
    requires divisor_small { IsAtMost divisor (2 ^ 50) }
    ensures value { result ≡ v +ℤ rounded (pos (2 ^ 21) *ℤ w) divisor }
    ensures size { IsAtMost result (2 ^ 93) }
{
    v + rdiv(TWO * w, divisor)
}

/// Boris's whole turn of the velocity `v` by the turn `t`.
pub(crate) fn turned_by(v: Vector, t: Vector) -> Vector
    requires v_small { AreAtMost (spot_of v) (2 ^ 40) }
    requires t_small { AreAtMost (spot_of t) (2 ^ 24) }
    ensures value { spot_of result ≡ turned (spot_of v) (spot_of t) }
    ensures size { AreAtMost (spot_of result) (2 ^ 93) }
{
    let w = cross_of(turned_half(v, t), t);
    let divisor = divisor(t);
    Vector {
        x: whole_part(v.x, w.x, divisor),
        y: whole_part(v.y, w.y, divisor),
        z: whole_part(v.z, w.z, divisor),
    }
}
