//! Three whole numbers by axis, and what the push computes with them.

ghost use Rattle.std.specs.Prelude.{◌≡◌, pos, ◌^◌, ◌≤◌, ◌+ℤ◌};
ghost use Rattle.pic_num.specs.Push.{each, plus};
ghost use Rattle.pic_num.specs.Rounding.{rounded, scaled};
ghost use Rattle.pic_num.specs.Sizes.{IsAtMost};
ghost use Rattle.pic_num.specs.Space.{spot, AreAtMost};
ghost use Rattle.pic_boris.specs.Vector.{spot_of};

use pic_num::{Mult, scale};

/// Three whole numbers by axis.
#[derive(Clone, Copy)]
pub(crate) struct Vector {
    pub(crate) x: i128,
    pub(crate) y: i128,
    pub(crate) z: i128,
}

/// The vector of a velocity.
pub(crate) fn widened(v: [i32; 3]) -> Vector
    ensures value { spot_of result ≡ spot v }
    ensures size { AreAtMost (spot_of result) (2 ^ 31) }
{
    let [x, y, z] = v;
    Vector {
        x: i128::from(x),
        y: i128::from(y),
        z: i128::from(z),
    }
}

/// The gathered field `field` times a multiplier, each component rounded once.
pub(crate) fn scaled_by(field: [i64; 3], by: Mult) -> Vector
    ensures value { spot_of result ≡ each (λ c. scaled c by) (spot field) }
    ensures size { AreAtMost (spot_of result) (2 ^ 121) }
{
    let [x, y, z] = field;
    Vector {
        x: scale(i128::from(x), by),
        y: scale(i128::from(y), by),
        z: scale(i128::from(z), by),
    }
}

fn sum(a: i128, b: i128) -> i128
    requires a_small { IsAtMost a (2 ^ 93) }
    requires b_small { IsAtMost b (2 ^ 121) }
    ensures value { result ≡ a +ℤ b }
    ensures size { IsAtMost result (2 ^ 122) }
{
    a + b
}

/// The sum of a velocity and half of a kick.
pub(crate) fn sum_of(p: Vector, q: Vector) -> Vector
    requires p_small { AreAtMost (spot_of p) (2 ^ 93) }
    requires q_small { AreAtMost (spot_of q) (2 ^ 121) }
    ensures value { spot_of result ≡ plus (spot_of p) (spot_of q) }
    ensures size { AreAtMost (spot_of result) (2 ^ 122) }
{
    Vector {
        x: sum(p.x, q.x),
        y: sum(p.y, q.y),
        z: sum(p.z, q.z),
    }
}

/// `n / 2^k`, rounded to the nearest whole number, a half going up.
pub(crate) fn rounded_shift(n: i128, k: u32) -> i128
    requires n_in_range { IsAtMost n (2 ^ 122) }
    requires k_in_range { k ≤ 62 }
    ensures value { result ≡ rounded n (pos (2 ^ k)) }
    ensures size { IsAtMost result (2 ^ 122) }
{
    (2 * n + (1 << k)) >> (k + 1)
}
