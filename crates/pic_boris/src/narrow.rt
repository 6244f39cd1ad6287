//! Three whole numbers of 64 bits by axis, and what the push computes with them.

ghost use Rattle.std.specs.Prelude.{◌≡◌, pos, ◌^◌, ◌-◌, ◌≤◌, ◌+ℤ◌, ◌-ℤ◌, ◌*ℤ◌, unsigned_abs};
ghost use Rattle.pic_num.specs.Push.{each, plus, cross};
ghost use Rattle.pic_num.specs.Rounding.{rounded, scaled};
ghost use Rattle.pic_num.specs.Sizes.{IsAtMost};
ghost use Rattle.pic_num.specs.Space.{spot, AreAtMost};
ghost use Rattle.pic_boris.specs.Narrow.{narrow_spot};

use pic_num::Mult;

/// Three whole numbers by axis.
#[derive(Clone, Copy)]
pub(crate) struct Narrow {
    pub(crate) x: i64,
    pub(crate) y: i64,
    pub(crate) z: i64,
}

/// The vector of three numbers.
#[inline(always)]
pub(crate) fn narrow_of(v: [i32; 3]) -> Narrow
    ensures value { narrow_spot result ≡ spot v }
    ensures size { AreAtMost (narrow_spot result) (2 ^ 31) }
{
    let [x, y, z] = v;
    Narrow {
        x: i64::from(x),
        y: i64::from(y),
        z: i64::from(z),
    }
}

/// `v` times a multiplier, rounded once.
#[inline(always)]
fn scale_narrow(v: i64, by: Mult) -> i64
    requires { IsAtMost v (2 ^ 28) }
    ensures value { result ≡ scaled v by }
    ensures size { IsAtMost result (2 ^ 60) }
{
    let n = i64::from(by.n());
    let k = by.k();
    (2 * v * n + (1 << k)) >> (k + 1)
}

/// The gathered field `field` times a multiplier, each component rounded once.
#[inline(always)]
pub(crate) fn scaled_narrow(field: [i64; 3], by: Mult) -> Narrow
    requires { AreAtMost (spot field) (2 ^ 28) }
    ensures value { narrow_spot result ≡ each (λ c. scaled c by) (spot field) }
    ensures size { AreAtMost (narrow_spot result) (2 ^ 60) }
{
    let [x, y, z] = field;
    Narrow {
        x: scale_narrow(x, by),
        y: scale_narrow(y, by),
        z: scale_narrow(z, by),
    }
}

#[inline(always)]
fn sum(a: i64, b: i64) -> i64
    requires a_small { IsAtMost a (2 ^ 50) }
    requires b_small { IsAtMost b (2 ^ 60) }
    ensures value { result ≡ a +ℤ b }
    ensures size { IsAtMost result (2 ^ 61) }
{
    a + b
}

/// The sum of a velocity and half of a kick.
#[inline(always)]
pub(crate) fn narrow_sum(p: Narrow, q: Narrow) -> Narrow
    requires p_small { AreAtMost (narrow_spot p) (2 ^ 50) }
    requires q_small { AreAtMost (narrow_spot q) (2 ^ 60) }
    ensures value { narrow_spot result ≡ plus (narrow_spot p) (narrow_spot q) }
    ensures size { AreAtMost (narrow_spot result) (2 ^ 61) }
{
    Narrow {
        x: sum(p.x, q.x),
        y: sum(p.y, q.y),
        z: sum(p.z, q.z),
    }
}

/// A minor of two vectors: one component of their cross product.
#[inline(always)]
fn minor(a: i64, b: i64, c: i64, d: i64) -> i64
    requires a_small { IsAtMost a (2 ^ 28) }
    requires b_small { IsAtMost b (2 ^ 19) }
    requires c_small { IsAtMost c (2 ^ 28) }
    requires d_small { IsAtMost d (2 ^ 19) }
    ensures value { result ≡ a *ℤ b -ℤ c *ℤ d }
    ensures size { IsAtMost result (2 ^ 49) }
{
    a * b - c * d
}

/// The cross product of a velocity and a turn.
#[inline(always)]
#[tactic(auto, unfolding(pic_num::specs::Push::cross))]
pub(crate) fn narrow_cross(v: Narrow, t: Narrow) -> Narrow
    requires v_small { AreAtMost (narrow_spot v) (2 ^ 28) }
    requires t_small { AreAtMost (narrow_spot t) (2 ^ 19) }
    ensures value { narrow_spot result ≡ cross (narrow_spot v) (narrow_spot t) }
    ensures size { AreAtMost (narrow_spot result) (2 ^ 49) }
{
    Narrow {
        x: minor(v.y, t.z, v.z, t.y),
        y: minor(v.z, t.x, v.x, t.z),
        z: minor(v.x, t.y, v.y, t.x),
    }
}

/// `n / 2^k`, rounded to the nearest whole number, a half going up.
#[inline(always)]
pub(crate) fn narrow_shift(n: i64, k: u32) -> i64
    requires n_in_range { IsAtMost n (2 ^ 61) }
    requires k_in_range { k ≤ 60 }
    ensures value { result ≡ rounded n (pos (2 ^ k)) }
    ensures size { unsigned_abs result ≤ unsigned_abs n }
{
    (2 * n + (1 << k)) >> (k + 1)
}
