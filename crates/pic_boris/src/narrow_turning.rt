//! The turn of a velocity by the magnetic field in 64 bits, where both are small.

ghost use Rattle.std.specs.Prelude.{◌≡◌, pos, ◌*◌, ◌^◌, ◌+ℤ◌, ◌-ℤ◌, ◌*ℤ◌, ◌<ℤ◌, ◌≤ℤ◌, IsTrue};
ghost use Rattle.pic_num.specs.Push.{dot, each, plus, half_turned, turned};
ghost use Rattle.pic_num.specs.Rounding.{rounded};
ghost use Rattle.pic_num.specs.Sizes.{IsAtMost};
ghost use Rattle.pic_num.specs.Space.{AreAtMost};
ghost use Rattle.pic_boris.specs.Narrow.{narrow_spot};

use crate::narrow::{Narrow, narrow_cross, narrow_shift, narrow_sum};
use crate::turning::{TURN_BITS, TWO};
use pic_num::{is_at_most, rdiv};

/// One, squared, in units of a turn.
const ONE_SQUARED: i64 = 1 << (2 * TURN_BITS);

/// Four, in those units.
const FOUR: i64 = 1 << (TURN_BITS + 2);

/// Up to this size of a cross product what is left of its dividend fits 64 bits.
const MAX_SMALL_CROSS: u64 = 1 << 39;

/// What such a cross product adds to a velocity is at most this in size.
const MAX_SMALL_QUOTIENT: u64 = 1 << 20;

/// The reciprocal of twice a divisor is in units of 1 / 2^74.
const RECIPROCAL_BITS: u32 = 74;

/// Up to this much above one, squared, a reciprocal is taken as linear.
const NEAR: u64 = 1 << 24;

/// The cross product over one: what the first turn adds.
#[inline(always)]
fn over_one(w: i64) -> i64
    requires { IsAtMost w (2 ^ 49) }
    ensures value { result ≡ rounded w (pos (2 ^ 20)) }
    ensures size { IsAtMost result (2 ^ 49) }
{
    narrow_shift(w, TURN_BITS)
}

/// What the first turn adds, by axis.
#[inline(always)]
fn all_over_one(w: Narrow) -> Narrow
    requires { AreAtMost (narrow_spot w) (2 ^ 49) }
    ensures value { narrow_spot result ≡ each (λ c. rounded c (pos (2 ^ 20))) (narrow_spot w) }
    ensures size { AreAtMost (narrow_spot result) (2 ^ 49) }
{
    Narrow {
        x: over_one(w.x),
        y: over_one(w.y),
        z: over_one(w.z),
    }
}

/// Boris's first turn of the velocity `v` by the turn `t`.
#[inline(always)]
#[tactic(auto, unfolding(pic_num::specs::Push::half_turned))]
fn half_turned(v: Narrow, t: Narrow) -> Narrow
    requires v_small { AreAtMost (narrow_spot v) (2 ^ 26) }
    requires t_small { AreAtMost (narrow_spot t) (2 ^ 19) }
    ensures value { narrow_spot result ≡ half_turned (narrow_spot v) (narrow_spot t) }
    ensures size { AreAtMost (narrow_spot result) (2 ^ 28) }
{
    narrow_sum(v, all_over_one(narrow_cross(v, t)))
}

#[inline(always)]
fn square(c: i64) -> i64
    requires { IsAtMost c (2 ^ 19) }
    ensures value { result ≡ c *ℤ c }
    ensures low { pos 0 ≤ℤ result }
    ensures size { IsAtMost result (2 ^ 38) }
{
    c * c
}

/// The square of one and of the turn `t`.
#[inline(always)]
fn divisor(t: Narrow) -> i64
    requires { AreAtMost (narrow_spot t) (2 ^ 19) }
    ensures value { result ≡ pos (2 ^ 40) +ℤ dot (narrow_spot t) (narrow_spot t) }
    ensures least { pos (2 ^ 40) ≤ℤ result }
    ensures size { IsAtMost result (2 ^ 41) }
{
    ONE_SQUARED + (square(t.x) + square(t.y) + square(t.z))
}

/// Nearly the reciprocal of twice a divisor, below 0. Whoever divides by it looks at the remainder.
#[inline(always)]
fn reciprocal(divisor: i64) -> i64
    requires least { pos (2 ^ 40) ≤ℤ divisor }
    requires size { IsAtMost divisor (2 ^ 41) }
    ensures { IsAtMost result (2 ^ 62) }
{
    let over = (divisor - ONE_SQUARED) as u64;
    if over <= NEAR {
        return (over >> 7) as i64 - (1 << 33);
    }
    let coarse = (divisor as u64 >> 11) + 1;
    -(((1u64 << 62) / coarse) as i64)
}

/// The product of a dividend and a reciprocal that is below 0, in whole numbers and above 0 where the
/// dividend is.
// Two signed words have one product of 128 bits, where a word that can't be below 0 takes three.
#[inline(always)]
fn guess_of(dividend: i64, reciprocal: i64) -> i64
    requires dividend { IsAtMost dividend (3 * 2 ^ 60) }
    requires reciprocal { IsAtMost reciprocal (2 ^ 62) }
    ensures { IsAtMost result (2 ^ 52) }
{
    ((i128::from(-dividend) * i128::from(reciprocal)) >> RECIPROCAL_BITS) as i64
}

/// Four times a cross product, and the divisor: the dividend of a rounding by twice the divisor.
#[inline(always)]
fn dividend_of(w: i64, divisor: i64) -> i64
    requires w { IsAtMost w (2 ^ 39) }
    requires divisor { IsAtMost divisor (2 ^ 41) }
    ensures value { result ≡ pos (2 ^ 22) *ℤ w +ℤ divisor }
    ensures size { IsAtMost result (3 * 2 ^ 60) }
{
    FOUR * w + divisor
}

#[inline(always)]
fn twice(divisor: i64) -> i64
    requires { IsAtMost divisor (2 ^ 41) }
    ensures value { result ≡ pos 2 *ℤ divisor }
    ensures size { IsAtMost result (2 ^ 42) }
{
    2 * divisor
}

/// Whether a number is at least 0 and below another.
#[inline(always)]
fn is_below(n: i64, above: i64) -> bool
    ensures low { IsTrue result → pos 0 ≤ℤ n }
    ensures high { IsTrue result → n <ℤ above }
{
    if n < 0 {
        return false;
    }
    n < above
}

/// What a guess leaves of the dividend.
#[inline(always)]
fn rest_of(dividend: i64, guess: i64, divisor: i64) -> i64
    requires dividend { IsAtMost dividend (3 * 2 ^ 60) }
    requires guess { IsAtMost guess (2 ^ 20) }
    requires divisor { IsAtMost divisor (2 ^ 41) }
    ensures { result ≡ dividend -ℤ guess *ℤ (pos 2 *ℤ divisor) }
{
    dividend - guess * twice(divisor)
}

/// Whether a guess is the quotient: it leaves at least 0, and less than twice the divisor.
#[inline(always)]
fn is_quotient(w: i64, divisor: i64, guess: i64) -> bool
    requires w { IsAtMost w (2 ^ 39) }
    requires least { pos (2 ^ 40) ≤ℤ divisor }
    requires size { IsAtMost divisor (2 ^ 41) }
    ensures { IsTrue result → guess ≡ rounded (pos (2 ^ 21) *ℤ w) divisor }
{
    if !is_at_most(guess, MAX_SMALL_QUOTIENT) {
        return false;
    }
    is_below(
        rest_of(dividend_of(w, divisor), guess, divisor),
        twice(divisor),
    )
}

/// The quotient by a division.
fn exact_quotient(w: i64, divisor: i64) -> i64
    requires w { IsAtMost w (2 ^ 49) }
    requires least { pos (2 ^ 40) ≤ℤ divisor }
    requires size { IsAtMost divisor (2 ^ 41) }
    ensures { result ≡ rounded (pos (2 ^ 21) *ℤ w) divisor }
{
    rdiv(TWO * i128::from(w), i128::from(divisor)) as i64
}

/// Twice the cross product's `w` over the divisor: what the whole turn adds.
#[inline(always)]
fn quotient(w: i64, divisor: i64, reciprocal: i64) -> i64
    requires w { IsAtMost w (2 ^ 49) }
    requires least { pos (2 ^ 40) ≤ℤ divisor }
    requires size { IsAtMost divisor (2 ^ 41) }
    requires reciprocal { IsAtMost reciprocal (2 ^ 62) }
    ensures value { result ≡ rounded (pos (2 ^ 21) *ℤ w) divisor }
    ensures size { IsAtMost result (2 ^ 30) }
{
    if is_at_most(w, MAX_SMALL_CROSS) {
        let guess = guess_of(dividend_of(w, divisor), reciprocal);
        if is_quotient(w, divisor, guess) {
            return guess;
        }
    }
    exact_quotient(w, divisor)
}

/// What the whole turn adds, by axis.
#[inline(always)]
fn quotients(w: Narrow, divisor: i64) -> Narrow
    requires w { AreAtMost (narrow_spot w) (2 ^ 49) }
    requires least { pos (2 ^ 40) ≤ℤ divisor }
    requires size { IsAtMost divisor (2 ^ 41) }
    ensures value { narrow_spot result ≡ each (λ c. rounded (pos (2 ^ 21) *ℤ c) divisor)
        (narrow_spot w) }
    ensures size { AreAtMost (narrow_spot result) (2 ^ 30) }
{
    let reciprocal = reciprocal(divisor);
    Narrow {
        x: quotient(w.x, divisor, reciprocal),
        y: quotient(w.y, divisor, reciprocal),
        z: quotient(w.z, divisor, reciprocal),
    }
}

/// The sum of a velocity and what a turn adds.
#[inline(always)]
fn turn_sum(v: i64, w: i64) -> i64
    requires v { IsAtMost v (2 ^ 26) }
    requires w { IsAtMost w (2 ^ 30) }
    ensures value { result ≡ v +ℤ w }
    ensures size { IsAtMost result (2 ^ 31) }
{
    v + w
}

/// A velocity and what a turn adds, by axis.
#[inline(always)]
fn turned_to(v: Narrow, w: Narrow) -> Narrow
    requires v { AreAtMost (narrow_spot v) (2 ^ 26) }
    requires w { AreAtMost (narrow_spot w) (2 ^ 30) }
    ensures value { narrow_spot result ≡ plus (narrow_spot v) (narrow_spot w) }
    ensures size { AreAtMost (narrow_spot result) (2 ^ 31) }
{
    Narrow {
        x: turn_sum(v.x, w.x),
        y: turn_sum(v.y, w.y),
        z: turn_sum(v.z, w.z),
    }
}

/// Boris's whole turn of the velocity `v` by the turn `t`.
#[inline(always)]
#[tactic(auto, unfolding(pic_num::specs::Push::turned))]
pub(crate) fn narrow_turned(v: Narrow, t: Narrow) -> Narrow
    requires v_small { AreAtMost (narrow_spot v) (2 ^ 26) }
    requires t_small { AreAtMost (narrow_spot t) (2 ^ 19) }
    ensures value { narrow_spot result ≡ turned (narrow_spot v) (narrow_spot t) }
    ensures size { AreAtMost (narrow_spot result) (2 ^ 31) }
{
    turned_to(v, quotients(narrow_cross(half_turned(v, t), t), divisor(t)))
}
