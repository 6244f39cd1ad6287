//! Weighted sums: of two numbers in 64 bits, and of four rows, in 64 bits or in 128.

ghost use Rattle.std.specs.Prelude.{◌≡◌, ℕ, pos, ◌+◌, ◌*◌, ◌^◌, ◌≤◌, ◌+ℤ◌, ◌*ℤ◌};
ghost use Rattle.pic_num.specs.Limits.{most_force, most_side};
ghost use Rattle.pic_num.specs.Sizes.{IsAtMost};
ghost use Rattle.pic_gather.specs.Mix.{HaveRoom};
ghost use Rattle.pic_gather.specs.Weak.{most_weak_side};

use pic_grid::Pair;

/// Two numbers under the weights of a pair.
#[inline(always)]
pub(crate) fn mix(low: i64, high: i64, pair: Pair) -> i64
    requires { HaveRoom low high pair }
    ensures value { result ≡ low *ℤ pos pair.low_weight +ℤ high *ℤ pos pair.high_weight }
    ensures size { (most : ℕ) → IsAtMost low most → IsAtMost high most
        → IsAtMost result (most * (pair.low_weight + pair.high_weight)) }
{
    low * i64::from(pair.low_weight) + high * i64::from(pair.high_weight)
}

/// Four rows' sums of weak values under the weights of the pairs of y and z, in 64 bits: the low and
/// the high row of the low layer, then those of the high layer.
#[inline(always)]
pub(crate) fn weak_sum(
    low_low: i64,
    high_low: i64,
    low_high: i64,
    high_high: i64,
    y: Pair,
    z: Pair,
) -> i64
    requires low_low_small { IsAtMost low_low (2 ^ 38) }
    requires high_low_small { IsAtMost high_low (2 ^ 38) }
    requires low_high_small { IsAtMost low_high (2 ^ 38) }
    requires high_high_small { IsAtMost high_high (2 ^ 38) }
    requires y_most { y.low_weight + y.high_weight ≤ most_weak_side }
    requires z_most { z.low_weight + z.high_weight ≤ most_weak_side }
    ensures value { result
        ≡ (low_low *ℤ pos y.low_weight +ℤ high_low *ℤ pos y.high_weight) *ℤ pos z.low_weight
        +ℤ (low_high *ℤ pos y.low_weight +ℤ high_high *ℤ pos y.high_weight) *ℤ pos z.high_weight }
    ensures size { IsAtMost result (2 ^ 62) }
{
    let low = mix(low_low, high_low, y);
    let high = mix(low_high, high_high, y);
    mix(low, high, z)
}

/// A row's sum under its weight, which is the product of one of y and one of z.
#[inline(always)]
fn weighed(row: i64, y: u32, z: u32) -> i128
    requires small { IsAtMost row (most_force * most_side) }
    requires y_most { y ≤ most_side }
    requires z_most { z ≤ most_side }
    ensures value { result ≡ row *ℤ pos (y * z) }
    ensures size { IsAtMost result (2 ^ 86) }
{
    i128::from(row) * i128::from(y * z)
}

/// Four rows' sums under the weights of the pairs of y and z: the low and the high row of the low
/// layer, then those of the high layer.
#[inline(always)]
pub(crate) fn wide_mix(
    low_low: i64,
    high_low: i64,
    low_high: i64,
    high_high: i64,
    y: Pair,
    z: Pair,
) -> i128
    requires low_low_small { IsAtMost low_low (most_force * most_side) }
    requires high_low_small { IsAtMost high_low (most_force * most_side) }
    requires low_high_small { IsAtMost low_high (most_force * most_side) }
    requires high_high_small { IsAtMost high_high (most_force * most_side) }
    requires y_most { y.low_weight + y.high_weight ≤ most_side }
    requires z_most { z.low_weight + z.high_weight ≤ most_side }
    ensures { result
        ≡ (low_low *ℤ pos y.low_weight +ℤ high_low *ℤ pos y.high_weight) *ℤ pos z.low_weight
        +ℤ (low_high *ℤ pos y.low_weight +ℤ high_high *ℤ pos y.high_weight) *ℤ pos z.high_weight }
{
    weighed(low_low, y.low_weight, z.low_weight)
        + weighed(high_low, y.high_weight, z.low_weight)
        + weighed(low_high, y.low_weight, z.high_weight)
        + weighed(high_high, y.high_weight, z.high_weight)
}
