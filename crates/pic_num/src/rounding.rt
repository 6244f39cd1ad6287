//! Roundings: to the nearest, towards 0, and the residue of a position.

ghost use Rattle.std.specs.Prelude.{◌≡◌, ℤ, pos, ℕ, ◌-◌, ◌*◌, ◌^◌, ◌<◌, ◌≤◌, ◌*ℤ◌, ◌<ℤ◌, unsigned_abs};
ghost use Rattle.pic_num.specs.Limits.{most_value, most_scaled};
ghost use Rattle.pic_num.specs.Sizes.{IsAtMost};
ghost use Rattle.pic_num.specs.Rounding.{IsRounded, rounded, scaled, IsTruncated, truncated, IsResidue, residue};

use crate::mult::Mult;

/// The bits of a word of the machine. A shift that is seen to be less takes no test.
const WORD: u32 = 64;

/// The nearest whole number to `n / d`, a half going up. `d` is above 0, and both are below 2^125
/// in size.
pub fn rdiv(n: i128, d: i128) -> i128
    requires n_in_range { IsAtMost n (2 ^ 125 - 1) }
    requires d_above_zero { pos 0 <ℤ d }
    requires d_in_range { IsAtMost d (2 ^ 125 - 1) }
    ensures value { result ≡ rounded n d }
    ensures nearest { IsRounded n d result }
    ensures only { (r : ℤ) → IsRounded n d r → r ≡ result }
    ensures no_larger { unsigned_abs result ≤ unsigned_abs n }
{
    (2 * n + d).div_euclid(2 * d)
}

/// `v` times the multiplier `by`, rounded once to the nearest whole number, a half going up. `v` is
/// at most 2^90 in size, and the result at most 2^121.
pub fn scale(v: i128, by: Mult) -> i128
    requires { IsAtMost v most_value }
    ensures value { result ≡ scaled v by }
    ensures nearest { IsRounded (v *ℤ by.n) (pos (2 ^ by.k)) result }
    ensures only { (r : ℤ) → IsRounded (v *ℤ by.n) (pos (2 ^ by.k)) r → r ≡ result }
    ensures size { IsAtMost result most_scaled }
{
    let n = i128::from(by.n());
    let k = by.k();
    let bits = (k + 1) % WORD;
    (2 * v * n + (1 << k)) >> bits
}

/// `n / d` with its fraction dropped towards 0. `d` isn't 0, and both are below 2^125 in size.
pub fn trunc_div(n: i128, d: i128) -> i128
    requires n_in_range { IsAtMost n (2 ^ 125 - 1) }
    requires d_not_zero { 0 < unsigned_abs d }
    requires d_in_range { IsAtMost d (2 ^ 125 - 1) }
    ensures value { result ≡ truncated n d }
    ensures towards_zero { IsTruncated n d result }
    ensures only { (r : ℤ) → IsTruncated n d r → r ≡ result }
{
    n / d
}

/// The place of `p` on a periodic axis of `len` places, of which there is at least one: its
/// residue.
pub fn wrap(p: i64, len: u32) -> u32
    requires { 0 < len }
    ensures value { result ≡ residue p len }
    ensures below { result < len }
    ensures residue { IsResidue p len result }
    ensures only { (r : ℕ) → IsResidue p len r → r ≡ result }
{
    p.rem_euclid(i64::from(len)) as u32
}
