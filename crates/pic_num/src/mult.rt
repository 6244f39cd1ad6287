//! Multipliers: fractions over a power of two.

ghost use Rattle.std.specs.Prelude.{◌≡◌, ◌-◌, ◌^◌, ◌≤◌, ◌↔◌, IsSome, IfSome};
ghost use Rattle.pic_num.specs.Sizes.{IsAtMost};
ghost use Rattle.pic_num.specs.Multiplier.{Multiplier, IsMultiplier};

use crate::limits::{MAX_NUMERATOR, MAX_SHIFT};
use std::marker::Model;

/// A factor `n / 2^k`, with `n` in -2147483647..=2147483647 and `k` in 0..=62.
#[derive(Clone, Copy, Debug, PartialEq, Eq)]
pub struct Mult {
    n: i32,
    k: u32,
}

impl Model for Mult {
    ghost Value = { Multiplier };

    ghost view = { λ m. record { n = m.n; k = m.k } };

    ghost invariant = { λ m. IsMultiplier (record { n = m.n; k = m.k }) };

    ghost inverse = { λ m. record { n = m.n; k = m.k } };
}

impl Mult {
    /// The multiplier `n / 2^k` of numbers within the limits.
    pub fn new(n: i32, k: u32) -> Mult
        requires { IsMultiplier (record { n = n; k = k }) }
        ensures { result ≡ record { n = n; k = k } }
    {
        Mult { n, k }
    }

    /// The multiplier of numbers from outside, or `None` where they pass its limits.
    pub fn try_new(n: i32, k: u32) -> Option<Mult>
        ensures valid { IsSome result ↔ IsMultiplier (record { n = n; k = k }) }
        ensures value { IfSome result (λ m. m ≡ record { n = n; k = k }) }
    {
        if n < -MAX_NUMERATOR || k > MAX_SHIFT {
            return None;
        }
        Some(Mult { n, k })
    }

    /// The numerator.
    pub fn n(self) -> i32
        ensures value { result ≡ self.n }
        ensures size { IsAtMost result (2 ^ 31 - 1) }
    {
        self.n
    }

    /// The power of two in the denominator.
    pub fn k(self) -> u32
        ensures value { result ≡ self.k }
        ensures most { result ≤ 62 }
    {
        self.k
    }
}

/// The four multipliers of a deck. `e_to_b`: B falls in half a step by the curl of E times it;
/// `b_to_e`: E rises in a step by the curl of B times it; `e_force`, `b_force`: the force value is
/// the value of E, of B, times it.
#[derive(Clone, Copy, Debug, PartialEq, Eq)]
pub struct Scales {
    pub e_to_b: Mult,
    pub b_to_e: Mult,
    pub e_force: Mult,
    pub b_force: Mult,
}
