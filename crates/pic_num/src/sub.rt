//! The side of a cell.

ghost use Rattle.std.specs.Prelude.{◌≡◌, ℕ, ◌^◌, ◌≤◌, ◌↔◌, IsSome, IfSome};
ghost use Rattle.pic_num.specs.Limits.{fewest_bits, most_bits, least_side, most_side};
ghost use Rattle.pic_num.specs.Sub.{bits_of};

use crate::limits::{MAX_BITS, MIN_BITS};
use std::marker::Model;

/// How many sub-cells lie along a cell: a power of two, 2^8 to 2^14. Contracts see that number.
#[derive(Clone, Copy, Debug, PartialEq, Eq)]
pub struct Sub {
    bits: u32,
}

impl Model for Sub {
    ghost Value = { ℕ };

    ghost view = { λ s. 2 ^ s.bits };

    ghost invariant = { λ s. (fewest_bits ≤ s.bits) × (s.bits ≤ most_bits) };

    ghost inverse = { λ side. record { bits = bits_of side } };

    ghost inverse_ok = { λ s h i. record { bits = Rattle.pic_num.specs.Sub.bits_of-side s.bits h.0 h.1 i } };
}

impl Sub {
    /// The side of a power of two from outside, or `None` where it passes the limits.
    pub fn new(bits: u32) -> Option<Sub>
        ensures valid { IsSome result ↔ ((fewest_bits ≤ bits) × (bits ≤ most_bits)) }
        ensures value { IfSome result (λ s. s ≡ 2 ^ bits) }
    {
        if bits < MIN_BITS || bits > MAX_BITS {
            return None;
        }
        Some(Sub { bits })
    }

    /// The side of a power of two within the limits.
    pub fn of_bits(bits: u32) -> Sub
        requires least { fewest_bits ≤ bits }
        requires most { bits ≤ most_bits }
        ensures { result ≡ 2 ^ bits }
    {
        Sub { bits }
    }

    /// The power of two.
    #[inline(always)]
    pub fn bits(self) -> u32
        ensures power { self ≡ 2 ^ result }
        ensures least { fewest_bits ≤ result }
        ensures most { result ≤ most_bits }
    {
        self.bits
    }

    /// The side, in sub-cells.
    #[inline(always)]
    pub fn side(self) -> u32
        ensures value { result ≡ self }
        ensures least { least_side ≤ self }
        ensures most { self ≤ most_side }
    {
        1 << self.bits
    }
}
