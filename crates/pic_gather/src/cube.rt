//! The mean of a weighted sum over the cube of a cell's side.

ghost use Rattle.std.specs.Prelude.{◌≡◌, pos, ◌*◌, ◌^◌};
ghost use Rattle.pic_num.specs.Limits.{most_force};
ghost use Rattle.pic_num.specs.Rounding.{rounded};
ghost use Rattle.pic_num.specs.Sizes.{IsAtMost};
ghost use Rattle.pic_gather.specs.Cube.{IsCube, IsCubeOf};

use pic_num::Sub;

/// The bits of a word of the machine. A shift that is seen to be less takes one instruction.
const WORD: u32 = 64;

/// The cube of a cell's side, a power of two, and half of it: a sum is rounded over it by a shift,
/// once the half is added.
#[derive(Clone, Copy)]
pub(crate) struct Cube {
    pub(crate) bits: u32,
    pub(crate) half: i64,
}

impl Cube {
    /// The cube of a side.
    #[inline(always)]
    pub(crate) fn of(sub: Sub) -> Cube
        ensures { IsCubeOf sub result }
    {
        let bits = 3 * sub.bits() % WORD;
        Cube {
            bits,
            half: 1 << (bits - 1),
        }
    }

    /// A sum over it, rounded to the nearest whole number, a half going up.
    #[inline(always)]
    pub(crate) fn mean(self, sum: i128) -> i64
        requires cube { IsCube self }
        requires small { IsAtMost sum (most_force * 2 ^ self.bits) }
        ensures value { result ≡ rounded sum (pos (2 ^ self.bits)) }
        ensures size { IsAtMost result most_force }
    {
        ((sum + i128::from(self.half)) >> self.bits) as i64
    }

    /// The same of a sum of weak values, in 64 bits.
    #[inline(always)]
    pub(crate) fn weak_mean(self, sum: i64) -> i64
        requires cube { IsCube self }
        requires small { IsAtMost sum (2 ^ 62) }
        requires forces { IsAtMost sum (most_force * 2 ^ self.bits) }
        ensures value { result ≡ rounded sum (pos (2 ^ self.bits)) }
        ensures size { IsAtMost result most_force }
    {
        (sum + self.half) >> self.bits
    }
}
