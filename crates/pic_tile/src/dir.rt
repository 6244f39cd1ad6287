//! The directions from a tile to those around it.

ghost use Rattle.std.specs.Prelude.{◌≡◌, ℕ, ◌<◌};
ghost use Rattle.pic_num.specs.Space.{triple};
ghost use Rattle.pic_block.specs.Cells.{IsWithin};
ghost use Rattle.pic_tile.specs.Directions.{directions, steps_of};

use std::marker::Model;

/// A step down, none or a step up on each axis. Contracts see its number, `(dz + 1) * 9 +
/// (dy + 1) * 3 + (dx + 1)` for steps -1, 0 and 1.
#[derive(Clone, Copy, Debug, PartialEq, Eq)]
pub struct Dir {
    number: u32,
}

impl Model for Dir {
    ghost Value = { ℕ };

    ghost view = { λ dir. dir.number };

    ghost invariant = { λ dir. dir.number < directions };

    ghost inverse = { λ number. record { number = number } };

    ghost inverse_ok = { λ dir h i. record { number = dir.number } };
}

impl Dir {
    /// How many directions there are.
    pub const COUNT: u32 = 27;

    /// The direction without a step.
    pub const HERE: Dir = Dir { number: 13 };

    /// The direction of a number below 27.
    pub fn of(number: u32) -> Dir
        requires { number < directions }
        ensures { result ≡ number }
    {
        Dir { number }
    }

    /// Its number.
    pub fn number(&self) -> u32
        ensures value { result ≡ self.now }
        ensures below { result < directions }
    {
        self.number
    }

    /// Its steps on x, y and z: 0 is a step down, 1 none, 2 a step up.
    pub fn steps(&self) -> [u32; 3]
        ensures value { triple result ≡ steps_of self.now }
        ensures below { IsWithin (triple result) (record { x = 3; y = 3; z = 3 }) }
    {
        [self.number % 3, self.number / 3 % 3, self.number / 9]
    }
}
