//! What a seat is given: a claim of a tile, and the right to finish one.

ghost use Rattle.std.specs.Prelude.{◌≡◌};

use pic_tile::Tile;
use std::marker::Model;

/// A claim of a tile: it has the tile before its push, and after it what is not yet posted.
#[derive(Drop)]
pub struct Claim {
    pub(crate) number: u32,
    pub(crate) held: Tile,
}

impl Model for Claim {
    ghost use Rattle.pic_yard.specs.Claims.{ClaimValue};

    ghost Value = { ClaimValue };

    ghost view = { λ c. record { number = c.number; held = c.held } };
}

/// The right to finish a tile, to which all parcels are posted.
#[derive(Drop)]
pub struct Right {
    pub(crate) number: u32,
}

impl Model for Right {
    ghost use Rattle.std.specs.Prelude.{ℕ};

    ghost Value = { ℕ };

    ghost view = { λ right. right.number };
}

/// What a post was: the last of the parcels that come to its tile, or another.
#[derive(Drop)]
pub enum Posted {
    Counted,
    Ready(Right),
}

impl Claim {
    /// The number of the tile.
    pub fn tile(&self) -> u32
        ensures { result ≡ self.now.number }
    {
        self.number
    }
}

impl Right {
    /// The number of the tile.
    pub fn tile(&self) -> u32
        ensures { result ≡ self.now }
    {
        self.number
    }
}
