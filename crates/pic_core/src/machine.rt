//! The state of a push of all tiles.

ghost use Rattle.std.specs.Prelude.{◌≡◌};
ghost use Rattle.pic_tile.specs.CoreState.{HasCensus, Stands, tile_count};

use pic_tile::{Frame, ParcelBox, Tile};
use std::marker::Model;
use std::snapshot::Snapshot;

/// A push of all tiles, between two events. Each parcel is in one place, with what its tile sends;
/// and the identities of all particles are those at the start, each once.
#[derive(Drop)]
pub struct Core {
    pub(crate) frame: Frame,
    pub(crate) opening: Snapshot<Vec<Tile>>,
    pub(crate) tiles: Vec<Tile>,
    pub(crate) mail: Vec<Option<ParcelBox>>,
    pub(crate) received: Vec<Tile>,
    pub(crate) claimed: Vec<bool>,
    pub(crate) posted: Vec<bool>,
    pub(crate) merged: Vec<bool>,
    pub(crate) shut: Vec<bool>,
}

impl Model for Core {
    ghost use Rattle.pic_tile.specs.CoreState.{CoreState, Stands};
    ghost use Rattle.pic_core.specs.Inside.{state_of};

    ghost Value = { CoreState };

    ghost view = { state_of };

    ghost invariant = { λ c. Stands (state_of c) };
}

impl Core {
    /// How many tiles there are.
    pub(crate) fn count(&self) -> u32
        ensures value { result ≡ tile_count self.now }
        ensures stands { Stands self.now }
    {
        self.frame.map().count()
    }

    /// What the type keeps.
    pub(crate) fn stands(&self)
        ensures stands { Stands self.now }
        ensures census { HasCensus self.now }
    {
        let _shut = &self.shut;
    }
}
