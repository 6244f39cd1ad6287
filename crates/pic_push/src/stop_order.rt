//! Of the stops of a push that of the least identity.

ghost use Rattle.std.specs.Prelude.{◌≡◌};
ghost use Rattle.pic_tile.specs.StopOf.{lesser, identity_of};
ghost use Rattle.pic_tile.specs.Directions.{here};
ghost use Rattle.pic_tile.specs.Exchanged.{least_stop};
ghost use Rattle.pic_tile.specs.Tile.{stop_at};

use pic_grid::Stop;
use pic_tile::{Dir, Tile};

/// The identity that a stop of a push names.
#[tactic(auto, unfolding(pic_tile::specs::StopOf::identity_of))]
fn identity_of(stop: &Stop) -> u32
    ensures { result ≡ identity_of stop.now }
{
    match stop {
        Stop::Push { id, .. } => *id,
        Stop::Field { .. } => 0,
    }
}

/// Of two stops the one that names the lesser identity, the first where they name one, and what is
/// there where one isn't.
#[tactic(auto, unfolding(pic_tile::specs::StopOf::lesser))]
pub fn lesser(first: Option<Stop>, second: Option<Stop>) -> Option<Stop>
    ensures { result ≡ lesser first second }
{
    let Some(one) = first else {
        return second;
    };
    let Some(other) = second else {
        return Some(one);
    };
    if identity_of(&other) < identity_of(&one) {
        Some(other)
    } else {
        Some(one)
    }
}

/// What stops the push of a tile's own particles.
fn stop_of(tile: &Tile) -> Option<Stop>
    ensures { result ≡ stop_at tile.now here }
{
    tile.parcel(Dir::HERE)?.stop
}

/// Of the stops of tiles that of the least identity, or `None` where no tile has one.
pub fn least_stop(tiles: &[Tile]) -> Option<Stop>
    ensures { result ≡ least_stop tiles.now }
{
    let mut least = None;
    for done in 0..tiles.len() {
        let tile = &tiles[tiles.len() - 1 - done];
        least = lesser(stop_of(tile), least);
    }
    least
}
