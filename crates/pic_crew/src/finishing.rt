//! A tile is finished by the worker that has the right to it.

ghost use Rattle.std.specs.Prelude.{◌≡◌, ℕ, ◌<◌};
ghost use Rattle.pic_tile.specs.Directions.{directions};
ghost use Rattle.pic_yard.specs.Members.{In};
ghost use Rattle.pic_yard.specs.Steps.{gave_back};
ghost use Rattle.pic_yard.specs.Yards.{IsReceived, KeepsMail, MailWaits, Serves, mail_of};
ghost use Rattle.pic_yard.specs.Yards.{opening_of, view_of};
ghost use Rattle.pic_crew.specs.Finishing.{CanTake, Takes};

use pic_merge::{merge, shut};
use pic_tile::{Dir, Tile};
use pic_yard::{Right, Seat, Yard};

/// Receives the parcel of a direction that was posted to a tile, and merges it into the tile.
fn take_one(yard: &Yard, seat: &mut Seat, right: &mut Right, tile: &mut Tile, dir: Dir)
    requires serves { Serves yard.now seat.old }
    requires right { In right.old (view_of seat.old).rights }
    requires waits { MailWaits (opening_of yard.now) seat.old right.old dir }
    requires can { CanTake (opening_of yard.now) right.old dir tile.old }
    ensures serves { Serves yard.now seat.new }
    ensures right { right.new ≡ right.old }
    ensures view { view_of seat.new ≡ view_of seat.old }
    ensures received { IsReceived seat.new right.old dir }
    ensures others { (r d : ℕ) → d < directions → ((r ≡ right.old) × (d ≡ dir) → ⊥)
        → mail_of seat.new r d ≡ mail_of seat.old r d }
    ensures tile { Takes (opening_of yard.now) right.old dir tile.old tile.new }
{
    let parcel = yard.receive(seat, right, dir);
    merge(tile, parcel);
}

/// Receives all parcels that were posted to the tile of a right, merges them into a tile, that of
/// no step first, and gives the finished tile back. The mail of the seat's other rights stays. It
/// takes no memory.
pub fn finish(yard: &Yard, seat: &mut Seat, mut right: Right)
    requires serves { Serves yard.now seat.old }
    requires right { In right (view_of seat.old).rights }
    requires mail { (d : ℕ) → d < directions → MailWaits (opening_of yard.now) seat.old right d }
    ensures serves { Serves yard.now seat.new }
    ensures view { view_of seat.new ≡ gave_back right (view_of seat.old) }
    ensures kept { KeepsMail (view_of seat.new) seat.old seat.new }
{
    let mut tile = Tile::bare(right.tile());
    take_one(yard, seat, &mut right, &mut tile, Dir::HERE);
    for number in 0..Dir::COUNT {
        let dir = Dir::of(number);
        if dir != Dir::HERE {
            take_one(yard, seat, &mut right, &mut tile, dir);
        }
    }
    shut(&mut tile);
    yard.give_back(seat, right, tile);
}
