//! A worked tile's parcels are posted.

ghost use Rattle.std.specs.Prelude.{◌≡◌, ℕ, ◌<◌, [], None};
ghost use Rattle.pic_tile.specs.Directions.{directions};
ghost use Rattle.pic_tile.specs.Tile.{parcel_at, with_parcel};
ghost use Rattle.pic_yard.specs.Contents.{to_of};
ghost use Rattle.pic_yard.specs.Yards.{IsSentBy, Owes, Serves, opening_of, view_of};
ghost use Rattle.pic_crew.specs.Posting.{HasPostedAll, HasSent, OwesAll};

use crate::finishing::finish;
use pic_gate::{Gate, Point};
use pic_tile::Dir;
use pic_yard::{Claim, Posted, Seat, Yard};

/// Posts the parcel of a direction, and finishes the tile to which it went where it was the last to
/// arrive there.
#[tactic(auto, using(crate::proofs::SendLaws::sent_one, crate::proofs::SendLaws::sent_two))]
fn send(yard: &Yard, seat: &mut Seat, claim: &mut Claim, dir: Dir)
    requires serves { Serves yard.now seat.old }
    requires owes { Owes (opening_of yard.now) (view_of seat.old) claim.old.number dir }
    requires no_right { (view_of seat.old).rights ≡ [] }
    requires worked { let o = opening_of yard.now in
        IsSentBy o claim.old.number dir (parcel_at claim.old.held dir) }
    ensures serves { Serves yard.now seat.new }
    ensures sent { let r = to_of (opening_of yard.now) claim.old.number dir in
        HasSent r dir (view_of seat.old) (view_of seat.new) }
    ensures number { claim.new.number ≡ claim.old.number }
    ensures taken { claim.new.held ≡ with_parcel claim.old.held dir None }
{
    match yard.post(seat, claim, dir) {
        Posted::Ready(right) => finish(yard, seat, right),
        Posted::Counted => {}
    }
}

/// Posts all parcels of a claim, which is worked, in the order of their directions.
pub(crate) fn send_all<G: Gate>(
    yard: &Yard,
    seat: &mut Seat,
    mut claim: Claim,
    worker: u32,
    gate: &G,
)
    requires serves { Serves yard.now seat.old }
    requires owes { OwesAll (opening_of yard.now) claim.number (view_of seat.old) }
    requires worked { (d : ℕ) → d < directions
        → IsSentBy (opening_of yard.now) claim.number d (parcel_at claim.held d) }
    ensures serves { Serves yard.now seat.new }
    ensures view { HasPostedAll (view_of seat.old) (view_of seat.new) }
{
    for number in 0..Dir::COUNT {
        send(yard, seat, &mut claim, Dir::of(number));
        gate.pass(worker, Point::Posted);
    }
}
