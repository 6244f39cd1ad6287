//! A worker at a board.

ghost use Rattle.std.specs.Prelude.{◌≡◌, false};
ghost use Rattle.pic_yard.specs.Seats.{IsThrough, HoldsNothing};
ghost use Rattle.pic_yard.specs.Yards.{Serves, view_of};
ghost use Rattle.pic_crew.specs.Posting.{IsSameSeat};

use crate::posting::send_all;
use pic_gate::{Gate, Point};
use pic_yard::{Seat, Yard};

/// Claims tiles for a seat until it is told that none is left, and pushes, posts and finishes.
pub(crate) fn work_through<G: Gate>(yard: &Yard, seat: &mut Seat, worker: u32, gate: &G)
    requires serves { Serves yard.now seat.old }
    requires fresh { (view_of seat.old).told ≡ false }
    requires idle { HoldsNothing (view_of seat.old) }
    ensures serves { Serves yard.now seat.new }
    ensures ended { IsThrough (view_of seat.new) }
    ensures same { IsSameSeat (view_of seat.old) (view_of seat.new) }
{
    while let Some(mut claim) = yard.claim(seat) {
        gate.pass(worker, Point::Claimed);
        yard.work(seat, &mut claim);
        send_all(yard, seat, claim, worker, gate);
    }
}

/// A worker: until its seat is told that no tile is left it claims a tile, passes the gate, pushes
/// the tile's particles, and posts its 27 parcels, passing the gate after each. It finishes each
/// tile to which it posted the last parcel. Afterwards its seat has the same number, the same seats
/// taken in, and lists nothing. It takes no memory.
pub fn crew<G: Gate + Sync>(yard: &Yard, mut seat: Seat, worker: u32, gate: &G) -> Seat
    requires serves { Serves yard.now seat }
    requires fresh { (view_of seat).told ≡ false }
    requires idle { HoldsNothing (view_of seat) }
    ensures serves { Serves yard.now result }
    ensures ended { IsThrough (view_of result) }
    ensures same { IsSameSeat (view_of seat) (view_of result) }
{
    work_through(yard, &mut seat, worker, gate);
    seat
}
