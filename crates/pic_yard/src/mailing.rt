//! A parcel is posted to the tile that it goes to.

ghost use Rattle.std.specs.Prelude.{◌≡◌, ◌<◌, Some, None};
ghost use Rattle.pic_tile.specs.Directions.{directions};
ghost use Rattle.pic_tile.specs.Tile.{parcel_at, with_parcel};
ghost use Rattle.pic_yard.specs.declared.slot_content.SlotContent.TheVariants as holds;
ghost use Rattle.pic_yard.specs.Contents.{HoldsParcel, from_of, to_of};
ghost use Rattle.pic_yard.specs.Loads.{HasLoaded, TellsOf};
ghost use Rattle.pic_yard.specs.Members.{In};
ghost use Rattle.pic_yard.specs.Posts.{HasMailFor, HasPosted, IsAnswer};
ghost use Rattle.pic_yard.specs.Yards.{IsSentBy, KeepsMail, Owes, Serves, opening_of, view_of};

use crate::claim::{Claim, Posted, Right};
use crate::fronts::{bring, exchange};
use crate::slot_content::SlotContent;
use crate::slot_numbers::{home, mailbox};
use crate::view::View;
use crate::yard::{Seat, Yard};
use atomic_table::Play;
use pic_tile::{Dir, ParcelBox};

/// The arrival of a parcel.
pub struct Arrive;

impl Play<Option<SlotContent>, View> for Arrive {
    ghost then = { λ step old n new. TellsOf step.word old n new };
}

/// What a post to a tile is, where so many parcels had arrived there before.
fn answer(to: u32, arrived: u64) -> Posted
    requires { arrived < directions }
    ensures { IsAnswer to arrived result }
{
    if arrived + 1 == Dir::COUNT as u64 {
        Posted::Ready(Right { number: to })
    } else {
        Posted::Counted
    }
}

impl Yard {
    /// Lays a parcel into the mailbox where the seat owes it. That comes first among the seat's
    /// slots, and then, for a parcel of no step, the home slot, which goes home with it.
    fn load(&self, seat: &mut Seat, to: u32, dir: Dir, parcel: ParcelBox)
        requires serves { Serves self.now seat.old }
        requires lists { In (to, dir) (view_of seat.old).owes }
        requires parcel { let o = opening_of self.now in
            HoldsParcel o (from_of o to dir) dir (Some (holds.Parcel parcel)) }
        ensures { HasLoaded (opening_of self.now) seat.old seat.new to dir }
    {
        bring(seat, home(to));
        let content = Some(SlotContent::Parcel(parcel));
        exchange(&self.table.shared, seat, mailbox(to, dir), content);
    }

    /// Lays a parcel that the seat owes into its mailbox, and counts it.
    fn send(&self, seat: &mut Seat, to: u32, dir: Dir, parcel: ParcelBox) -> Posted
        requires serves { Serves self.now seat.old }
        requires lists { In (to, dir) (view_of seat.old).owes }
        requires parcel { let o = opening_of self.now in
            HoldsParcel o (from_of o to dir) dir (Some (holds.Parcel parcel)) }
        ensures serves { Serves self.now seat.new }
        ensures posted { HasPosted to dir (view_of seat.old) (view_of seat.new) result }
        ensures mail { HasMailFor (opening_of self.now) seat.new result }
        ensures kept { KeepsMail (view_of seat.old) seat.old seat.new }
    {
        self.load(seat, to, dir, parcel);
        let arrived = self
            .table
            .shared
            .fetch_add::<Arrive>(seat, to as usize + 1, 1);
        answer(to, arrived)
    }

    /// Posts the parcel of a direction of a claim, which is worked, to the tile that it goes to.
    /// `Ready` exactly where it is the last to arrive there: then the seat has the right to finish
    /// that tile.
    pub fn post(&self, seat: &mut Seat, claim: &mut Claim, dir: Dir) -> Posted
        requires serves { Serves self.now seat.old }
        requires owes { Owes (opening_of self.now) (view_of seat.old) claim.old.number dir }
        requires worked { let o = opening_of self.now in
            IsSentBy o claim.old.number dir (parcel_at claim.old.held dir) }
        ensures serves { Serves self.now seat.new }
        ensures posted { let r = to_of (opening_of self.now) claim.old.number dir in
            HasPosted r dir (view_of seat.old) (view_of seat.new) result }
        ensures mail { HasMailFor (opening_of self.now) seat.new result }
        ensures kept { KeepsMail (view_of seat.old) seat.old seat.new }
        ensures number { claim.new.number ≡ claim.old.number }
        ensures taken { claim.new.held ≡ with_parcel claim.old.held dir None }
    {
        let to = self.frame.map().neighbour(claim.number, dir);
        match claim.held.take_parcel(dir) {
            Some(parcel) => self.send(seat, to, dir, parcel),
            None => unreachable!(),
        }
    }
}
