//! A tile is claimed, and pushed.

ghost use Rattle.std.specs.Prelude.{◌≡◌, ℕ, ◌<◌, false, MatchOption, IfSome};
ghost use Rattle.pic_tile.specs.Directions.{directions};
ghost use Rattle.pic_tile.specs.Tile.{parcel_at};
ghost use Rattle.pic_yard.specs.Draws.{HasClaimed, IsUnworked, WasTold};
ghost use Rattle.pic_yard.specs.Sits.{Drawn};
ghost use Rattle.pic_yard.specs.Yards.{IsSentBy, KeepsMail, Serves, opening_of, view_of};

use crate::claim::Claim;
use crate::slot_content::SlotContent;
use crate::slot_numbers::home;
use crate::view::View;
use crate::yard::{Seat, Yard};
use atomic_table::Play;
use pic_push::push_tile;

/// A draw from the ticket.
pub struct TicketDraw;

impl Play<Option<SlotContent>, View> for TicketDraw {
    ghost then = { λ step old n new. IfSome old.0.opening (λ o. Drawn o old n new) };
}

impl Yard {
    /// Draws the next number for a seat that was not told that no tile is left, and claims its
    /// tile; `None` exactly where it is that of no tile, which the seat then was told.
    pub fn claim(&self, seat: &mut Seat) -> Option<Claim>
        requires serves { Serves self.now seat.old }
        requires fresh { (view_of seat.old).told ≡ false }
        ensures serves { Serves self.now seat.new }
        ensures drawn { let o = opening_of self.now in
            MatchOption result (WasTold o (view_of seat.old) (view_of seat.new))
            (HasClaimed o (view_of seat.old) (view_of seat.new)) }
        ensures mail { KeepsMail (view_of seat.old) seat.old seat.new }
    {
        let number = self.table.shared.fetch_add::<TicketDraw>(seat, 0, 1);
        if number >= self.tiles as u64 {
            return None;
        }
        let number = number as u32;
        match self.exchange_tile(seat, home(number), None) {
            Some(held) => Some(Claim { number, held }),
            None => unreachable!(),
        }
    }

    /// Pushes the particles of a claimed tile, which is as it was at the start.
    pub fn work(&self, seat: &Seat, claim: &mut Claim)
        requires serves { Serves self.now seat.now }
        requires unworked { IsUnworked (opening_of self.now) claim.old }
        ensures number { claim.new.number ≡ claim.old.number }
        ensures pushed { (d : ℕ) → d < directions
            → IsSentBy (opening_of self.now) claim.old.number d (parcel_at claim.new.held d) }
    {
        let _seat = seat;
        push_tile(&self.frame, &mut claim.held);
    }
}
