//! The seats of a board: they are made of one another at its start, and taken in at its end.

ghost use Rattle.std.specs.Prelude.{◌≡◌, ◌-◌, ◌<◌, [], length, IfOk};
ghost use Rattle.pic_yard.specs.Seats.{AreNewSeats, gave_next, IsThrough, HasNext, IsNewSeat, next_seat};
ghost use Rattle.pic_yard.specs.Steps.{ahead, spent_view, took_in};
ghost use Rattle.pic_yard.specs.Yards.{KeepsMail, opening_of, Serves, view_of};

use crate::view::View;
use crate::yard::{Seat, Yard};
use atomic_table::{Join, Split};
use pic_num::NoMemory;
use std::alloc::Global;

/// How a seat makes another of the next number.
pub struct MakesNext;

impl Split<View> for MakesNext {
    ghost left = { gave_next };

    ghost right = { next_seat };
}

/// How a seat takes in another.
pub struct TakesIn;

impl Join<View> for TakesIn {
    ghost both = { took_in };

    ghost spent = { spent_view };
}

impl Yard {
    /// A seat makes another of the next of the numbers that it is still to make.
    fn split(&self, seat: &mut Seat) -> Seat
        requires serves { Serves self.now seat.old }
        requires next { HasNext (view_of seat.old) }
        ensures serves { Serves self.now seat.new }
        ensures view { view_of seat.new ≡ gave_next (view_of seat.old) }
        ensures made { Serves self.now result }
        ensures made_view { view_of result ≡ next_seat (view_of seat.old) }
    {
        self.table.shared.split_seat::<MakesNext>(seat)
    }

    /// As many seats, in the order of their numbers, of the first, which is to make all others.
    ///
    /// # Errors
    /// `NoMemory` where memory is refused.
    pub(crate) fn seats_of(
        &self,
        alloc: Global,
        first: Seat,
        seats: u32,
    ) -> Result<Vec<Seat>, NoMemory>
        requires some { 0 < seats }
        requires first { IsNewSeat self.now 0 (ahead 1 (seats - 1)) first }
        ensures count { IfOk result (λ row. length row.items ≡ seats) }
        ensures new { IfOk result (λ row. AreNewSeats self.now row.items) }
    {
        let mut row = Vec::new(alloc);
        row.push(first)?;
        for _ in 1..seats {
            let made = self.split(&mut row[0]);
            row.push(made)?;
        }
        Ok(row)
    }

    /// A seat takes in another, which was told that no tile is left and lists nothing. It has the
    /// other's numbers then, and the later of their draws.
    pub fn join(&self, seat: &mut Seat, other: Seat)
        requires serves { Serves self.now seat.old }
        requires other { Serves self.now other }
        requires ended { IsThrough (view_of other) }
        ensures serves { Serves self.now seat.new }
        ensures view { view_of seat.new ≡ took_in (view_of seat.old) (view_of other) }
        ensures mail { KeepsMail (view_of seat.old) seat.old seat.new }
    {
        self.table.shared.join_seat::<TakesIn>(seat, other);
    }
}
