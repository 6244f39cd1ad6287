//! The end of a board.

ghost use Rattle.std.specs.Prelude.{◌≡◌};
ghost use Rattle.pic_yard.specs.Ended.{AreMerged, HaveExchanged, KeepTheBound};
ghost use Rattle.pic_yard.specs.Seats.{HasAllNumbers, IsThrough};
ghost use Rattle.pic_yard.specs.Yards.{opening_of, Serves, view_of};

use crate::unloading::unload;
use crate::yard::{Seat, Yard};
use pic_tile::{Frame, Tile};

impl Yard {
    /// The frame of the opening, and the finished tiles in the order of their numbers, in the list
    /// in which its tiles were. The seat has taken in all others, was told that no tile is left and
    /// lists nothing. It takes no memory.
    pub fn close(self, seat: Seat) -> (Frame, Vec<Tile>)
        requires serves { Serves self seat }
        requires all { HasAllNumbers (opening_of self).seats (view_of seat) }
        requires ended { IsThrough (view_of seat) }
        ensures frame { result.0 ≡ (opening_of self).frame }
        ensures merged { AreMerged (opening_of self) result.1.items }
        ensures exchanged { HaveExchanged (opening_of self) result.1.items }
        ensures bound { KeepTheBound (opening_of self) result.1.items }
    {
        let Yard {
            table,
            frame,
            mut room,
            tiles: _,
        } = self;
        let mut closed = table.close_with(seat);
        unload(&mut closed, room.as_mut_slice());
        closed.free();
        (frame, room)
    }
}
