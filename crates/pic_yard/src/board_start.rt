//! The start of a board.

ghost use Rattle.std.specs.Prelude.{◌≡◌, ◌<◌, ◌≤◌, length, IfOk};
ghost use Rattle.pic_tile.specs.CoreState.{IsOpening};
ghost use Rattle.pic_yard.specs.Seats.{AreNewSeats, most_seats};
ghost use Rattle.pic_yard.specs.Yards.{opening_of};

use crate::laying::lay;
use crate::opening::Opening;
use crate::yard::{Seat, Yard};
use atomic_table::Table;
use pic_num::NoMemory;
use pic_tile::{Frame, Tile};
use std::alloc::Global;
use std::snapshot::Snapshot;

impl Yard {
    /// The board of these tiles, and its seats, 1 to 64, in the order of their numbers. The tiles
    /// are all those of the frame's map in order, before their push, and stand for a list of
    /// particles within the limits, whose identities are 0, 1, .. in order. Of all calls at a board
    /// this alone takes memory.
    ///
    /// # Errors
    /// `NoMemory` where memory is refused; the frame and the tiles are given up then.
    pub fn start(
        alloc: Global,
        frame: Frame,
        tiles: Vec<Tile>,
        seats: u32,
    ) -> Result<(Yard, Vec<Seat>), NoMemory>
        requires some { 0 < seats }
        requires most { seats ≤ most_seats }
        requires opening { IsOpening frame tiles.items }
        ensures opening { IfOk result (λ r. opening_of r.0 ≡ record {
          frame = frame;
          tiles = tiles;
          seats = seats;
        }) }
        ensures count { IfOk result (λ r. length r.1.items ≡ seats) }
        ensures new { IfOk result (λ r. AreNewSeats r.0 r.1.items) }
    {
        frame.sound();
        let opening = Opening {
            frame,
            tiles,
            seats: seats as u64,
        };
        let about = Snapshot::of(&opening);
        let Opening {
            frame,
            tiles: mut room,
            seats: _,
        } = opening;
        let tiles = frame.map().count();
        let words = vec![in alloc; 0; tiles as usize + 1]?;
        let slots = lay(alloc, room.as_mut_slice())?;
        let Ok((table, first)) = Table::new(alloc, words.as_slice(), slots, &about) else {
            return Err(NoMemory);
        };
        let yard = Yard {
            table,
            frame,
            room,
            tiles,
        };
        let row = yard.seats_of(alloc, first, seats)?;
        Ok((yard, row))
    }
}
