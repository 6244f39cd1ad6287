//! All workers of a board, each in a thread of its own where one can be made.

ghost use Rattle.std.specs.Prelude.{◌≡◌, ◌+◌, ◌<◌, ◌≤◌, ℕ, length, IfOk};
ghost use Rattle.std.specs.List.{All, AllZip};
ghost use Rattle.pic_tile.specs.CoreState.{IsOpening, all_particles};
ghost use Rattle.pic_tile.specs.Exchanged.{AreExchanged};
ghost use Rattle.pic_tile.specs.Frame.{felt_in};
ghost use Rattle.pic_block.specs.Block.{AllAtMost};
ghost use Rattle.pic_block.specs.Cells.{count_of};
ghost use Rattle.pic_grid.specs.Traces.{most_flux};
ghost use Rattle.pic_tile.specs.Directions.{here};
ghost use Rattle.pic_tile.specs.Tile.{flux_at, tile_in};
ghost use Rattle.pic_yard.specs.Seats.{AreNewSeats, HasAllNumbers, IsThrough};
ghost use Rattle.pic_yard.specs.Yards.{Serves, view_of};
ghost use Rattle.pic_crew.specs.Teams.{AreDone, CanWork, HasWorked, most_workers};

use crate::working::work_through;
use pic_gate::Gate;
use pic_num::NoMemory;
use pic_team::{Team, Work, each_share};
use pic_tile::{Frame, Tile};
use pic_yard::{Seat, Yard};
use std::alloc::Global;
use std::thread::Threads;

/// What seats work with: their board, and the gate that each worker passes.
#[derive(Drop)]
struct Crew<'a, G> {
    yard: &'a Yard,
    gate: &'a G,
}

impl<'a, G: Gate> Work<Seat, Seat, ()> for Crew<'a, G> {
    ghost use Rattle.std.specs.Prelude.{◌≡◌, ◌+◌, ◌≤◌, length};
    ghost use Rattle.std.specs.List.{All, AllZip};
    ghost use Rattle.pic_crew.specs.Teams.{CanWork, HasWorked, most_workers};

    ghost can = { λ c first seats _.
        (first + length seats ≤ most_workers) × All (CanWork c.yard.now) seats };

    ghost does = { λ c _ seats _ new _ _. AllZip (HasWorked c.yard.now) seats new };

    ghost both = { λ _ _. tt };

    /// Lets seats work, one after another.
    fn work(&self, first: usize, items: &mut [Seat], _beside: &mut [Seat]) {
        work_in_turn(self, first, items)
    }

    fn both(_front: (), _back: ())
        ensures { result ≡ tt }
    {}
}

/// Lets seats work, one after another, the worker of each numbered as its place, from a number on.
#[cycle(turns)]
fn work_in_turn<G: Gate>(crew: &Crew<G>, first: usize, seats: &mut [Seat])
    requires few { first + length seats.old ≤ most_workers }
    requires can { All (CanWork crew.now.yard.now) seats.old }
    ensures { AllZip (HasWorked crew.now.yard.now) seats.old seats.new }
{
    let Some((seat, others)) = seats.split_first_mut() else {
        return;
    };
    work_through(crew.yard, seat, first as u32, crew.gate);
    work_in_turn(crew, first + 1, others);
}

/// Lets all seats work, each in a thread of its own where one can be made, the worker of each numbered
/// as it is.
fn work_all<R: Threads + Sync, G: Gate + Sync>(team: &Team<R, G>, yard: &Yard, seats: &mut [Seat])
    requires few { length seats.old ≤ most_workers }
    requires new { AreNewSeats yard.now seats.old }
    ensures count { length seats.new ≡ length seats.old }
    ensures done { AreDone yard.now seats.new }
{
    let gate = team.gate;
    let workers = seats.len().max(1);
    each_share(team.rt, workers, &Crew { yard, gate }, seats, &mut []);
}

/// One seat takes in all others.
fn join_all(yard: &Yard, mut seats: Vec<Seat>) -> Seat
    requires some { 0 < length seats.items }
    requires done { AreDone yard.now seats.items }
    ensures serves { Serves yard.now result }
    ensures ended { IsThrough (view_of result) }
    ensures all { HasAllNumbers (length seats.items) (view_of result) }
{
    let Some(mut seat) = seats.pop() else {
        unreachable!()
    };
    while let Some(other) = seats.pop() {
        yard.join(&mut seat, other);
    }
    seat
}

/// Pushes the particles of all tiles of a frame, which are in order and before their push, and
/// moves each to the tile that it leads to, on a board with the workers of a team, each in a thread of
/// its own where one can be made. All memory is taken before the first tile is claimed.
///
/// Afterwards each tile has the particles that are its own and, in twelfths of a charge times a
/// cubic sub-cell, the current at its edges, both in its parcel of no step.
///
/// # Errors
/// `NoMemory` where memory is refused; the frame and the tiles are given up then.
pub fn on_board<R: Threads + Sync, G: Gate + Sync>(
    team: &Team<R, G>,
    alloc: Global,
    frame: Frame,
    tiles: Vec<Tile>,
) -> Result<(Frame, Vec<Tile>), NoMemory>
    requires opening { IsOpening frame tiles.items }
    ensures frame { IfOk result (λ r. r.0 ≡ frame) }
    ensures exchanged { IfOk result (λ r. AreExchanged (felt_in frame) frame.map
        (all_particles tiles.items) r.1.items) }
    ensures bound { IfOk result (λ r. (t : ℕ) → t < count_of frame.map.tiles
        → AllAtMost most_flux (flux_at (tile_in r.1.items t) here)) }
{
    let workers = team.workers.count();
    let (yard, mut seats) = Yard::start(alloc, frame, tiles, workers)?;
    work_all(team, &yard, seats.as_mut_slice());
    let seat = join_all(&yard, seats);
    Ok(yard.close(seat))
}
