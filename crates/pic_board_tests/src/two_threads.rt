//! Eight tiles and two threads, each with a seat of its own.

ghost use Rattle.pic_crew.specs.Teams.{CanWork, HasWorked};

use crate::opening::{begin, eight_tiles};
use crate::seeing::{check_current, check_place};
use pic_crew::crew;
use pic_gate::Open;
use pic_num::NoMemory;
use pic_tile::Tile;
use pic_yard::{Seat, Yard};
use std::alloc::Global;
use std::thread::{Threads, join};

// both seats work, each in a thread of its own where one can be made
fn work_both<R: Threads + Sync>(rt: &R, yard: &Yard, first: Seat, second: Seat) -> (Seat, Seat)
    requires first { CanWork yard.now first }
    requires second { CanWork yard.now second }
    ensures first { HasWorked yard.now first result.0 }
    ensures second { HasWorked yard.now second result.1 }
{
    join(
        rt,
        move || -> Seat
            requires { CanWork yard.now first }
            ensures { HasWorked yard.entry.now first result }
        { crew(yard, first, 0, &Open) },
        move || -> Seat
            requires { CanWork yard.now second }
            ensures { HasWorked yard.entry.now second result }
        { crew(yard, second, 1, &Open) },
    )
}

// the tiles when both have worked, and the seat of one has taken in the other's
fn run<R: Threads + Sync>(rt: &R, alloc: Global) -> Result<Option<Vec<Tile>>, NoMemory> {
    let (frame, tiles) = begin(alloc, eight_tiles())?;
    let (yard, mut seats) = Yard::start(alloc, frame, tiles, 2)?;
    let Some(second) = seats.pop() else {
        return Ok(None);
    };
    let Some(first) = seats.pop() else {
        return Ok(None);
    };
    let (mut first, second) = work_both(rt, &yard, first, second);
    yard.join(&mut first, second);
    let (_, tiles) = yard.close(first);
    Ok(Some(tiles))
}

#[test]
fn two_threads_end_as_one_worker_does(rt: HostRuntime) {
    let done = run(&rt, rt.alloc()).expect(&rt, "memory");
    let tiles = done.expect(&rt, "both seats");
    assert!(rt; tiles.len() == 8);
    check_place(&rt, &tiles, 0, 0, Some([1024, 0, 0]));
    check_place(&rt, &tiles, 0, 1, None);
    check_place(&rt, &tiles, 1, 1, Some([16284, 0, 0]));
    check_current(&rt, &tiles, 0, [0, 0, 0], 20132659200);
    check_current(&rt, &tiles, 1, [3, 0, 0], 20132659200);
    check_current(&rt, &tiles, 1, [2, 0, 0], 0);
}
