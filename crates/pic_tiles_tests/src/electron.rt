//! An electron that leaves its tile, under events in several orders.

ghost use Rattle.std.specs.Prelude.{IfOk};
ghost use Rattle.pic_core.specs.AtStart.{HasNotBegun};

use crate::opening::{eight_tiles, free};
use pic_core::{Core, Event};
use pic_gate::{Gate, Point};
use pic_num::{Axis, NoMemory, Particle};
use pic_tile::{Dir, Tile, cut};
use std::alloc::Global;
use std::sync::atomic::{AtomicU32, Ordering};

// an electron at (100, 0, 0) that moves by (-200, 0, 0)
#[tactic(auto, using(pic_tile::proofs::OwnerLaws::one_in_box))]
fn begin(alloc: Global) -> Result<Core, NoMemory>
    ensures { IfOk result HasNotBegun }
{
    let electron = Particle {
        id: 0,
        species: 0,
        x: [100, 0, 0],
        v: [-819200, 0, 0],
    };
    let map = eight_tiles();
    let frame = free(alloc, map)?;
    let tiles = cut(alloc, &map, &[electron])?;
    frame.sound();
    Core::new(alloc, frame, tiles)
}

// the claims of all tiles
fn add_claims(events: &mut Vec<Event>, descending: bool) -> Result<(), NoMemory> {
    for k in 0..8 {
        events.push(Event::Claim(if descending { 7 - k } else { k }))?;
    }
    Ok(())
}

// the posts of all parcels, those of one direction first
fn add_posts(events: &mut Vec<Event>, first: u32) -> Result<(), NoMemory> {
    for k in 0..216 {
        let dir = Dir::of((k / 8 + first % 27) % 27);
        events.push(Event::Post(k % 8, dir))?;
    }
    Ok(())
}

// the merges of all parcels, those of no step first
fn add_merges(events: &mut Vec<Event>) -> Result<(), NoMemory> {
    for k in 0..216 {
        let dir = Dir::of((k / 8 + 13) % 27);
        events.push(Event::Merge(k % 8, dir))?;
    }
    Ok(())
}

fn add_shuts(events: &mut Vec<Event>) -> Result<(), NoMemory> {
    for tile in 0..8 {
        events.push(Event::Shut(tile))?;
    }
    Ok(())
}

// all events of a push of eight tiles
fn all_events(alloc: Global, descending: bool, first: u32) -> Result<Vec<Event>, NoMemory> {
    let mut events = Vec::new(alloc);
    add_claims(&mut events, descending)?;
    add_posts(&mut events, first)?;
    add_merges(&mut events)?;
    add_shuts(&mut events)?;
    Ok(events)
}

// the tiles after these events, or none where they don't finish them
fn run(alloc: Global, events: &[Event]) -> Result<Vec<Tile>, NoMemory> {
    let mut core = begin(alloc)?;
    if core.run_events(events).is_err() || !core.finished() {
        return Ok(Vec::new(alloc));
    }
    let (_, tiles) = core.close();
    Ok(tiles)
}

// a gate that counts how often it is passed
#[derive(Drop)]
struct Tally {
    claimed: AtomicU32,
    posted: AtomicU32,
}

impl Gate for Tally {
    fn pass(&self, _worker: u32, point: Point) {
        let _before = match point {
            Point::Claimed => self.claimed.fetch_add(1, Ordering::SeqCst),
            Point::Posted => self.posted.fetch_add(1, Ordering::SeqCst),
        };
    }
}

// the tiles when one worker has let all events come
fn run_in_turn(alloc: Global, gate: &Tally) -> Result<Vec<Tile>, NoMemory> {
    let mut core = begin(alloc)?;
    core.run_in_turn(gate);
    let (_, tiles) = core.close();
    Ok(tiles)
}

// the position of a tile's first particle
fn first_of(tiles: &[Tile], number: usize) -> Option<[u32; 3]> {
    let parcel = tiles.get(number)?.parcel(Dir::HERE)?;
    parcel.chain.iter().next().map(|electron| electron.x)
}

// the current of a tile through the edge on x of a cell
fn current_of(tiles: &[Tile], number: usize, cell: [i32; 3]) -> Option<i128> {
    let parcel = tiles.get(number)?.parcel(Dir::HERE)?;
    if !parcel.flux.has(cell) {
        return None;
    }
    Some(parcel.flux.at(Axis::X, cell))
}

#[test]
fn each_order_ends_alike(rt: HostRuntime) -> Result<(), NoMemory> {
    for (descending, first) in [(false, 0), (true, 0), (false, 26)] {
        let events = all_events(rt.alloc(), descending, first)?;
        assert_eq!(rt; events.len(), 448);
        let tiles = run(rt.alloc(), &events)?;
        assert_eq!(rt; tiles.len(), 8);
        assert_eq!(rt; first_of(&tiles, 0), None);
        assert_eq!(rt; first_of(&tiles, 1), Some([16284, 0, 0]));
        assert_eq!(rt; current_of(&tiles, 0, [0, 0, 0]), Some(20132659200));
        assert_eq!(rt; current_of(&tiles, 1, [3, 0, 0]), Some(20132659200));
        assert_eq!(rt; current_of(&tiles, 1, [2, 0, 0]), Some(0));
    }
    Ok(())
}

#[test]
fn one_worker_ends_alike(rt: HostRuntime) -> Result<(), NoMemory> {
    let tally = Tally {
        claimed: AtomicU32::new(0),
        posted: AtomicU32::new(0),
    };
    let tiles = run_in_turn(rt.alloc(), &tally)?;
    assert_eq!(rt; tally.claimed.load(Ordering::SeqCst), 8);
    assert_eq!(rt; tally.posted.load(Ordering::SeqCst), 216);
    assert_eq!(rt; first_of(&tiles, 0), None);
    assert_eq!(rt; first_of(&tiles, 1), Some([16284, 0, 0]));
    assert_eq!(rt; current_of(&tiles, 0, [0, 0, 0]), Some(20132659200));
    assert_eq!(rt; current_of(&tiles, 1, [3, 0, 0]), Some(20132659200));
    Ok(())
}

#[test]
fn an_event_out_of_turn_is_not_allowed(rt: HostRuntime) -> Result<(), NoMemory> {
    let mut core = begin(rt.alloc())?;
    assert!(rt; core.apply(Event::Post(0, Dir::HERE)).is_err());
    assert!(rt; core.apply(Event::Claim(0)).is_ok());
    assert!(rt; core.apply(Event::Claim(0)).is_err());
    assert!(rt; core.apply(Event::Merge(0, Dir::HERE)).is_err());
    assert!(rt; core.apply(Event::Shut(0)).is_err());
    assert!(rt; core.apply(Event::Post(0, Dir::HERE)).is_ok());
    assert!(rt; !core.finished());
    Ok(())
}

#[test]
fn a_run_stops_at_the_first_that_is_not_allowed(rt: HostRuntime) -> Result<(), NoMemory> {
    let mut core = begin(rt.alloc())?;
    let events = [
        Event::Claim(0),
        Event::Claim(1),
        Event::Claim(2),
        Event::Claim(3),
        Event::Claim(4),
        Event::Claim(0),
    ];
    assert_eq!(rt; core.run_events(&events), Err((5, Event::Claim(0))));
    let next = [Event::Claim(7), Event::Claim(4)];
    assert_eq!(rt; core.run_events(&next), Err((1, Event::Claim(4))));
    Ok(())
}
