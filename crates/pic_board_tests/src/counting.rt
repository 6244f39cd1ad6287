//! A gate that counts how often it is passed, and a crew that passes it.

ghost use Rattle.std.specs.Prelude.{◌<◌, ◌≤◌};
ghost use Rattle.pic_crew.specs.Teams.{most_workers};

use crate::opening::{begin, eight_tiles};
use pic_crew::on_board;
use pic_gate::{Gate, Point};
use pic_num::Workers;
use pic_team::Team;
use std::process::Abort;
use std::sync::atomic::{AtomicU32, Ordering};
use std::thread::Threads;

// how often the workers have passed
#[derive(Drop)]
struct Counting {
    claimed: AtomicU32,
    posted: AtomicU32,
}

impl Gate for Counting {
    fn pass(&self, _worker: u32, point: Point) {
        let count = match point {
            Point::Claimed => &self.claimed,
            Point::Posted => &self.posted,
        };
        count.fetch_add(1, Ordering::SeqCst);
    }
}

// so many workers push eight tiles at a gate, and so many tiles are there at the end
fn tiles_after<H: AllocGlobal + Abort + Threads + Sync>(
    rt: &H,
    gate: &Counting,
    workers: u32,
) -> usize
    requires some { 0 < workers }
    requires most { workers ≤ most_workers }
{
    let (frame, tiles) = begin(rt.alloc(), eight_tiles()).expect(rt, "memory");
    let workers = Workers::of(workers);
    let team = Team { rt, gate, workers };
    let (_, tiles) = on_board(&team, rt.alloc(), frame, tiles).expect(rt, "memory");
    tiles.len()
}

// so many workers pass the gate 8 and 216 times
fn check_passes<H: AllocGlobal + Abort + Threads + Sync>(rt: &H, workers: u32)
    requires some { 0 < workers }
    requires most { workers ≤ most_workers }
{
    let gate = Counting {
        claimed: AtomicU32::new(0),
        posted: AtomicU32::new(0),
    };
    assert!(rt; tiles_after(rt, &gate, workers) == 8);
    assert!(rt; gate.claimed.load(Ordering::SeqCst) == 8);
    assert!(rt; gate.posted.load(Ordering::SeqCst) == 216);
}

#[test]
fn each_claim_and_each_post_passes_the_gate_once(rt: HostRuntime) {
    check_passes(&rt, 1);
    check_passes(&rt, 2);
    check_passes(&rt, 3);
    check_passes(&rt, 5);
    check_passes(&rt, 64);
}
