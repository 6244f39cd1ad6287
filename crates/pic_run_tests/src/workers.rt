//! The number of workers that the words name comes to the board: two of them meet there, and four.

use crate::trial::{call, call_at};
use pic_gate::{Gate, Hold, Point};
use pic_trial::{CALM, PAIR, Pieces, SMALL};
use std::hint::spin_loop;
use std::process::Abort;
use std::sync::atomic::{AtomicU32, Ordering};
use std::thread::Threads;

// how often a worker looks for the others before it goes on alone
const MOST_TURNS: u32 = 1 << 24;

// a gate at which the workers 0 to 3, each at its first claim, wait until all of them have come; it
// has a bit for each that came
#[derive(Drop)]
struct Gathering {
    came: AtomicU32,
    met: AtomicU32,
}

impl Gathering {
    // comes, and the first time waits for the others
    fn come(&self, bit: u32) {
        if self.came.fetch_or(bit, Ordering::SeqCst) & bit != 0 {
            return;
        }
        for _ in 0..MOST_TURNS {
            if self.came.load(Ordering::SeqCst) == 15 {
                self.met.fetch_add(1, Ordering::SeqCst);
                return;
            }
            spin_loop();
        }
    }
}

impl Gate for Gathering {
    fn pass(&self, worker: u32, point: Point) {
        if point == Point::Claimed && worker < 4 {
            self.come(1 << worker);
        }
    }
}

fn check_meeting<H: AllocGlobal + Abort + Threads + Sync>(
    rt: &H,
    words: &[&str],
    held: Pieces<'_>,
) {
    let hold = Hold::new();
    let left = call_at(rt, words, held, SMALL, CALM, &hold);
    assert!(rt; left.status == 0 && hold.met());
}

#[test]
fn two_workers_meet(rt: HostRuntime) {
    check_meeting(&rt, &["run", "--workers", "2"], PAIR);
    check_meeting(&rt, &["demo", "7", "--workers", "2"], &[]);
    let dump = call(&rt, &["run"], PAIR, CALM);
    let words = ["resume", "--steps=2", "--workers=2", "--tiles-x=2"];
    check_meeting(&rt, &words, &[dump.out.bytes()]);
}

#[test]
fn four_workers_meet(rt: HostRuntime) {
    let gathering = Gathering {
        came: AtomicU32::new(0),
        met: AtomicU32::new(0),
    };
    let words = ["run", "--workers", "4"];
    let left = call_at(&rt, &words, PAIR, SMALL, CALM, &gathering);
    assert!(rt; left.status == 0 && gathering.met.load(Ordering::SeqCst) == 4);
}
