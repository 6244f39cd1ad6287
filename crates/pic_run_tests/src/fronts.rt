//! What `upgrade` and `resume` put of a dump before its fault, and before a take that fails.

use crate::trial::{call, check_front};
use pic_trial::{CALM, Faults, GRID_2, PAIR, WAVES};
use std::process::Abort;
use std::thread::Threads;

const UPGRADE: &[&str] = &["upgrade"];

// Where the header and the frames end that a call puts, one after another: on out, and on report.
type Ends<'a> = &'a [(usize, usize)];

// A byte of the two charges' dump, what stands in its place, and the length that the dump is cut to;
// then how many parts are whole before the fault, and the line.
type Case = (usize, u8, usize, usize, &'static [u8]);

// Each cause in turn.
const CASES: [Case; 12] = [
    (0, 0, 12680, 0, b"bad dump 0 1\n"),
    (7, b'3', 12680, 0, b"bad dump 7 1\n"),
    (11, 65, 12680, 0, b"bad dump 8 2\n"),
    (0, b'P', 184, 1, b"bad dump 184 9\n"),
    (184, b'E', 12680, 1, b"bad dump 184 3\n"),
    (188, 1, 12680, 1, b"bad dump 185 4\n"),
    (189, 0x7f, 12680, 1, b"bad dump 189 5\n"),
    (6335, 0x40, 12680, 1, b"bad dump 6333 6\n"),
    (6396, 1, 12680, 1, b"bad dump 6381 7\n"),
    (12675, 3, 12680, 3, b"bad dump 12675 8\n"),
    (0, b'P', 12679, 3, b"bad dump 12679 9\n"),
    (0, b'P', 12681, 3, b"bad dump 12680 10\n"),
];

fn check_faults<H: AllocGlobal + Abort + Threads + Sync>(rt: &H, words: &[&str], ends: Ends<'_>) {
    let dump = call(rt, &["run"], PAIR, CALM);
    let calm = call(rt, words, &[dump.out.bytes()], CALM);
    let held = [dump.out.bytes(), &[0]].concat(rt.alloc());
    let held = held.expect(rt, "memory");
    for (place, byte, len, parts, line) in CASES {
        let front = held.get(..place).expect(rt, "a front");
        let rest = held.get(place.wrapping_add(1)..len).expect(rt, "the rest");
        let left = call(rt, words, &[front, &[byte], rest], CALM);
        let end = *ends.get(parts).expect(rt, "an end");
        check_front(rt, &left, &calm, end, (7, line));
    }
}

#[test]
fn each_fault_in_turn(rt: HostRuntime) {
    check_faults(&rt, UPGRADE, &[(0, 0), (196, 0), (6441, 0), (12686, 0)]);
    let resume = ["resume", "--steps", "2"];
    check_faults(&rt, &resume, &[(0, 0), (184, 0), (6429, 53), (12674, 117)]);
}

// Each take of the dump of an empty grid fails in turn, and each front is left by some of them.
fn check_takes<H: AllocGlobal + Abort + Threads + Sync>(rt: &H, words: &[&str], ends: Ends<'_>) {
    let deck = [GRID_2, b"run = { steps = 3, every = 2 }\n", WAVES];
    let dump = call(rt, &["run"], &deck, CALM);
    let calm = call(rt, words, &[dump.out.bytes()], CALM);
    let mut parts: usize = 0;
    for take in 0..200 {
        let left = call(rt, words, &[dump.out.bytes()], Faults { take, ..CALM });
        if left.status == 0 {
            assert!(rt; parts.wrapping_add(1) == ends.len());
            return;
        }
        let end = *ends.get(parts).expect(rt, "an end");
        if left.out.bytes().len() > end.0 {
            parts = parts.wrapping_add(1);
        }
        let end = *ends.get(parts).expect(rt, "an end");
        check_front(rt, &left, &calm, end, (4, b"read fault\n"));
    }
    assert!(rt; false, "a take of 200 still fails");
}

// The frames are those of the steps 0, 2 and 3: the last one is kept where the run ends there.
#[test]
fn each_take_fails_in_turn(rt: HostRuntime) {
    check_takes(
        &rt,
        UPGRADE,
        &[(0, 0), (76, 0), (897, 0), (1718, 0), (2539, 0)],
    );
    let ends = [(0, 0), (64, 0), (885, 40), (1706, 80), (2527, 120)];
    check_takes(&rt, &["resume", "--steps", "3"], &ends);
    check_takes(
        &rt,
        &["resume", "--steps", "5"],
        &[(0, 0), (64, 0), (885, 40), (1706, 80)],
    );
}
