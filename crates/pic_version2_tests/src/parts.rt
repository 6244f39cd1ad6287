//! Runs with loops, and runs of displaced starts, in parts: they are the runs in one, byte for byte.

use crate::displaced::ELECTRON_BY;
use crate::loops::{BACK, LOOP, PLAIN};
use crate::trial::{Deck, call, check_same};
use pic_trial::{CALM, CHARGES, ELECTRON, GRID_OF_12, ION, Left, MOVING, STILL};
use std::process::Abort;
use std::thread::Threads;

// What a deck has behind its grid and its steps; every how many steps a frame is due; after how many
// steps its run ends, goes on and ends again, and goes on once more; and how it ends.
type Parts = (Deck, u32, [u32; 3], u8);

const FILTER: &[u8] = b"run.filter = 1\n";

// Waves of two and three numbers, and one whose second number stops the run.
const PARTS: [Parts; 6] = [
    ((&[PLAIN, LOOP], BACK), 1, [1, 2, 3], 0),
    ((&[PLAIN, LOOP], b"[1, 20, 300]\n"), 2, [1, 5, 7], 0),
    (
        (&[PLAIN, LOOP], b"[1, 1152921504606846976]\n"),
        1,
        [0, 1, 4],
        1,
    ),
    (
        (
            &[FILTER, CHARGES, ION, STILL, ELECTRON, MOVING, LOOP],
            b"[9, 0, -7]\n",
        ),
        1,
        [1, 2, 5],
        0,
    ),
    (
        (
            &[CHARGES, ION, STILL, ELECTRON_BY],
            b"[2048, 4096, -4096] }\n",
        ),
        1,
        [0, 1, 2],
        0,
    ),
    (
        (
            &[FILTER, PLAIN, LOOP, BACK, ION, MOVING, ELECTRON_BY],
            b"[-2048, 1, 0] }\n",
        ),
        2,
        [0, 3, 4],
        0,
    ),
];

// The run of a deck to so many steps.
fn run<H: AllocGlobal + Abort + Threads + Sync>(
    rt: &H,
    (front, rest): Deck,
    every: u32,
    steps: u32,
) -> Left {
    let run = format!(in rt.alloc(); "run.steps = {steps}\nrun.every = {every}\n");
    let run = run.expect(rt, "memory");
    let front = front.concat(rt.alloc()).expect(rt, "memory");
    call(
        rt,
        &["run"],
        &[GRID_OF_12, run.as_bytes(), &front, rest],
        CALM,
    )
}

// Each part goes on from the dump of the one before, on other tiles and workers.
fn check_parts<H: AllocGlobal + Abort + Threads + Sync>(rt: &H, parts: &Parts) {
    let (deck, every, [first, second, third], status) = *parts;
    let mut part = run(rt, deck, every, first);
    for steps in [second, third] {
        let whole = run(rt, deck, every, steps);
        let text = format!(in rt.alloc(); "--steps={steps}").expect(rt, "memory");
        let words = ["resume", text.as_str(), "--workers=3", "--tiles-x=2"];
        part = call(rt, &words, &[part.out.bytes()], CALM);
        check_same(rt, &part, &whole);
    }
    assert_eq!(rt; part.status, status);
}

#[test]
fn runs_in_parts_are_runs_in_one(rt: HostRuntime) {
    for parts in &PARTS {
        check_parts(&rt, parts);
    }
}
