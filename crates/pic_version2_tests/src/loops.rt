//! Driven loops: their fields, what is refused, and their places in a dump.

use crate::trial::{Refused, Run, call, call_on, check, check_refused, check_runs};
use pic_trial::{
    CALM, GRID_4, GRID_OF_12, Left, NO_STEP, ONE_STEP, PAIR_OF_12, Pieces, WAVES, number_at,
};
use std::process::Abort;
use std::thread::Threads;

const TWO_STEPS: &[u8] = b"run = { steps = 2, every = 1 }\n";

/// Fields that act on nothing, each its own force value.
pub const PLAIN: &[u8] =
    b"scale = { e_to_b = [0, 0], b_to_e = [0, 0], e_force = [1, 0], b_force = [1, 0] }\n";

/// A loop around the first face across z, but for its wave.
pub const LOOP: &[u8] = b"[[drive]]\naxis = 2\ncell = [0, 0, 0]\nwave = ";

/// A wave that takes back what it gave.
pub const BACK: &[u8] = b"[8, -8]\n";

/// The greatest number, which makes a force value too large.
pub const GREATEST: &[u8] = b"[1152921504606846976]\n";

const LIGHT: Pieces<'static> = &[GRID_OF_12, TWO_STEPS, PLAIN, LOOP];

const REPORT: &[u8] = b"frame 0 kinetic 0 electric 0 magnetic 0\n\
    frame 1 kinetic 0 electric 256 magnetic 0\n\
    frame 2 kinetic 0 electric 0 magnetic 0\n\
    done 2\n";

// Two loops of one face.
const TOGETHER: &[u8] = b"[3, -5]\n[[drive]]\naxis = 2\ncell = [0, 0, 0]\nwave = [5, -3]\n";

// B is scaled to 1.5, and rounded to 2 before the loop adds 1.
const ROUNDED: &[u8] =
    b"scale = { e_to_b = [0, 0], b_to_e = [1, 1], e_force = [1, 0], b_force = [1, 0] }\n\
    field = { faces = [[2, 0, 0, 0, 3]] }\n\
    drive = [{ axis = 2, cell = [0, 0, 0], wave = [1] }]\n";

// Eight loops around the place where eight tiles meet, with light waves.
const CORNERS: &[u8] = b"run = { steps = 3, every = 3 }\n\
    scale = { e_to_b = [1, 2], b_to_e = [1, 1], e_force = [1, 0], b_force = [1, 0] }\n\
    drive = [\n\
    { axis = 0, cell = [1, 1, 1], wave = [1, 3] },\n\
    { axis = 1, cell = [2, 1, 1], wave = [10, 30] },\n\
    { axis = 2, cell = [1, 2, 1], wave = [100, 300] },\n\
    { axis = 0, cell = [2, 2, 1], wave = [1000, 3000] },\n\
    { axis = 1, cell = [1, 1, 2], wave = [10000, 30000] },\n\
    { axis = 2, cell = [2, 1, 2], wave = [100000, 300000] },\n\
    { axis = 0, cell = [1, 2, 2], wave = [1000000, 3000000] },\n\
    { axis = 1, cell = [2, 2, 2], wave = [10000000, 30000000] },\n\
    ]\n";

const RUNS: [Run; 5] = [
    // Of the header: the number of loops, the axis, the length, the wave. Of the second frame:
    // Ex(0,0,0), Ex(0,1,0), Ey(0,0,0), Ey(1,0,0).
    (
        (LIGHT, BACK),
        0,
        REPORT,
        18709,
        &[
            (68, 4, 1),
            (76, 4, 2),
            (92, 4, 2),
            (96, 8, 8),
            (104, 8, 18446744073709551608),
            (6314, 16, 8),
            (6378, 16, -8),
            (7338, 16, -8),
            (7354, 16, 8),
        ],
    ),
    (
        (LIGHT, TOGETHER),
        0,
        REPORT,
        18745,
        &[(68, 4, 2), (6350, 16, 8), (7374, 16, -8)],
    ),
    // Ex(0,0,0), Ey(0,0,0), and Bz(0,0,0), which stays.
    (
        (&[GRID_OF_12, ONE_STEP], ROUNDED),
        0,
        b"frame 0 kinetic 0 electric 0 magnetic 9\n\
        frame 1 kinetic 0 electric 36 magnetic 9\n\
        done 1\n",
        12504,
        &[(6306, 16, 3), (7330, 16, -3), (11426, 16, 3)],
    ),
    (
        (&[GRID_OF_12, ONE_STEP, PLAIN, LOOP], GREATEST),
        1,
        b"frame 0 kinetic 0 electric 0 magnetic 0\n\
        stopped 1 field electric force 0 0 0 0 1152921504606846976\n",
        6338,
        &[(6322, 16, 1152921504606846976)],
    ),
    // Ex(1,1,1), Ey(1,1,1), Ez(2,2,2).
    (
        (&[GRID_OF_12], CORNERS),
        0,
        b"frame 0 kinetic 0 electric 0 magnetic 0\n\
        frame 3 kinetic 0 electric 2742324379112172 magnetic 6890527801766312\n\
        done 3\n",
        12764,
        &[(6902, 16, 6305), (7926, 16, 112560), (9286, 16, -21881875)],
    ),
];

#[test]
fn driven_loops(rt: HostRuntime) {
    check_runs(&rt, &RUNS);
}

// No force value is too large.
const NO_FORCE: &[u8] =
    b"scale = { e_to_b = [0, 0], b_to_e = [0, 0], e_force = [0, 0], b_force = [0, 0] }\n";

// A run with so many loops of so many greatest numbers, all around one face.
fn run_most<H: AllocGlobal + Abort + Threads + Sync>(rt: &H, loops: usize, numbers: usize) -> Left {
    let wave = b"1152921504606846976, ".repeat(rt.alloc(), numbers);
    let wave = wave.expect(rt, "memory");
    let one = [LOOP, b"[", &wave, b"]\n"].concat(rt.alloc());
    let one = one.expect(rt, "memory");
    let all = one.repeat(rt.alloc(), loops).expect(rt, "memory");
    call(rt, &["run"], &[GRID_OF_12, ONE_STEP, NO_FORCE, &all], CALM)
}

// Of the last loop: its axis, and its last number. Of the second frame: Ex(0,0,0), Ex(0,1,0).
#[test]
fn the_most_loops_of_the_longest_waves(rt: HostRuntime) {
    let left = run_most(&rt, 16, 64);
    let dump = left.out.bytes();
    assert!(rt; left.status == 0 && dump.len() == 20988);
    assert_eq!(rt; number_at(dump, 8056, 4), Some(2));
    assert_eq!(rt; number_at(dump, 8580, 8), Some(1152921504606846976));
    assert_eq!(rt; number_at(dump, 14790, 16), Some(18446744073709551616));
    assert_eq!(rt; number_at(dump, 14854, 16), Some(-18446744073709551616));
    let read = call(&rt, &["verify"], &[dump], CALM);
    check(&rt, &read, 0, b"verified 2 frames\n", b"");
    let line = b"refused 5 limit drive 17 0 16\n";
    check(&rt, &run_most(&rt, 17, 1), 3, b"", line);
    let line = b"refused 5 limit drive[0].wave 65 1 64\n";
    check(&rt, &run_most(&rt, 1, 65), 3, b"", line);
}

const EMPTY: Pieces<'static> = &[GRID_OF_12, NO_STEP, WAVES];

const REFUSED: [Refused; 4] = [
    (
        (
            EMPTY,
            b"drive = [{ axis = 2, cell = [0, 0, 0], wave = [] }]\n",
        ),
        "5 limit drive[0].wave 0 1 64",
    ),
    (
        (EMPTY, b"drive = [{ axis = 3, cell = 0 }]\n"),
        "5 limit drive[0].axis 3 0 2",
    ),
    (
        (EMPTY, b"drive = [{ axis = 2, cell = [3, 3, 4] }]\n"),
        "5 limit drive[0].cell[2] 4 0 3",
    ),
    ((&[GRID_4, NO_STEP, WAVES, LOOP], BACK), "2 unknown drive"),
];

#[test]
fn decks_of_loops(rt: HostRuntime) {
    check_refused(&rt, &REFUSED);
}

// A byte of a loop's dump, what stands in its place, the status of `verify` and its line: the number of
// loops, which is too large or too small; the axis, the first and the last number of the cell, the
// length, and the wave.
const CHANGED: [(usize, u8, u8, &[u8]); 9] = [
    (71, 17, 7, b"bad dump 68 2\n"),
    (71, 0, 7, b"bad dump 76 3\n"),
    (79, 3, 7, b"bad dump 76 2\n"),
    (83, 4, 7, b"bad dump 80 2\n"),
    (91, 4, 7, b"bad dump 88 2\n"),
    (95, 0, 7, b"bad dump 92 2\n"),
    (95, 65, 7, b"bad dump 92 2\n"),
    (96, 0x10, 7, b"bad dump 96 2\n"),
    (104, 0xef, 7, b"bad dump 104 2\n"),
];

fn verify_changed<H: AllocGlobal + Abort + Threads + Sync>(
    rt: &H,
    dump: &[u8],
    place: usize,
    byte: u8,
) -> Left {
    let front = dump.get(..place).expect(rt, "a front of the dump");
    let rest = dump.get(place.wrapping_add(1)..).expect(rt, "the rest");
    call(rt, &["verify"], &[front, &[byte], rest], CALM)
}

// Where the two charges' dump has a loop by its number alone, a frame's mark isn't its axis.
#[test]
fn dumps_of_loops(rt: HostRuntime) {
    let written = call_on(&rt, &["run"], (LIGHT, BACK));
    let dump = written.out.bytes();
    for (place, byte, status, line) in CHANGED {
        let left = verify_changed(&rt, dump, place, byte);
        check(&rt, &left, status, b"", line);
    }
    let left = verify_changed(&rt, dump, 95, 2);
    check(&rt, &left, 0, b"verified 3 frames\n", b"");
    let left = call(&rt, &["upgrade"], &[dump], CALM);
    check(&rt, &left, 0, dump, b"upgraded 3 frames\n");
    let other = call(&rt, &["run"], PAIR_OF_12, CALM);
    let left = verify_changed(&rt, other.out.bytes(), 71, 1);
    check(&rt, &left, 7, b"", b"bad dump 196 2\n");
}
