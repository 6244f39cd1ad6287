//! Dumps that are read and run on: a run in parts is the run in one, byte for byte.

use crate::trial::{call, check, check_front, check_same};
use pic_trial::{
    CALM, CHARGES, ELECTRON, Faults, GRID_4, GRID_OF_8, GRID_OF_12, ION, Left, MOVING, MOVING_OF_8,
    PAIR, PAIR_REPORT, Pieces, STILL, STILL_OF_8, number_at,
};
use std::process::Abort;
use std::thread::Threads;

// A deck in front of its steps, and behind them.
type Deck = (&'static [u8], Pieces<'static>);

const TWO: Deck = (GRID_4, &[CHARGES, ION, STILL, ELECTRON, MOVING]);

const COARSE: Deck = (
    GRID_OF_8,
    &[CHARGES, ION, STILL_OF_8, ELECTRON, MOVING_OF_8],
);

// The two charges with the filter of the current.
const FILTERED: Deck = (
    GRID_OF_12,
    &[b"run.filter = 1\n", CHARGES, ION, STILL, ELECTRON, MOVING],
);

// An uncharged particle that is driven until it is too fast, in the fifth step.
const DRIVEN: Deck = (
    GRID_4,
    &[
        b"scale = { e_to_b = [0, 0], b_to_e = [0, 0], e_force = [1, 0], b_force = [1, 0] }\n\
        field = { e = [1, 0, 0] }\n\
        [[species]]\nname = \"neutral\"\ncharge = 0\nmass = 1\nkick = [2097152, 0]\nturn = [0, 0]\n\
        points = [[8192, 0, 0, 0, 0, 0]]\n",
    ],
);

// The run of a deck to so many steps.
fn run<H: AllocGlobal + Abort + Threads + Sync>(
    rt: &H,
    (grid, rest): Deck,
    steps: u32,
    every: u32,
    faults: Faults,
) -> Left {
    let run = format!(in rt.alloc(); "run.steps = {steps}\nrun.every = {every}\n");
    let run = run.expect(rt, "memory");
    let rest = rest.concat(rt.alloc()).expect(rt, "memory");
    call(rt, &["run"], &[grid, run.as_bytes(), &rest], faults)
}

// A dump run on to so many steps, on so many tiles.
fn resume<H: AllocGlobal + Abort + Threads + Sync>(
    rt: &H,
    dump: Pieces<'_>,
    steps: u32,
    [x, y, z]: [u32; 3],
    faults: Faults,
) -> Left {
    let words = format!(in rt.alloc();
        "resume --steps {steps} --workers 3 --tiles-x {x} --tiles-y {y} --tiles-z {z}"
    );
    let words = words.expect(rt, "memory");
    let mut apart = Vec::new(rt.alloc());
    for word in words.as_str().split(' ') {
        apart.push(word).expect(rt, "memory");
    }
    call(rt, &apart, dump, faults)
}

// A deck; every how many steps a frame is due; after how many steps its run ends, goes on and ends
// again, and goes on once more; and how it ends.
type Parts = (Deck, u32, [u32; 3], u8);

const PARTS: [Parts; 13] = [
    (TWO, 1, [0, 0, 1], 0),
    (TWO, 1, [1, 1, 3], 0),
    (TWO, 2, [3, 3, 4], 0),
    (TWO, 2, [3, 4, 6], 0),
    (TWO, 9, [2, 5, 12], 0),
    (COARSE, 1, [1, 1, 2], 0),
    (COARSE, 2, [3, 4, 5], 0),
    (FILTERED, 1, [1, 2, 4], 0),
    (DRIVEN, 1, [1, 2, 3], 0),
    (DRIVEN, 1, [3, 4, 9], 1),
    (DRIVEN, 2, [4, 5, 9], 1),
    (DRIVEN, 2, [3, 5, 5], 1),
    (DRIVEN, 9, [8, 9, 10], 1),
];

// Each part goes on from the dump of the one before, and has the bytes of the run to its steps.
fn check_parts<H: AllocGlobal + Abort + Threads + Sync>(rt: &H, parts: &Parts) {
    let (deck, every, [first, second, third], status) = *parts;
    let mut part = run(rt, deck, first, every, CALM);
    for steps in [second, third] {
        let whole = run(rt, deck, steps, every, CALM);
        part = resume(rt, &[part.out.bytes()], steps, [2; 3], CALM);
        check_same(rt, &part, &whole);
    }
    assert_eq!(rt; part.status, status);
}

#[test]
fn a_run_in_parts_is_the_run_in_one(rt: HostRuntime) {
    for parts in &PARTS {
        check_parts(&rt, parts);
    }
}

// Of frame 2: Ex(0,0,0), Ex(1,0,0), and the electron's x.
const NUMBERS: [(usize, usize, i128); 3] = [
    (12679, 16, 618475290624),
    (12695, 16, 206158430208),
    (18847, 4, 5120),
];

#[test]
fn two_charges_go_on(rt: HostRuntime) {
    let dump = call(&rt, &["run"], PAIR, CALM);
    let words = ["resume", "--steps", "2", "--workers", "3"];
    let left = call(&rt, &words, &[dump.out.bytes()], CALM);
    let lines = PAIR_REPORT.get(..117).expect(&rt, "two lines");
    let more = b"frame 2 kinetic 70368744177664 electric 386547056640 magnetic 0\ndone 2\n";
    let report = [lines, more].concat(rt.alloc()).expect(&rt, "memory");
    check(&rt, &left, 0, left.out.bytes(), &report);
    assert_eq!(rt; left.out.bytes().len(), 18925);
    for (place, len, number) in NUMBERS {
        assert_eq!(rt; number_at(left.out.bytes(), place, len), Some(number));
    }
}

// The header's cells, the steps, the tiles, and the limit. Nothing is read behind the header, and
// nothing put on out.
type Refused = ([u8; 3], u32, [u32; 3], &'static str);

const REFUSED: [Refused; 7] = [
    ([4, 4, 4], 0, [1, 1, 1], "run.steps 0 1 1000000"),
    ([4, 4, 4], 2, [3, 1, 1], "grid.tiles[0] 3 1 2"),
    ([4, 4, 4], 0, [3, 1, 1], "run.steps 0 1 1000000"),
    ([4, 4, 2], 1, [2, 2, 2], "grid.tiles[2] 2 1 1"),
    ([4, 9, 2], 1, [1, 2, 2], "grid.tiles[1] 1 0 0"),
    ([9, 4, 2], 1, [5, 1, 1], "grid.tiles[0] 5 1 4"),
    ([32, 32, 8], 1, [16, 16, 4], "grid.tiles 1024 1 512"),
];

// The dump of the two charges, whose header has other cells, run on.
fn resume_cells<H: AllocGlobal + Abort + Threads + Sync>(
    rt: &H,
    cells: [u8; 12],
    steps: u32,
    tiles: [u32; 3],
) -> Left {
    let dump = call(rt, &["run"], PAIR, CALM);
    let mark = dump.out.bytes().get(..8).expect(rt, "a mark");
    let rest = dump.out.bytes().get(20..184).expect(rt, "the rest");
    resume(rt, &[mark, &cells, rest], steps, tiles, CALM)
}

#[test]
fn steps_and_tiles_that_are_refused(rt: HostRuntime) {
    for ([x, y, z], steps, tiles, limit) in REFUSED {
        let cells = [0, 0, 0, x, 0, 0, 0, y, 0, 0, 0, z];
        let left = resume_cells(&rt, cells, steps, tiles);
        let line = format!(in rt.alloc(); "refused 5 limit {limit}\n").expect(&rt, "memory");
        check(&rt, &left, 3, b"", line.as_bytes());
    }
    let left = resume_cells(&rt, [0; 12], 0, [3; 3]);
    check(&rt, &left, 7, b"", b"bad dump 8 2\n");
}

// The last byte of Ex(0,0,0) of a frame is another: the steps of the dump, every how many a frame is
// due, and the steps that it is run on to; the frame's number, where it begins and the length of the
// lines before it; and the charge. The third frame isn't kept.
type Broken = ([u32; 3], u32, (usize, usize), i128);

const BROKEN: [Broken; 2] = [
    ([2, 1, 2], 1, (6429, 53), 412316860416),
    ([3, 2, 4], 2, (12674, 117), 618475290624),
];

#[test]
fn a_broken_frame_in_the_middle(rt: HostRuntime) {
    for ([steps, every, more], frame, ends, charge) in BROKEN {
        let dump = run(&rt, TWO, steps, every, CALM);
        let calm = run(&rt, TWO, more, every, CALM);
        let place = ends.0.wrapping_add(20);
        let front = dump.out.bytes().get(..place).expect(&rt, "a front");
        let rest = dump.out.bytes().get(place.wrapping_add(1)..);
        let held = [front, &[1], rest.expect(&rt, "the rest")];
        let left = resume(&rt, &held, more, [1; 3], CALM);
        let div = charge.wrapping_add(1);
        let line = format!(in rt.alloc();
            "broken frame {frame} node 0 0 0 div {div} rho {charge}\n"
        );
        let line = line.expect(&rt, "memory");
        check_front(&rt, &left, &calm, ends, (8, line.as_bytes()));
    }
}

// Behind two frames of the dump of three steps: a stop in the second.
const STOPPED: &[u8] = b"E\x02\0\0\0\x02\0\0\0\0\x03\0\0\0\0\0\0\0\0\0\0\0\0\0\0\0\x20\0";

#[test]
fn an_end_record_is_not_used(rt: HostRuntime) {
    let whole = run(&rt, TWO, 3, 1, CALM);
    let front = whole.out.bytes().get(..12674).expect(&rt, "two frames");
    let left = resume(&rt, &[front, STOPPED], 3, [1, 2, 1], CALM);
    check_same(&rt, &left, &whole);
}

// The puts are those of the run in one: the header, three frames and the end record; and four lines.
fn check_puts<H: AllocGlobal + Abort + Threads + Sync>(rt: &H, faults: Faults, status: u8) {
    let dump = call(rt, &["run"], PAIR, CALM);
    let whole = run(rt, TWO, 2, 1, faults);
    let left = resume(rt, &[dump.out.bytes()], 2, [1; 3], faults);
    check_same(rt, &left, &whole);
    assert_eq!(rt; left.status, status);
}

#[test]
fn each_put_fails_in_turn(rt: HostRuntime) {
    for number in 0..5 {
        for taken in [0, 1, 5] {
            let out = (number, taken);
            check_puts(&rt, Faults { out, ..CALM }, 5);
            let report = (number, taken);
            let status = if number < 4 { 5 } else { 0 };
            check_puts(&rt, Faults { report, ..CALM }, status);
        }
    }
}
