//! Whole runs, in values of their dumps.

use crate::trial::{call, check_same};
use pic_trial::{
    CALM, CHARGES, ELECTRON, FILTERED, FILTERED_STEP, GRID_2, GRID_4, GRID_OF_8, ION, Left, MOVING,
    MOVING_OF_8, ONE_STEP, PAIR, PAIR_OF_12, PAIR_REPORT, Pieces, STILL, STILL_OF_8, WAVES,
    number_at,
};
use std::process::Abort;
use std::thread::Threads;

/// A run: its deck, the status and the report that it ends with, the length of its dump, and numbers
/// of the dump, each by its place, its length and its value.
pub struct Run {
    pub deck: Pieces<'static>,
    pub status: u8,
    pub report: &'static [u8],
    pub len: usize,
    pub numbers: &'static [(usize, usize, i128)],
}

// Three steps, and a frame due after every ten.
const RARE: Run = Run {
    deck: &[GRID_2, b"run = { steps = 3, every = 10 }\n", WAVES],
    status: 0,
    report: b"frame 0 kinetic 0 electric 0 magnetic 0\n\
        frame 3 kinetic 0 electric 0 magnetic 0\n\
        done 3\n",
    len: 1712,
    numbers: &[],
};

// A face of B; and a step of the fields alone. Of frame 1: Ex(0,0,0), Ex(0,1,0), Ey(0,0,0),
// Ey(1,0,0).
const VACUUM: Run = Run {
    deck: &[
        GRID_4,
        ONE_STEP,
        b"scale = { e_to_b = [0, 0], b_to_e = [1, 1], e_force = [1, 0], b_force = [1, 0] }\n\
        field = { faces = [[2, 0, 0, 0, 8]] }\n",
    ],
    status: 0,
    report: b"frame 0 kinetic 0 electric 0 magnetic 64\n\
        frame 1 kinetic 0 electric 64 magnetic 64\n\
        done 1\n",
    len: 12464,
    numbers: &[
        (6266, 16, 4),
        (6266 + 16 * 4, 16, -4),
        (6266 + 16 * 64, 16, -4),
        (6266 + 16 * 65, 16, 4),
    ],
};

/// A step of two charges. Of frame 1: Ex(0,0,0), and the electron's x and vx.
pub const TWO: Run = Run {
    deck: PAIR,
    status: 0,
    report: PAIR_REPORT,
    len: 12680,
    numbers: &[
        (6434, 16, 412316860416),
        (12602, 4, 3072),
        (12614, 4, 8388608),
    ],
};

// The same on cells of 2^8 sub-cells: the electron moves half a cell again. Of the header: the power
// of two, the filter, the loops and the species; of frame 1: Ex(0,0,0), and the electron's x.
const COARSE: Run = Run {
    deck: &[
        GRID_OF_8,
        ONE_STEP,
        CHARGES,
        ION,
        STILL_OF_8,
        ELECTRON,
        MOVING_OF_8,
    ],
    status: 0,
    report: b"frame 0 kinetic 274877906944 electric 0 magnetic 0\n\
        frame 1 kinetic 274877906944 electric 9216 magnetic 0\n\
        done 1\n",
    len: 12692,
    numbers: &[
        (60, 4, 8),
        (64, 4, 0),
        (68, 4, 0),
        (72, 4, 2),
        (6446, 16, 100663296),
        (12614, 4, 192),
    ],
};

// The two charges with the filter of the current: the electron's own edge gets 8 of 64 parts. Of the
// header: the filter; of frame 1: Ex(0,0,0), and the electron's x.
const SMOOTH: Run = Run {
    deck: FILTERED,
    status: 0,
    report: b"frame 0 kinetic 70368744177664 electric 0 magnetic 0\n\
        frame 1 kinetic 70368744177664 electric 33397665693696 magnetic 0\n\
        done 1\n",
    len: 12692,
    numbers: &[(64, 4, 1), (6446, 16, 3298534883328), (12614, 4, 3072)],
};

// Three pairs on a grid of two cells an axis: one electron crosses a corner, one stands still, and
// one moves a whole cell and comes in on the other side. Of frame 1: Ex(0,0,0), Ex(1,0,0),
// Ex(0,1,0), Ex(0,1,1); x, y, z of the first electron, and x of the others.
const CORNER: Run = Run {
    deck: &[
        GRID_2,
        ONE_STEP,
        CHARGES,
        ION,
        b"[[4095, 4095, 4095, 0, 0, 0], [100, 0, 0, 0, 0, 0], [4096, 0, 0, 0, 0, 0]]\n",
        ELECTRON,
        b"[[4095, 4095, 4095, 8192, 8192, 8192], [100, 0, 0, 0, 0, 0], [4096, 0, 0, 16777216, 0, 0]]\n",
    ],
    status: 0,
    report: b"frame 0 kinetic 281475178037248 electric 0 magnetic 0\n\
        frame 1 kinetic 281475178037248 electric 618475511808 magnetic 0\n\
        done 1\n",
    len: 2120,
    numbers: &[
        (1154, 16, 4),
        (1154 + 16, 16, 824633720836),
        (1154 + 16 * 2, 16, 24572),
        (1154 + 16 * 6, 16, 201277444),
        (1994, 4, 4097),
        (1994 + 4, 4, 4097),
        (1994 + 8, 4, 4097),
        (1994 + 24, 4, 100),
        (1994 + 48, 4, 0),
    ],
};

// One tile, which is its own neighbour all round: an electron goes out at one end and comes in at
// the other. Of frame 1: Ex(0,0,0), Ex(1,0,0), Ex(0,1,0), Ey(0,0,0), and the electron's x.
const ROUND: Run = Run {
    deck: &[
        GRID_2,
        ONE_STEP,
        CHARGES,
        ION,
        b"[[100, 0, 0, 0, 0, 0]]\n",
        ELECTRON,
        b"[[100, 0, 0, -819200, 0, 0]]\n",
    ],
    status: 0,
    report: b"frame 0 kinetic 671088640000 electric 0 magnetic 0\n\
        frame 1 kinetic 671088640000 electric 737280000 magnetic 0\n\
        done 1\n",
    len: 1928,
    numbers: &[
        (1058, 16, -20132659200),
        (1058 + 16, 16, -20132659200),
        (1058 + 16 * 2, 16, 0),
        (1058 + 16 * 8, 16, 0),
        (1850, 4, 8092),
    ],
};

// One face of B, and a step in which E's force value grows too large. The last number of a dump is
// that of its end record.
const STRONG: Run = Run {
    deck: &[
        GRID_2,
        ONE_STEP,
        b"scale = { e_to_b = [1, 4], b_to_e = [2147483647, 0], e_force = [2, 0], b_force = [0, 0] }\n\
        field = { faces = [[2, 0, 0, 0, 4097]] }\n",
    ],
    status: 1,
    report: b"frame 0 kinetic 0 electric 0 magnetic 0\n\
        stopped 1 field electric force 0 0 0 0 17596481003518\n",
    len: 922,
    numbers: &[(906, 16, 17596481003518)],
};

const RUNS: [Run; 7] = [RARE, VACUUM, COARSE, SMOOTH, CORNER, ROUND, STRONG];

pub fn check_run<H: AllocGlobal + Abort + Threads + Sync>(rt: &H, run: &Run) {
    let left = call(rt, &["run"], run.deck, CALM);
    let dump = left.out.bytes();
    assert_eq!(rt; left.report.bytes(), run.report);
    assert!(rt; left.status == run.status && dump.len() == run.len);
    for (place, len, number) in run.numbers {
        assert_eq!(rt; number_at(dump, *place, *len), Some(*number));
    }
}

#[test]
fn whole_runs(rt: HostRuntime) {
    for run in &RUNS {
        check_run(&rt, run);
    }
}

// A deck in front of its tiles and behind them.
type Deck = (&'static [u8], Pieces<'static>);

// And the same deck with tiles of its own.
const TILED: [(Deck, Pieces<'static>); 2] = [
    (
        (
            b"version = 1\ngrid.cells = [4, 4, 4]\n",
            &[ONE_STEP, CHARGES, ION, STILL, ELECTRON, MOVING],
        ),
        PAIR,
    ),
    (
        (
            b"version = 2\ngrid.cells = [4, 4, 4]\ngrid.sub = 12\n",
            &[FILTERED_STEP, CHARGES, ION, STILL, ELECTRON, MOVING],
        ),
        FILTERED,
    ),
];

fn run_in_tiles<H: AllocGlobal + Abort + Threads + Sync>(
    rt: &H,
    (front, rest): Deck,
    [x, y, z]: [u32; 3],
    workers: &str,
) -> Left {
    let tiles = format!(in rt.alloc(); "grid.tiles = [{x}, {y}, {z}]\n");
    let tiles = tiles.expect(rt, "memory");
    let rest = rest.concat(rt.alloc()).expect(rt, "memory");
    let words = ["run", "--workers", workers];
    call(rt, &words, &[front, tiles.as_bytes(), &rest], CALM)
}

// On each number of workers: the same bytes.
fn check_workers<H: AllocGlobal + Abort + Threads + Sync>(
    rt: &H,
    deck: Deck,
    tiles: [u32; 3],
    wanted: &Left,
) {
    for workers in ["1", "3", "64"] {
        let left = run_in_tiles(rt, deck, tiles, workers);
        check_same(rt, &left, wanted);
    }
}

#[test]
fn tiles_and_workers_change_nothing(rt: HostRuntime) {
    for (deck, whole) in TILED {
        let wanted = call(&rt, &["run"], whole, CALM);
        for tiles in [[1, 1, 1], [2, 2, 2], [1, 2, 1]] {
            check_workers(&rt, deck, tiles, &wanted);
        }
    }
}

// Behind the header, of 184 bytes in version 1 and 196 in version 2, both dumps are the same.
#[test]
fn a_side_of_version_1_gives_its_frames(rt: HostRuntime) {
    let first = call(&rt, &["run"], PAIR, CALM);
    let second = call(&rt, &["run"], PAIR_OF_12, CALM);
    assert_eq!(rt; second.report.bytes(), PAIR_REPORT);
    assert!(rt; second.out.bytes().get(196..) == first.out.bytes().get(184..));
}
