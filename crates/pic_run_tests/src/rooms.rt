//! Frames whose last room before a put is exactly full, and one whose last record no longer fits.

use crate::trial::call_in;
use pic_trial::{CALM, Faults, NEVER, NO_STEP, SMALL, Sizes, WAVES};
use std::process::Abort;
use std::thread::Threads;

// A grid of 2048 cells, and particles without a charge that stand in a row, so many.
const GRID: &[u8] = b"version = 1\ngrid = { cells = [16, 16, 8], tiles = [2, 2, 1] }\n";

const GRAINS: &[u8] = b"[[species]]\nname = \"grain\"\ncharge = 0\nmass = 1\n\
    kick = [0, 0]\nturn = [0, 0]\n\
    lattice = { first = [0, 0, 0], gap = [16, 0, 0], v = [0, 0, 0], count = [";

const ROW: &[u8] = b", 1, 1] }\n";

const WIDE: Sizes = Sizes {
    piece: 4096,
    room: 300000,
};

// How many particles there are, which put on out fails, how many bytes it still takes, the status,
// and the length that is left.
type Case = (&'static [u8], u64, usize, u8, usize);

// The header has 124 bytes. A row of 16 values is put into the room as one, of 256 bytes: of the frame
// the first put is its start and 255 rows, 65285 bytes; the second and the third are 256 rows, 65536
// bytes each. The fourth is the last row, the particles and the energies. Of 2718 particles those fill
// the room to its last byte, and the next put is the end record's. With one more the energies are a
// put of their own.
const CASES: [Case; 9] = [
    (b"2718", NEVER, 0, 0, 262023),
    (b"2718", 3, 65535, 5, 196480),
    (b"2718", 4, 0, 5, 196481),
    (b"2718", 4, 65535, 5, 262016),
    (b"2718", 5, 0, 5, 262017),
    (b"2719", NEVER, 0, 0, 262047),
    (b"2719", 5, 0, 5, 261993),
    (b"2719", 5, 47, 5, 262040),
    (b"2719", 6, 0, 5, 262041),
];

fn check_case<H: AllocGlobal + Abort + Threads + Sync>(rt: &H, case: &Case) {
    let (count, put, taken, status, len) = *case;
    let faults = Faults {
        out: (put, taken),
        ..CALM
    };
    let deck = [GRID, NO_STEP, WAVES, GRAINS, count, ROW];
    let left = call_in(rt, &["run"], &deck, WIDE, faults);
    assert_eq!(rt; left.out.bytes().len(), len);
    assert_eq!(rt; left.status, status);
    if status == 0 {
        let read = call_in(rt, &["verify"], &[left.out.bytes()], SMALL, CALM);
        assert_eq!(rt; read.out.bytes(), b"verified 1 frames\n".as_slice());
    }
}

#[test]
fn rooms_that_are_full(rt: HostRuntime) {
    for case in &CASES {
        check_case(&rt, case);
    }
}
