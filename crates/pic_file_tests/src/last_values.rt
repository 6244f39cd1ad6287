//! Decks of version 2 at the last values of its limits, which are read.

use crate::decks::{COARSE, COARSE_POINTS, changed, deck_of};
use std::process::Abort;

const GRID: &str = "cells = [4, 4, 4]\ntiles = [2, 2, 2]";

const SIDE: &str = "sub = 8";

// What stands in place of the grid's cells and tiles, of the power of two of its side, and of the
// points; and how many particles the deck has then.
struct Case(&'static str, &'static str, &'static str, usize);

const CASES: [Case; 8] = [
    Case(
        GRID,
        SIDE,
        "lattice = { first = [1023, 1023, 1023], gap = [32768, 32768, 32768], \
        count = [4194304, 1, 1], v = [1048576, -1048576, 0] }",
        4194304,
    ),
    Case(
        GRID,
        "sub = 12",
        "lattice = { first = [16383, 0, 0], gap = [0, 524288, 0], \
        count = [1, 4194304, 1], v = [0, 0, -16777216] }",
        4194304,
    ),
    Case(
        GRID,
        "sub = 14",
        "lattice = { first = [0, 65535, 0], gap = [0, 0, 2097152], \
        count = [1, 1, 4194304], v = [67108864, 0, 0] }",
        4194304,
    ),
    Case(
        GRID,
        "sub = 14",
        "lattice = { first = [0, 0, 0], gap = [1, 1, 1], count = [2048, 2048, 1], v = [0, 0, 0] }",
        4194304,
    ),
    Case(
        GRID,
        SIDE,
        "random = { count = 4194304, seed = 9223372036854775807, stream = 0, \
        drift = [524288, -524288, 0], spread = [65536, 0, 0] }",
        4194304,
    ),
    Case(
        GRID,
        SIDE,
        "random = { count = 2097152, seed = 0, stream = 0, drift = [0, 0, 0], spread = [0, 0, 0] }\n\
        [[species]]\nname = \"other\"\ncharge = 0\nmass = 1\nkick = [0, 0]\nturn = [0, 0]\n\
        pair = { of = \"neutral\", seed = 0, stream = 1, drift = [0, 0, 0], spread = [0, 0, 0] }",
        4194304,
    ),
    Case(
        "cells = [128, 128, 128]\ntiles = [64, 8, 1]",
        SIDE,
        "points = [[32767, 32767, 32767, 0, 0, 0]]",
        1,
    ),
    Case(
        "cells = [2, 128, 3]\ntiles = [1, 64, 1]",
        "sub = 14",
        "points = [[32767, 2097151, 49151, 0, 0, 0]]",
        1,
    ),
];

fn check_case(rt: &(impl AllocGlobal + Abort), case: &Case) {
    let deck = changed(rt, COARSE, GRID, case.0);
    let deck = changed(rt, deck.as_str(), SIDE, case.1);
    let deck = changed(rt, deck.as_str(), COARSE_POINTS, case.2);
    assert_eq!(rt; deck_of(rt, deck.as_str()).particles(), case.3);
}

#[test]
fn the_last_values_of_version_2_are_read(rt: HostRuntime) {
    for case in &CASES {
        check_case(&rt, case);
    }
}
