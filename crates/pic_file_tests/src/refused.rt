//! Decks that are refused: the first fault of each, in the order of the walk.

use crate::decks::{COARSE, COARSE_POINTS, PAIR, SMALLEST, changed, same, words};
use pic_deck::read_deck;
use std::process::Abort;

// a part of a deck, what stands in its place, and the refusal: its name, its path, and the three
// numbers of a limit
struct Case(&'static str, &'static str, &'static str);

const FAULTS: [Case; 13] = [
    Case("[grid]", "speed = 1\n[grid]", "unknown speed [0, 0, 0]"),
    Case(
        "cells = [2, 2, 2]",
        "cells = [65, 2, 2]",
        "limit grid.cells[0] [65, 2, 64]",
    ),
    Case(
        "cells = [2, 2, 2]",
        "cells = [65, 2, 2]\nx = 1",
        "unknown grid.x [0, 0, 0]",
    ),
    Case(
        "cells = [2, 2, 2]",
        "sub = 12\ncells = [2, 2, 2]",
        "unknown grid.sub [0, 0, 0]",
    ),
    Case(
        "cells = [2, 2, 2]\ntiles = [1, 1, 1]",
        "cells = [4, 4, 4]\ntiles = [4, 1, 1]",
        "limit grid.tiles[0] [4, 1, 2]",
    ),
    Case(
        "cells = [2, 2, 2]\ntiles = [1, 1, 1]",
        "cells = [9, 2, 2]\ntiles = [2, 1, 1]",
        "limit grid.tiles[0] [1, 0, 0]",
    ),
    Case(
        "cells = [2, 2, 2]\ntiles = [1, 1, 1]",
        "cells = [64, 64, 64]\ntiles = [16, 16, 16]",
        "limit grid.tiles [4096, 1, 512]",
    ),
    Case(
        "steps = 0",
        "steps = -1",
        "limit run.steps [-1, 0, 1000000]",
    ),
    Case(
        "every = 1",
        "filter = 0\nevery = 1",
        "unknown run.filter [0, 0, 0]",
    ),
    Case("[1, 4]", "[1, 63]", "limit scale.e_to_b[1] [63, 0, 62]"),
    Case("[1, 4]", "[1]", "kind scale.e_to_b [0, 0, 0]"),
    Case(
        "b_force = [1, 0]",
        "b_force = [1, 0]\n[field]\ne = [17592186044417, 0, 0]",
        "limit scale.e_force [17592186044417, -17592186044416, 17592186044416]",
    ),
    Case(
        "b_force = [1, 0]",
        "b_force = [1, 0]\n[field]\nedges = [[0, 2, 0, 0, 1]]",
        "limit field.edges[0][1] [2, 0, 1]",
    ),
];

const SPECIES_FAULTS: [Case; 15] = [
    Case(
        "charge = 1",
        "charge = 32768",
        "limit species[0].charge [32768, -32768, 32767]",
    ),
    Case(
        "charge = 1",
        "charge = 1\nrandom = {}",
        "unknown species[0].random [0, 0, 0]",
    ),
    Case(
        "points = [[1024, 0, 0, 0, 0, 0]]",
        "",
        "missing species[0].points [0, 0, 0]",
    ),
    Case(
        "points = [[1024, 0, 0, 0, 0, 0]]",
        "random = {}\npair = 1",
        "unknown species[0].pair [0, 0, 0]",
    ),
    Case(
        "points = [[1024, 0, 0, 0, 0, 0]]",
        "random = {}",
        "missing species[0].random.count [0, 0, 0]",
    ),
    Case(
        "points = [[1024, 0, 0, 0, 0, 0]]",
        "pair = { of = \"ion\" }",
        "name species[0].pair.of [0, 0, 0]",
    ),
    Case(
        "points = [[1024, 0, 0, 8388608, 0, 0]]",
        "pair = { of = \"ion\", seed = -1 }",
        "limit species[1].pair.seed [-1, 0, 9223372036854775807]",
    ),
    Case(
        "points = [[1024, 0, 0, 0, 0, 0]]",
        "random = { count = 1, seed = 0, stream = 0, drift = [0, 0, 8388609] }",
        "limit species[0].random.drift[2] [8388609, -8388608, 8388608]",
    ),
    Case(
        "points = [[1024, 0, 0, 0, 0, 0]]",
        "lattice = { first = [0, 0, 0], gap = [0, 0, 0], count = [1024, 1025, 1], v = [0, 0, 0] }",
        "limit species[0] [1049600, 0, 1048576]",
    ),
    Case(
        "[1024, 0, 0, 0, 0, 0]",
        "[1024, 0, 0, 0, 0]",
        "kind species[0].points[0] [0, 0, 0]",
    ),
    Case(
        "[1024, 0, 0, 8388608, 0, 0]",
        "[1024, 0, 16384, 8388608, 0, 0]",
        "limit species[1].points[0][2] [16384, 0, 16383]",
    ),
    Case("\"ion\"", "\"\"", "name species[0].name [0, 0, 0]"),
    Case("\"ion\"", "\"io n\"", "name species[0].name [0, 0, 0]"),
    Case(
        "\"ion\"",
        "\"i23456789_123456789_123456789_123\"",
        "name species[0].name [0, 0, 0]",
    ),
    Case("\"electron\"", "\"ion\"", "name species[1].name [0, 0, 0]"),
];

// version 2: the key of the side and limits by it, and the filter, which is read behind `every`
const COARSE_FAULTS: [Case; 14] = [
    Case("sub = 8\n", "", "missing grid.sub [0, 0, 0]"),
    Case("sub = 8", "sub = 7", "limit grid.sub [7, 8, 14]"),
    Case("sub = 8", "sub = 15", "limit grid.sub [15, 8, 14]"),
    Case(
        "cells = [4, 4, 4]",
        "cells = [129, 2, 2]",
        "limit grid.cells[0] [129, 2, 128]",
    ),
    Case(
        "every = 1",
        "filter = 2\nevery = 1",
        "limit run.filter [2, 0, 1]",
    ),
    Case(
        "every = 1",
        "filter = -1\nevery = 1",
        "limit run.filter [-1, 0, 1]",
    ),
    Case(
        "every = 1",
        "filter = true\nevery = 1",
        "kind run.filter [0, 0, 0]",
    ),
    Case("every = 1", "filter = 2", "missing run.every [0, 0, 0]"),
    Case(
        "[64, 0, 0,",
        "[1024, 0, 0,",
        "limit species[0].points[0][0] [1024, 0, 1023]",
    ),
    Case(
        "524288, 0, 0]",
        "1048577, 0, 0]",
        "limit species[0].points[0][3] [1048577, -1048576, 1048576]",
    ),
    Case(
        COARSE_POINTS,
        "lattice = { first = [0, 0, 0], gap = [0, 0, 0], count = [2048, 2049, 1], v = [0, 0, 0] }",
        "limit species[0] [4196352, 0, 4194304]",
    ),
    Case(
        COARSE_POINTS,
        "lattice = { first = [0, 0, 0], gap = [0, 0, 0], \
        count = [4194304, 4194304, 4194304], v = [0, 0, 0] }",
        "limit species[0] [73786976294838206464, 0, 4194304]",
    ),
    Case(
        COARSE_POINTS,
        "random = { count = 4194305 }",
        "limit species[0].random.count [4194305, 0, 4194304]",
    ),
    Case(
        COARSE_POINTS,
        "random = { count = 4194304, seed = 0, stream = 0, drift = [0, 0, 0], spread = [0, 0, 0] }\n\
        [[species]]\nname = \"other\"\ncharge = 0\nmass = 1\nkick = [0, 0]\nturn = [0, 0]\n\
        points = [[0, 0, 0, 0, 0, 0]]",
        "limit species[1] [4194305, 0, 4194304]",
    ),
];

fn refuses(rt: &(impl AllocGlobal + Abort), bytes: &[u8], wanted: &str) {
    let fault = read_deck(rt.alloc(), bytes).err().expect(rt, "a fault");
    same(rt, words(rt, &fault).as_str(), wanted);
}

fn check_case(rt: &(impl AllocGlobal + Abort), deck: &str, case: &Case) {
    let text = changed(rt, deck, case.0, case.1);
    refuses(rt, text.as_bytes(), case.2);
}

fn check(rt: &(impl AllocGlobal + Abort), deck: &str, cases: &[Case]) {
    for case in cases {
        check_case(rt, deck, case);
    }
}

#[test]
fn the_first_fault_is_named(rt: HostRuntime) {
    check(&rt, SMALLEST, &FAULTS);
    check(&rt, PAIR, &SPECIES_FAULTS);
    check(&rt, COARSE, &COARSE_FAULTS);
}

#[test]
fn bytes_that_are_no_deck(rt: HostRuntime) {
    let long = vec![in rt.alloc(); b' '; 1048577].expect(&rt, "memory");
    refuses(&rt, b"", "missing version [0, 0, 0]");
    refuses(&rt, b"\xff", "text  [0, 0, 0]");
    refuses(&rt, b"version = 1.0", "kind version [0, 0, 0]");
    refuses(&rt, b"version = 3", "limit version [3, 1, 2]");
    refuses(&rt, &long, "limit deck [1048577, 0, 1048576]");
}
