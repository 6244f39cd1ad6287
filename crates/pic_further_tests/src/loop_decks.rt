//! Decks whose driven loops are refused.

use crate::pieces::{Case, ION, SCALE, Table, VERSION_1, VERSION_2};

const FAULTS: [Case; 18] = [
    Case(
        "drive = [{ axis = 2, cell = [0, 0, 0], wave = [] }]",
        "limit drive[0].wave [0, 1, 64]",
    ),
    Case(
        "drive = [{ axis = 3, cell = [4, 0, 0], wave = [] }]",
        "limit drive[0].axis [3, 0, 2]",
    ),
    Case(
        "drive = [{ axis = -1, cell = [0, 0, 0], wave = [1] }]",
        "limit drive[0].axis [-1, 0, 2]",
    ),
    Case(
        "drive = [{ axis = 2, cell = [0, 4, 0], wave = [] }]",
        "limit drive[0].cell[1] [4, 0, 3]",
    ),
    Case(
        "drive = [{ axis = 2, cell = [0, 0, -1], wave = [1] }]",
        "limit drive[0].cell[2] [-1, 0, 3]",
    ),
    Case(
        "drive = [{ axis = 2, cell = [0, 0], wave = [1] }]",
        "kind drive[0].cell [0, 0, 0]",
    ),
    Case(
        "drive = [{ axis = 2, cell = [0, 0, 0], wave = [0, 1152921504606846977] }]",
        "limit drive[0].wave[1] [1152921504606846977, -1152921504606846976, 1152921504606846976]",
    ),
    Case(
        "drive = [{ axis = 2, cell = [0, 0, 0], wave = [-1152921504606846977] }]",
        "limit drive[0].wave[0] [-1152921504606846977, -1152921504606846976, 1152921504606846976]",
    ),
    Case(
        "drive = [{ axis = 2, cell = [0, 0, 0], wave = [8, 1.0] }]",
        "kind drive[0].wave[1] [0, 0, 0]",
    ),
    Case(
        "drive = [{ axis = 2, cell = [0, 0, 0], wave = 8 }]",
        "kind drive[0].wave [0, 0, 0]",
    ),
    Case(
        "drive = [{ cell = [0, 0, 0], wave = [1] }]",
        "missing drive[0].axis [0, 0, 0]",
    ),
    Case(
        "drive = [{ axis = 2, wave = [1] }]",
        "missing drive[0].cell [0, 0, 0]",
    ),
    Case(
        "drive = [{ axis = 2, cell = [0, 0, 0], wave = [1] }, { axis = 0, cell = [3, 3, 3] }]",
        "missing drive[1].wave [0, 0, 0]",
    ),
    Case(
        "drive = [{ axis = 3, phase = 0 }]",
        "unknown drive[0].phase [0, 0, 0]",
    ),
    Case("drive = {}", "kind drive [0, 0, 0]"),
    // sixteen elements that are no tables, and seventeen
    Case(
        "drive = [0, 0, 0, 0, 0, 0, 0, 0, 0, 0, 0, 0, 0, 0, 0, 0]",
        "kind drive[0] [0, 0, 0]",
    ),
    Case(
        "drive = [0, 0, 0, 0, 0, 0, 0, 0, 0, 0, 0, 0, 0, 0, 0, 0, 0]",
        "limit drive [17, 0, 16]",
    ),
    Case("drive = []\ndriven = 1", "unknown driven [0, 0, 0]"),
];

// a version that isn't 1 lets the key pass, and is looked at next
const VERSIONS: [Case; 3] = [
    Case("drive = []", "missing version [0, 0, 0]"),
    Case("version = 3\ndrive = 1", "limit version [3, 1, 2]"),
    Case("version = true\ndrive = 1", "kind version [0, 0, 0]"),
];

// the loops come behind the species
const SPECIES: [Case; 2] = [
    Case("points = 1", "kind species[0].points [0, 0, 0]"),
    Case("points = []", "kind drive [0, 0, 0]"),
];

const OLD: [Case; 1] = [Case("drive = []", "unknown drive [0, 0, 0]")];

/// The first 64 numbers of a list.
pub const ZEROS: &str = "0, 0, 0, 0, 0, 0, 0, 0, 0, 0, 0, 0, 0, 0, 0, 0, \
    0, 0, 0, 0, 0, 0, 0, 0, 0, 0, 0, 0, 0, 0, 0, 0, \
    0, 0, 0, 0, 0, 0, 0, 0, 0, 0, 0, 0, 0, 0, 0, 0, \
    0, 0, 0, 0, 0, 0, 0, 0, 0, 0, 0, 0, 0, 0, 0, 0, ";

const ONE: &str = "[[drive]]\naxis = 2\ncell = [0, 0, 0]\nwave = [";

// a wave's numbers come before their count
const LONG: [Case; 3] = [
    Case("0]", "limit drive[0].wave [65, 1, 64]"),
    Case("false]", "kind drive[0].wave[64] [0, 0, 0]"),
    Case("]", "read"),
];

/// Each table's decks are refused, but for a wave of 64 numbers.
pub static LOOPS: [Table; 5] = [
    Table(&[VERSION_2, SCALE], &FAULTS),
    Table(&[], &VERSIONS),
    Table(&[VERSION_2, SCALE, "drive = 1\n", ION], &SPECIES),
    Table(&[VERSION_1, SCALE], &OLD),
    Table(&[VERSION_2, SCALE, ONE, ZEROS], &LONG),
];
