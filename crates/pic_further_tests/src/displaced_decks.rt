//! Decks whose displaced species are refused.

use crate::pieces::{Case, ELECTRON, ION, SCALE, STILL, Table, VERSION_1, VERSION_2};

// of an electron
const FAULTS: [Case; 20] = [
    Case(
        "displace = { of = \"ion\", by = [4097, 0, 0], v = [0, 0, 0] }",
        "limit species[1].displace.by[0] [4097, -4096, 4096]",
    ),
    Case(
        "displace = { of = \"ion\", by = [0, -4097, 0], v = [0, 0, 0] }",
        "limit species[1].displace.by[1] [-4097, -4096, 4096]",
    ),
    Case(
        "displace = { of = \"ion\", by = [0, 0], v = [0, 0, 0] }",
        "kind species[1].displace.by [0, 0, 0]",
    ),
    Case(
        "displace = { of = \"ion\", by = [0, 0, 0.5], v = [0, 0, 0] }",
        "kind species[1].displace.by[2] [0, 0, 0]",
    ),
    Case(
        "displace = { of = \"ion\", by = [0, 0, 0], v = [0, 0, 16777217] }",
        "limit species[1].displace.v[2] [16777217, -16777216, 16777216]",
    ),
    Case(
        "displace = { by = [4097, 0, 0], v = [0, 0, 0] }",
        "missing species[1].displace.of [0, 0, 0]",
    ),
    Case(
        "displace = { of = \"ion\", v = [0, 0, 16777217] }",
        "missing species[1].displace.by [0, 0, 0]",
    ),
    Case(
        "displace = { of = \"ion\", by = [0, 0, 0] }",
        "missing species[1].displace.v [0, 0, 0]",
    ),
    Case(
        "displace = { of = 0 }",
        "kind species[1].displace.of [0, 0, 0]",
    ),
    Case(
        "displace = { of = \"iron\" }",
        "name species[1].displace.of [0, 0, 0]",
    ),
    Case(
        "displace = { of = \"electron\" }",
        "name species[1].displace.of [0, 0, 0]",
    ),
    Case(
        "displace = { of = 0, way = 1 }",
        "unknown species[1].displace.way [0, 0, 0]",
    ),
    Case("displace = []", "kind species[1].displace [0, 0, 0]"),
    Case("", "missing species[1].points [0, 0, 0]"),
    Case(
        "displace = 1\npoints = 1",
        "unknown species[1].displace [0, 0, 0]",
    ),
    Case(
        "displace = 1\nlattice = 1",
        "unknown species[1].displace [0, 0, 0]",
    ),
    Case(
        "displace = 1\nrandom = 1",
        "unknown species[1].displace [0, 0, 0]",
    ),
    Case(
        "displace = 1\npair = 1",
        "unknown species[1].displace [0, 0, 0]",
    ),
    Case(
        "displace = 1\npair = 1\nrandom = 1",
        "unknown species[1].pair [0, 0, 0]",
    ),
    Case(
        "displace = 1\npush = 1",
        "unknown species[1].push [0, 0, 0]",
    ),
];

// a species behind an ion, but for its charge and the source of its particles
const OTHER: &str = "[[species]]\nname = \"other\"\nmass = 1\nkick = [0, 0]\nturn = [0, 0]\n";

// the charge is tested behind the name and before the way
const CHARGES: [Case; 3] = [
    Case(
        "charge = -2\ndisplace = { of = \"ion\", by = [4097, 0, 0], v = [0, 0, 0] }",
        "limit species[1].charge [-2, -1, -1]",
    ),
    Case(
        "charge = 1\ndisplace = { of = \"ion\" }",
        "limit species[1].charge [1, -1, -1]",
    ),
    Case(
        "charge = -2\ndisplace = { of = \"iron\" }",
        "name species[1].displace.of [0, 0, 0]",
    ),
];

// an ion that is displaced from an electron behind it
const EARLIER: [Case; 1] = [Case(
    "displace = { of = \"electron\", by = [0, 0, 0], v = [0, 0, 0] }\n\
    [[species]]\nname = \"electron\"\ncharge = -1\n",
    "name species[0].displace.of [0, 0, 0]",
)];

const OLD: [Case; 2] = [
    Case(
        "displace = { of = \"ion\", by = [0, 0, 0], v = [0, 0, 0] }",
        "unknown species[1].displace [0, 0, 0]",
    ),
    Case(
        "displace = 1\npoints = 1",
        "unknown species[1].displace [0, 0, 0]",
    ),
];

const COARSE: &str = "version = 2\n\
    grid = { cells = [4, 4, 4], tiles = [2, 2, 2], sub = 8 }\nrun = { steps = 0, every = 1 }\n";

const COARSE_FAULTS: [Case; 1] = [Case(
    "displace = { of = \"ion\", by = [0, 0, 257], v = [0, 0, 0] }",
    "limit species[1].displace.by[2] [257, -256, 256]",
)];

const FINE: &str = "version = 2\n\
    grid = { cells = [4, 4, 4], tiles = [2, 2, 2], sub = 14 }\nrun = { steps = 0, every = 1 }\n";

const FINE_FAULTS: [Case; 1] = [Case(
    "displace = { of = \"ion\", by = [-16385, 0, 0], v = [0, 0, 0] }",
    "limit species[1].displace.by[0] [-16385, -16384, 16384]",
)];

const NONE: &str = "points = []\n";

/// Each table's decks are refused.
pub static DISPLACED: [Table; 6] = [
    Table(&[VERSION_2, SCALE, ION], &EARLIER),
    Table(&[VERSION_2, SCALE, ION, STILL, ELECTRON], &FAULTS),
    Table(&[VERSION_2, SCALE, ION, STILL, OTHER], &CHARGES),
    Table(&[VERSION_1, SCALE, ION, STILL, ELECTRON], &OLD),
    Table(&[COARSE, SCALE, ION, NONE, ELECTRON], &COARSE_FAULTS),
    Table(&[FINE, SCALE, ION, NONE, ELECTRON], &FINE_FAULTS),
];
