//! Decks whose probes are refused.

use crate::loop_decks::ZEROS;
use crate::pieces::{Case, ELECTRON, ION, MOVING, SCALE, STILL, Table, VERSION_1, VERSION_2};

// of two particles, the end of a table `probe`
const FAULTS: [Case; 18] = [
    Case("ids = [2]", "limit probe.ids[0] [2, 0, 1]"),
    Case("ids = [1, 0, -1]", "limit probe.ids[2] [-1, 0, 1]"),
    Case("ids = [0.5]", "kind probe.ids[0] [0, 0, 0]"),
    Case("ids = 0", "kind probe.ids [0, 0, 0]"),
    Case(
        "places = [[2, 0, 0, 0, 0]]",
        "limit probe.places[0][0] [2, 0, 1]",
    ),
    Case(
        "places = [[-1, 0, 0, 0, 0]]",
        "limit probe.places[0][0] [-1, 0, 1]",
    ),
    Case(
        "places = [[1, 3, 4, 0, 0]]",
        "limit probe.places[0][1] [3, 0, 2]",
    ),
    Case(
        "places = [[1, 0, 4, 0, 0]]",
        "limit probe.places[0][2] [4, 0, 3]",
    ),
    Case(
        "places = [[1, 0, 0, 4, 0]]",
        "limit probe.places[0][3] [4, 0, 3]",
    ),
    Case(
        "places = [[1, 2, 3, 3, 3], [1, 0, 0, 0, -1]]",
        "limit probe.places[1][4] [-1, 0, 3]",
    ),
    Case("places = [[0, 0, 0, 0]]", "kind probe.places[0] [0, 0, 0]"),
    Case("places = [0]", "kind probe.places[0] [0, 0, 0]"),
    Case("places = 0", "kind probe.places [0, 0, 0]"),
    Case(
        "places = [[0, 0, 0, 0, 0], [0, 0, 0, 0, true]]",
        "kind probe.places[1][4] [0, 0, 0]",
    ),
    Case("ids = [2]\nplaces = [0]", "kind probe.places[0] [0, 0, 0]"),
    Case("ids = [2]\nplace = []", "unknown probe.place [0, 0, 0]"),
    Case("every = 1", "unknown probe.every [0, 0, 0]"),
    Case("", "read"),
];

// without particles
const EMPTY: [Case; 5] = [
    Case("probe = { ids = [0] }", "limit probe.ids[0] [0, 0, -1]"),
    Case("probe = { ids = [] }", "read"),
    Case("probe = []", "kind probe [0, 0, 0]"),
    Case("probe = 1\ndrive = 1", "kind drive [0, 0, 0]"),
    Case("probes = 1", "unknown probes [0, 0, 0]"),
];

const STRONG: &str = "scale = { e_to_b = [0, 0], b_to_e = [0, 0], \
    e_force = [1, 0], b_force = [0, 0] }\nfield = { e = [17592186044417, 0, 0] }\n";

// the probes come before the force values
const FORCES: [Case; 2] = [
    Case("probe = 1", "kind probe [0, 0, 0]"),
    Case(
        "probe = {}",
        "limit scale.e_force [17592186044417, -17592186044416, 17592186044416]",
    ),
];

const OLD: [Case; 1] = [Case("probe = {}", "unknown probe [0, 0, 0]")];

// the elements of a list come before their count
const LONG_IDS: [Case; 3] = [
    Case("0]", "limit probe.ids [65, 0, 64]"),
    Case("2]", "limit probe.ids[64] [2, 0, 1]"),
    Case("]", "read"),
];

const LONG_PLACES: [Case; 3] = [
    Case("[1, 2, 3, 3, 3]]", "limit probe.places [65, 0, 64]"),
    Case("[2, 2, 3, 3, 3]]", "limit probe.places[64][0] [2, 0, 1]"),
    Case("]", "read"),
];

const EIGHT: &str = "[0, 0, 0, 0, 0], [0, 0, 0, 0, 0], [0, 0, 0, 0, 0], [0, 0, 0, 0, 0], \
    [0, 0, 0, 0, 0], [0, 0, 0, 0, 0], [0, 0, 0, 0, 0], [0, 0, 0, 0, 0], ";

/// Each table's decks are refused, but for a list of 64 and a table of no keys.
pub static PROBES: [Table; 6] = [
    Table(
        &[VERSION_2, SCALE, ION, STILL, ELECTRON, MOVING, "[probe]\n"],
        &FAULTS,
    ),
    Table(&[VERSION_2, SCALE], &EMPTY),
    Table(&[VERSION_2, STRONG], &FORCES),
    Table(&[VERSION_1, SCALE], &OLD),
    Table(
        &[
            VERSION_2,
            SCALE,
            ION,
            STILL,
            ELECTRON,
            MOVING,
            "[probe]\nids = [",
            ZEROS,
        ],
        &LONG_IDS,
    ),
    Table(
        &[
            VERSION_2,
            SCALE,
            "[probe]\nplaces = [",
            EIGHT,
            EIGHT,
            EIGHT,
            EIGHT,
            EIGHT,
            EIGHT,
            EIGHT,
            EIGHT,
        ],
        &LONG_PLACES,
    ),
];
