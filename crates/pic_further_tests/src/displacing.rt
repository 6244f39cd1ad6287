//! The E of a displaced start, worked by hand from the paths of the ways.

use crate::fields::{Value, check_values};
use crate::pieces::{ELECTRON, ION, Pieces, SCALE, STILL, VERSION_2};
use crate::reading::{Told, check_loaded, deck_of, same, words};
use pic_deck::{Deck, DeckFault};
use pic_displace::{DisplaceFault, displace};
use pic_grid::Lattice;
use pic_load::load;
use std::process::Abort;

// What is answered of a displaced start, in words.
fn said(rt: &(impl AllocGlobal + Abort), fault: Option<DisplaceFault>) -> String {
    match fault {
        Some(DisplaceFault::Refused(refusal)) => words(rt, &DeckFault::Refused(refusal)),
        Some(DisplaceFault::NoMemory) => words(rt, &DeckFault::NoMemory),
        None => "done".to_string(rt.alloc()).expect(rt, "memory"),
    }
}

fn check_displaced(rt: &(impl AllocGlobal + Abort), deck: &Deck, start: &Start) {
    let particles = load(rt.alloc(), deck).expect(rt, "memory");
    let mut e = Lattice::new(rt.alloc(), deck.cells(), [1; 3]).expect(rt, "memory");
    let mut b = Lattice::new(rt.alloc(), deck.cells(), [1; 3]).expect(rt, "memory");
    deck.initial(&mut e, &mut b);
    let answer = said(rt, displace(rt.alloc(), deck, &particles, &mut e).err());
    same(rt, answer.as_str(), start.0);
    check_values(rt, &e, start.1, start.2);
}

// What is answered, E, and what it is counted in.
#[derive(Drop)]
struct Start(&'static str, &'static [Value], i128);

// A side by its power of two, a quarter of it, and an eighth of a cell in cubic sub-cells.
struct Side(u32, i64, i128);

const SIDES: [Side; 3] = [
    Side(8, 64, 1 << 21),
    Side(12, 1024, 1 << 33),
    Side(14, 4096, 1 << 39),
];

// The numbers of cells, the filter, where an ion stands and the way of its electron, both in quarters of
// a cell, and the E that it leaves, in eighths of a cell.
struct Way([u32; 3], u32, [i16; 3], [i16; 3], &'static [Value]);

const WAYS: [Way; 6] = [
    // through a face of the box, against the axis
    Way(
        [4, 4, 4],
        0,
        [2, 0, 0],
        [-4, 0, 0],
        &[Value([0, 0, 0], [-48, 0, 0]), Value([3, 0, 0], [-48, 0, 0])],
    ),
    // through an edge of the box
    Way(
        [4, 4, 4],
        0,
        [14, 14, 0],
        [4, 4, 0],
        &[
            Value([3, 3, 0], [12, 12, 0]),
            Value([3, 0, 0], [36, 0, 0]),
            Value([0, 3, 0], [0, 36, 0]),
            Value([0, 0, 0], [36, 36, 0]),
            Value([0, 1, 0], [12, 0, 0]),
            Value([1, 0, 0], [0, 12, 0]),
        ],
    ),
    // through a corner of the box
    Way(
        [4, 4, 4],
        0,
        [14, 14, 14],
        [4, 4, 4],
        &[
            Value([3, 3, 3], [4, 4, 4]),
            Value([0, 3, 3], [0, 8, 8]),
            Value([3, 0, 3], [8, 0, 8]),
            Value([3, 3, 0], [8, 8, 0]),
            Value([3, 0, 0], [28, 0, 0]),
            Value([0, 3, 0], [0, 28, 0]),
            Value([0, 0, 3], [0, 0, 28]),
            Value([0, 0, 0], [28, 28, 28]),
            Value([1, 0, 0], [0, 8, 8]),
            Value([0, 1, 0], [8, 0, 8]),
            Value([0, 0, 1], [8, 8, 0]),
            Value([0, 1, 1], [4, 0, 0]),
            Value([1, 0, 1], [0, 4, 0]),
            Value([1, 1, 0], [0, 0, 4]),
        ],
    ),
    // over two cells of an axis of two: their outer edges are one, and get both parts
    Way(
        [2, 2, 2],
        0,
        [0, 6, 0],
        [2, 4, 0],
        &[
            Value([0, 0, 0], [36, 30, 0]),
            Value([1, 0, 0], [0, 18, 0]),
            Value([0, 1, 0], [12, 42, 0]),
            Value([1, 1, 0], [0, 6, 0]),
        ],
    ),
    // filtered, on axes of four and of two cells
    Way(
        [4, 2, 2],
        1,
        [1, 0, 0],
        [2, 0, 0],
        &[
            Value([0, 0, 0], [384, 0, 0]),
            Value([1, 0, 0], [192, 0, 0]),
            Value([3, 0, 0], [192, 0, 0]),
            Value([0, 1, 0], [384, 0, 0]),
            Value([1, 1, 0], [192, 0, 0]),
            Value([3, 1, 0], [192, 0, 0]),
            Value([0, 0, 1], [384, 0, 0]),
            Value([1, 0, 1], [192, 0, 0]),
            Value([3, 0, 1], [192, 0, 0]),
            Value([0, 1, 1], [384, 0, 0]),
            Value([1, 1, 1], [192, 0, 0]),
            Value([3, 1, 1], [192, 0, 0]),
        ],
    ),
    // no way at all
    Way([4, 4, 4], 1, [1, 2, 3], [0, 0, 0], &[]),
];

fn times(quarters: [i16; 3], quarter: i64) -> [i64; 3] {
    let [x, y, z] = quarters;
    [
        i64::from(x).wrapping_mul(quarter),
        i64::from(y).wrapping_mul(quarter),
        i64::from(z).wrapping_mul(quarter),
    ]
}

fn way_deck(rt: &(impl AllocGlobal + Abort), way: &Way, side: &Side) -> Deck {
    let Way(cells, filter, from, by, _) = way;
    let [x, y, z] = times(*from, side.1);
    let by = times(*by, side.1);
    let bits = side.0;
    let text = format!(in rt.alloc();
        "version = 2
grid = {{ cells = {cells:?}, tiles = [1, 1, 1], sub = {bits} }}
run = {{ steps = 0, every = 1, filter = {filter} }}
{SCALE}{ION}points = [[{x}, {y}, {z}, 0, 0, 0]]
{ELECTRON}displace = {{ of = \"ion\", by = {by:?}, v = [0, 0, 0] }}
"
    )
    .expect(rt, "memory");
    deck_of(rt, text.as_str())
}

fn check_way(rt: &(impl AllocGlobal + Abort), way: &Way, side: &Side) {
    let start = Start("done", way.4, side.2);
    check_displaced(rt, &way_deck(rt, way, side), &start);
}

#[test]
fn a_way_leaves_the_field_of_its_current(rt: HostRuntime) {
    for way in &WAYS {
        for side in &SIDES {
            check_way(&rt, way, side);
        }
    }
}

const BESIDE: &str = "displace = { of = \"ion\", by = [2048, 0, 0], v = [0, 0, 0] }\n";

const EDGE: &str = "field = { edges = [[1, 2, 2, 2, -5]] }\n";

// Of an electron that is displaced a hole is displaced, and of a pair a shade.
const CHAIN: &str = "displace = { of = \"ion\", by = [2048, 0, 0], v = [1, -2, 3] }
[[species]]
name = \"hole\"
charge = 1
mass = 1
kick = [0, 0]
turn = [0, 0]
displace = { of = \"electron\", by = [0, 4096, 0], v = [0, 0, 0] }
[[species]]
name = \"twin\"
charge = 1
mass = 1
kick = [0, 0]
turn = [0, 0]
pair = { of = \"ion\", seed = 1, stream = 2, drift = [0, 0, 0], spread = [0, 0, 0] }
[[species]]
name = \"shade\"
charge = -1
mass = 1
kick = [0, 0]
turn = [0, 0]
displace = { of = \"twin\", by = [0, 0, -2048], v = [16777216, 0, -16777216] }
";

const CHAINED: Pieces<'static> = &[VERSION_2, SCALE, ION, STILL, ELECTRON, CHAIN];

const SMALL: &str = "version = 2\n\
    grid = { cells = [2, 2, 2], tiles = [1, 1, 1], sub = 12 }\nrun = { steps = 0, every = 1 }\n";

// Multipliers of E but for the last.
const FORCE: &str = "scale = { e_to_b = [0, 0], b_to_e = [0, 0], b_force = [0, 0], e_force = ";

const OVER_TWO: &str = "points = [[0, 6144, 0, 0, 0, 0]]\n";

const FAR: &str = "displace = { of = \"ion\", by = [2048, 4096, 0], v = [0, 0, 0] }\n";

const FAR_VALUES: &[Value] = &[
    Value([0, 0, 0], [36, 30, 0]),
    Value([1, 0, 0], [0, 18, 0]),
    Value([0, 1, 0], [12, 42, 0]),
    Value([1, 1, 0], [0, 6, 0]),
];

struct Case(Pieces<'static>, Start);

// The electron stands half a cell along x from the ion, and what the deck itself says of E stays; the
// chain; and the values of a way over an axis of two cells, of which the force value of the first that is
// too large is named, and E is that of the displaced start.
const CASES: [Case; 5] = [
    Case(
        &[VERSION_2, SCALE, EDGE, ION, STILL, ELECTRON, BESIDE],
        Start(
            "done",
            &[
                Value([0, 0, 0], [412316860416, 0, 0]),
                Value([2, 2, 2], [0, -5, 0]),
            ],
            1,
        ),
    ),
    Case(
        CHAINED,
        Start(
            "done",
            &[
                Value([0, 0, 0], [48, -24, 0]),
                Value([1, 0, 0], [0, -72, 0]),
                Value([0, 0, 3], [0, 0, -36]),
                Value([1, 0, 3], [0, 0, -12]),
            ],
            1 << 33,
        ),
    ),
    Case(
        &[SMALL, FORCE, "[48, 0] }\n", ION, OVER_TWO, ELECTRON, FAR],
        Start("done", FAR_VALUES, 1 << 33),
    ),
    Case(
        &[SMALL, FORCE, "[50, 0] }\n", ION, OVER_TWO, ELECTRON, FAR],
        Start(
            "limit scale.e_force [18038862643200, -17592186044416, 17592186044416]",
            FAR_VALUES,
            1 << 33,
        ),
    ),
    Case(
        &[SMALL, FORCE, "[-64, 0] }\n", ION, OVER_TWO, ELECTRON, FAR],
        Start(
            "limit scale.e_force [-19791209299968, -17592186044416, 17592186044416]",
            FAR_VALUES,
            1 << 33,
        ),
    ),
];

fn text_of(rt: &(impl AllocGlobal + Abort), pieces: Pieces<'_>) -> String {
    pieces.concat(rt.alloc()).expect(rt, "memory")
}

fn check_case(rt: &(impl AllocGlobal + Abort), case: &Case) {
    let text = text_of(rt, case.0);
    check_displaced(rt, &deck_of(rt, text.as_str()), &case.1);
}

#[test]
fn displaced_starts_have_their_fields(rt: HostRuntime) {
    for case in &CASES {
        check_case(&rt, case);
    }
}

// Where the particles of the chain stand, and their velocities: each species has one.
const PLACES: [Told; 5] = [
    Told(0, [1024, 0, 0], [0, 0, 0]),
    Told(1, [3072, 0, 0], [1, -2, 3]),
    Told(2, [3072, 4096, 0], [0, 0, 0]),
    Told(3, [1024, 0, 0], [0, 0, 0]),
    Told(4, [1024, 0, 14336], [16777216, 0, -16777216]),
];

#[test]
fn displaced_and_paired_species_are_named(rt: HostRuntime) {
    let text = text_of(&rt, CHAINED);
    check_loaded(&rt, text.as_str(), &PLACES);
}
