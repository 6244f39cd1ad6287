//! Decks that are read, by all that they say.

use crate::decks::{FAST, PAIR, SMALLEST, WAVE, changed, deck_of, same, shown};
use pic_grid::Lattice;
use pic_num::Axis;
use std::process::Abort;

// Sites of a lattice, and a particle where each of these stands.
const SOURCES: &str = "version = 1
[grid]
cells = [4, 4, 4]
tiles = [2, 2, 2]
[run]
steps = 1
every = 1
[scale]
e_to_b = [0, 0]
b_to_e = [0, 0]
e_force = [1, 20]
b_force = [0, 0]
[[species]]
name = \"ion\"
charge = 1
mass = 1836
kick = [0, 0]
turn = [0, 0]
lattice = { first = [0, 0, 0], gap = [0, 0, 0], count = [512, 1024, 1], v = [0, 0, 0] }
[[species]]
name = \"electron\"
charge = -1
mass = 1
kick = [0, 0]
turn = [0, 0]
pair = { of = \"ion\", seed = 1, stream = 2, drift = [3, 4, -5], spread = [6, 7, 8] }
";

// The texts, how many particles they have, and all that they say.
struct Case(&'static str, usize, &'static str);

const DECKS: [Case; 5] = [
    Case(
        SMALLEST,
        0,
        "Deck { settings: Settings { version: 1, cells: Cells { n: [2, 2, 2], sub: Sub { bits: 12 } }, \
        tiles: [1, 1, 1], steps: 0, every: 1, filter: 0, \
        scales: Scales { e_to_b: Mult { n: 1, k: 4 }, b_to_e: Mult { n: 1, k: 1 }, \
        e_force: Mult { n: 1, k: 0 }, b_force: Mult { n: 1, k: 0 } } }, \
        field: InitialFields { e: [0, 0, 0], b: [0, 0, 0], edges: Listed { items: [] }, \
        faces: Listed { items: [] } }, \
        species: Listed { items: [] }, \
        devices: Devices { loops: Listed { items: [] }, \
        probes: Probes { places: Listed { items: [] }, ids: Listed { items: [] } } } }",
    ),
    Case(
        WAVE,
        0,
        "Deck { settings: Settings { version: 1, cells: Cells { n: [4, 4, 4], sub: Sub { bits: 12 } }, \
        tiles: [2, 2, 2], steps: 1, every: 1, filter: 0, \
        scales: Scales { e_to_b: Mult { n: 0, k: 0 }, b_to_e: Mult { n: 1, k: 1 }, \
        e_force: Mult { n: 1, k: 0 }, b_force: Mult { n: 1, k: 0 } } }, \
        field: InitialFields { e: [0, 0, 0], b: [0, 0, 0], edges: Listed { items: [] }, \
        faces: Listed { items: [Row { axis: Z, cell: [0, 0, 0], value: 8 }] } }, \
        species: Listed { items: [] }, \
        devices: Devices { loops: Listed { items: [] }, \
        probes: Probes { places: Listed { items: [] }, ids: Listed { items: [] } } } }",
    ),
    Case(
        FAST,
        2,
        "Deck { settings: Settings { version: 1, cells: Cells { n: [4, 4, 4], sub: Sub { bits: 12 } }, \
        tiles: [2, 2, 2], steps: 5, every: 1, filter: 0, \
        scales: Scales { e_to_b: Mult { n: 0, k: 0 }, b_to_e: Mult { n: 0, k: 0 }, \
        e_force: Mult { n: 1, k: 0 }, b_force: Mult { n: 0, k: 0 } } }, \
        field: InitialFields { e: [1, 0, 0], b: [0, 0, 0], edges: Listed { items: [] }, \
        faces: Listed { items: [] } }, \
        species: Listed { items: [Species { name: Listed { items: [110, 101, 117, 116, 114, 97, 108] }, \
        kind: Kind { charge: 0, mass: 1, kick: Mult { n: 8388608, k: 0 }, turn: Mult { n: 0, k: 0 } }, \
        count: 2, fill: Points(Listed { items: [Point6 { x: [8192, 0, 0], v: [16777216, 0, 0] }, \
        Point6 { x: [0, 0, 0], v: [16777216, 0, 0] }] }) }] }, \
        devices: Devices { loops: Listed { items: [] }, \
        probes: Probes { places: Listed { items: [] }, ids: Listed { items: [] } } } }",
    ),
    Case(
        PAIR,
        2,
        "Deck { settings: Settings { version: 1, cells: Cells { n: [4, 4, 4], sub: Sub { bits: 12 } }, \
        tiles: [2, 2, 2], steps: 1, every: 1, filter: 0, \
        scales: Scales { e_to_b: Mult { n: 0, k: 0 }, b_to_e: Mult { n: 0, k: 0 }, \
        e_force: Mult { n: 1, k: 20 }, b_force: Mult { n: 0, k: 0 } } }, \
        field: InitialFields { e: [0, 0, 0], b: [0, 0, 0], edges: Listed { items: [] }, \
        faces: Listed { items: [] } }, \
        species: Listed { items: [Species { name: Listed { items: [105, 111, 110] }, \
        kind: Kind { charge: 1, mass: 1836, kick: Mult { n: 0, k: 0 }, turn: Mult { n: 0, k: 0 } }, \
        count: 1, fill: Points(Listed { items: [Point6 { x: [1024, 0, 0], v: [0, 0, 0] }] }) }, \
        Species { name: Listed { items: [101, 108, 101, 99, 116, 114, 111, 110] }, \
        kind: Kind { charge: -1, mass: 1, kick: Mult { n: 0, k: 0 }, turn: Mult { n: 0, k: 0 } }, \
        count: 1, fill: Points(Listed { items: [Point6 { x: [1024, 0, 0], v: [8388608, 0, 0] }] }) }] }, \
        devices: Devices { loops: Listed { items: [] }, \
        probes: Probes { places: Listed { items: [] }, ids: Listed { items: [] } } } }",
    ),
    Case(
        SOURCES,
        1048576,
        "Deck { settings: Settings { version: 1, cells: Cells { n: [4, 4, 4], sub: Sub { bits: 12 } }, \
        tiles: [2, 2, 2], steps: 1, every: 1, filter: 0, \
        scales: Scales { e_to_b: Mult { n: 0, k: 0 }, b_to_e: Mult { n: 0, k: 0 }, \
        e_force: Mult { n: 1, k: 20 }, b_force: Mult { n: 0, k: 0 } } }, \
        field: InitialFields { e: [0, 0, 0], b: [0, 0, 0], edges: Listed { items: [] }, \
        faces: Listed { items: [] } }, \
        species: Listed { items: [Species { name: Listed { items: [105, 111, 110] }, \
        kind: Kind { charge: 1, mass: 1836, kick: Mult { n: 0, k: 0 }, turn: Mult { n: 0, k: 0 } }, \
        count: 524288, fill: Lattice { first: [0, 0, 0], gap: [0, 0, 0], \
        count: [512, 1024, 1], v: [0, 0, 0] } }, \
        Species { name: Listed { items: [101, 108, 101, 99, 116, 114, 111, 110] }, \
        kind: Kind { charge: -1, mass: 1, kick: Mult { n: 0, k: 0 }, turn: Mult { n: 0, k: 0 } }, \
        count: 524288, fill: Pair { of: 0, seed: 1, stream: 2, \
        drift: [3, 4, -5], spread: [6, 7, 8] } }] }, \
        devices: Devices { loops: Listed { items: [] }, \
        probes: Probes { places: Listed { items: [] }, ids: Listed { items: [] } } } }",
    ),
];

fn check_case(rt: &(impl AllocGlobal + Abort), case: &Case) {
    let deck = deck_of(rt, case.0);
    assert!(rt; deck.particles() == case.1);
    same(rt, shown(rt, &deck).as_str(), case.2);
}

#[test]
fn decks_are_read(rt: HostRuntime) {
    for case in &DECKS {
        check_case(&rt, case);
    }
}

const FIELD: &str =
    "b_force = [1, 0]\n[field]\ne = [5, 0, 0]\nedges = [[0, 1, 0, 1, 3], [0, 1, 0, 1, -10]]";

#[test]
fn rows_for_one_place_add_up(rt: HostRuntime) {
    let text = changed(&rt, SMALLEST, "b_force = [1, 0]", FIELD);
    let deck = deck_of(&rt, text.as_str());
    let mut e = Lattice::new(rt.alloc(), deck.cells(), [1, 1, 1]).expect(&rt, "memory");
    let mut b = Lattice::new(rt.alloc(), deck.cells(), [1, 1, 1]).expect(&rt, "memory");
    b.set(Axis::Y, [1, 1, 1], 4);
    deck.initial(&mut e, &mut b);
    let x = [e.at(Axis::X, [1, 0, 1]), e.at(Axis::X, [0, 0, 1])];
    let y = [e.at(Axis::Y, [1, 0, 1]), b.at(Axis::Y, [1, 1, 1])];
    assert!(rt; x == [-2, 5] && y == [0, 0]);
}
