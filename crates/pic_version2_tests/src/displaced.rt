//! Displaced starts: their fields, and what is refused.

use crate::trial::{Refused, Run, call_on, check, check_refused, check_runs};
use pic_trial::{CHARGES, GRID_4, GRID_OF_8, GRID_OF_12, ION, NO_STEP, Pieces, STILL, STILL_OF_8};

const GRID_OF_14: &[u8] =
    b"version = 2\ngrid = { cells = [4, 4, 4], tiles = [2, 2, 2], sub = 14 }\n";

const SMALL_GRID: &[u8] =
    b"version = 2\ngrid = { cells = [2, 2, 2], tiles = [1, 1, 1], sub = 12 }\n";

const FILTERED: &[u8] = b"run = { steps = 0, every = 1, filter = 1 }\n";

/// An electron that is displaced from the ion, but for its way.
pub const ELECTRON_BY: &[u8] = b"[[species]]\nname = \"electron\"\ncharge = -1\nmass = 1\n\
    kick = [0, 0]\nturn = [0, 0]\ndisplace = { of = \"ion\", v = [0, 0, 0], by = ";

/// Half a cell.
pub const HALF: &[u8] = b"[2048, 0, 0] }\n";

// An ion and no step; and the electron.
const ALONE: Pieces<'static> = &[GRID_OF_12, NO_STEP, CHARGES, ION, STILL];

const APART: Pieces<'static> = &[GRID_OF_12, NO_STEP, CHARGES, ION, STILL, ELECTRON_BY];

// Cells of the smallest and of the largest side.
const COARSE: Pieces<'static> = &[GRID_OF_8, NO_STEP, CHARGES, ION, STILL_OF_8, ELECTRON_BY];

const ION_OF_14: &[u8] = b"[[4096, 0, 0, 0, 0, 0]]\n";

const FINE: Pieces<'static> = &[GRID_OF_14, NO_STEP, CHARGES, ION, ION_OF_14, ELECTRON_BY];

const SMOOTH: Pieces<'static> = &[GRID_OF_12, FILTERED, CHARGES, ION, STILL, ELECTRON_BY];

// A way over a corner of the box, and one of a whole cell over a face, where an axis has two cells.
const COUPLES: &[u8] = b"[[species]]\nname = \"a\"\ncharge = 1\nmass = 1\nkick = [0, 0]\n\
    turn = [0, 0]\npoints = [[4095, 4095, 4095, 0, 0, 0]]\n\
    [[species]]\nname = \"b\"\ncharge = -1\nmass = 1\nkick = [0, 0]\n\
    turn = [0, 0]\ndisplace = { of = \"a\", by = [2, 2, 2], v = [0, 0, 0] }\n\
    [[species]]\nname = \"c\"\ncharge = 1\nmass = 1\nkick = [0, 0]\n\
    turn = [0, 0]\npoints = [[4096, 0, 0, 0, 0, 0]]\n\
    [[species]]\nname = \"d\"\ncharge = -1\nmass = 1\nkick = [0, 0]\n\
    turn = [0, 0]\ndisplace = { of = \"c\", by = [4096, 0, 0], v = [0, 0, 0] }\n";

// The electron and two more species: the last goes back by the electron's way, from where the third
// stands, which is paired with the electron, or from the electron itself.
const OF_PAIRED: &[u8] = b"[2048, 0, 0] }\n\
    [[species]]\nname = \"c\"\ncharge = -1\nmass = 1\nkick = [0, 0]\nturn = [0, 0]\n\
    pair = { of = \"electron\", seed = 1, stream = 2, drift = [0, 0, 0], spread = [0, 0, 0] }\n\
    [[species]]\nname = \"d\"\ncharge = 1\nmass = 1\nkick = [0, 0]\nturn = [0, 0]\n\
    displace = { of = \"c\", by = [-2048, 0, 0], v = [0, 0, 0] }\n";

const OF_DISPLACED: &[u8] = b"[2048, 0, 0] }\n\
    [[species]]\nname = \"c\"\ncharge = -1\nmass = 1\nkick = [0, 0]\nturn = [0, 0]\n\
    points = [[3072, 0, 0, 0, 0, 0]]\n\
    [[species]]\nname = \"d\"\ncharge = 1\nmass = 1\nkick = [0, 0]\nturn = [0, 0]\n\
    displace = { of = \"electron\", by = [-2048, 0, 0], v = [0, 0, 0] }\n";

// Fields of the deck, to which that of the way is added; and an electron that moves, along y.
const FIELDS: &[u8] =
    b"scale = { e_to_b = [0, 0], b_to_e = [0, 0], e_force = [1, 20], b_force = [1, 2] }\n\
    field = { e = [5, 0, 0], b = [0, 0, 16] }\n";

const ALONG_Y: &[u8] = b"[[species]]\nname = \"electron\"\ncharge = -1\nmass = 1\n\
    kick = [0, 0]\nturn = [0, 0]\ndisplace = { of = \"ion\", by = [2048, 0, 0], v = [0, 3, 0] }\n";

// Ex(0,0,0) stands at 201, or at 321 behind four species. The first species but one has its x at
// 6369, in the small grid at 1113.
const RUNS: [Run; 8] = [
    (
        (APART, HALF),
        0,
        b"frame 0 kinetic 0 electric 154618822656 magnetic 0\ndone 0\n",
        6447,
        &[(201, 16, 412316860416), (6369, 4, 3072), (6381, 4, 0)],
    ),
    // Of 64 parts 8 stay at Ex(0,0,0), and 4 come to Ex(1,0,0).
    (
        (SMOOTH, HALF),
        0,
        b"frame 0 kinetic 0 electric 33397665693696 magnetic 0\ndone 0\n",
        6447,
        &[(201, 16, 3298534883328), (217, 16, 1649267441664)],
    ),
    (
        (COARSE, b"[128, 0, 0] }\n"),
        0,
        b"frame 0 kinetic 0 electric 9216 magnetic 0\ndone 0\n",
        6447,
        &[(201, 16, 100663296), (6369, 4, 192)],
    ),
    (
        (FINE, b"[8192, 0, 0] }\n"),
        0,
        b"frame 0 kinetic 0 electric 633318697598976 magnetic 0\ndone 0\n",
        6447,
        &[(201, 16, 26388279066624), (6369, 4, 12288)],
    ),
    // Ex(0,0,0), Ex(1,0,0), Bz(0,0,0), and the electron's vy.
    (
        (&[GRID_OF_12, NO_STEP, FIELDS, ION, STILL], ALONG_Y),
        0,
        b"frame 0 kinetic 9 electric 154618822656 magnetic 1024\ndone 0\n",
        6447,
        &[
            (201, 16, 412316860421),
            (217, 16, 5),
            (5321, 16, 16),
            (6385, 4, 3),
        ],
    ),
    // Ex(0,0,0), Ex(1,0,0), Ex(0,1,0), Ex(0,1,1); the x of b's particle, and of d's.
    (
        (&[SMALL_GRID, NO_STEP, CHARGES], COUPLES),
        0,
        b"frame 0 kinetic 0 electric 618475511808 magnetic 0\ndone 0\n",
        1239,
        &[
            (321, 16, 4),
            (337, 16, 824633720836),
            (353, 16, 24572),
            (417, 16, 201277444),
            (1113, 4, 4097),
            (1161, 4, 0),
        ],
    ),
    (
        (APART, OF_PAIRED),
        0,
        b"frame 0 kinetic 0 electric 618475290624 magnetic 0\ndone 0\n",
        6615,
        &[(321, 16, 824633720832)],
    ),
    (
        (APART, OF_DISPLACED),
        0,
        b"frame 0 kinetic 0 electric 618475290624 magnetic 0\ndone 0\n",
        6615,
        &[(321, 16, 824633720832)],
    ),
];

// All of E but Ex(0,0,0) is 0.
#[test]
fn displaced_starts(rt: HostRuntime) {
    check_runs(&rt, &RUNS);
    let left = call_on(&rt, &["run"], (APART, HALF));
    let rest = left.out.bytes().get(217..3273);
    assert_eq!(rt; rest, Some([0; 3056].as_slice()));
}

// E is too strong at one place, and at several, of which the least is named.
const STRONG: &[u8] =
    b"scale = { e_to_b = [0, 0], b_to_e = [0, 0], b_force = [0, 0], e_force = [43, 0] }\n";

const STRONGEST: &[u8] =
    b"scale = { e_to_b = [0, 0], b_to_e = [0, 0], b_force = [0, 0], e_force = [2147483647, 0] }\n";

const CHARGED: &[u8] = b"[[species]]\nname = \"electron\"\ncharge = -2\nmass = 1\n\
    kick = [0, 0]\nturn = [0, 0]\ndisplace = { of = \"ion\", by = 0 }\n";

const REFUSED: [Refused; 6] = [
    (
        (APART, b"[4097, 0, 0] }\n"),
        "5 limit species[1].displace.by[0] 4097 -4096 4096",
    ),
    (
        (FINE, b"[16385, 0, 0] }\n"),
        "5 limit species[1].displace.by[0] 16385 -16384 16384",
    ),
    ((ALONE, CHARGED), "5 limit species[1].charge -2 -1 -1"),
    (
        (&[GRID_4, NO_STEP, CHARGES, ION, STILL, ELECTRON_BY], HALF),
        "2 unknown species[1].displace",
    ),
    (
        (
            &[GRID_OF_12, NO_STEP, STRONG, ION, STILL, ELECTRON_BY],
            HALF,
        ),
        "5 limit scale.e_force 17729624997888 -17592186044416 17592186044416",
    ),
    (
        (&[SMALL_GRID, NO_STEP, STRONGEST], COUPLES),
        "5 limit scale.e_force 1770887430260073168892 -17592186044416 17592186044416",
    ),
];

// A charge that nothing was displaced from has no field.
const LONE: &[u8] = b"[2048, 0, 0] }\n[[species]]\nname = \"lone\"\ncharge = 1\nmass = 1\n\
    kick = [0, 0]\nturn = [0, 0]\npoints = [[1024, 0, 0, 0, 0, 0]]\n";

#[test]
fn decks_of_displaced_starts(rt: HostRuntime) {
    check_refused(&rt, &REFUSED);
    let left = call_on(&rt, &["check"], (APART, HALF));
    check(&rt, &left, 0, b"ok 2 particles\n", b"");
    let left = call_on(&rt, &["check"], (APART, LONE));
    let line = b"gauss 0 0 0 div 412316860416 rho 1030792151040\n";
    check(&rt, &left, 3, b"", line);
}
