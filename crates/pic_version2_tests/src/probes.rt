//! Probes: their lines, what is refused, and each fault in turn.

use crate::displaced::{ELECTRON_BY, HALF};
use crate::loops::{BACK, GREATEST, LOOP, PLAIN};
use crate::trial::{Deck, Refused, call, call_on, check, check_refused, check_same};
use pic_gate::Hold;
use pic_trial::{
    CALM, CHARGES, ELECTRON, FILTERED, Faults, GRID_2, GRID_OF_12, ION, Left, MOVING, NO_STEP,
    ONE_STEP, PAIR_OF_12, Pieces, SMALL, STILL, WAVES, try_call,
};
use std::process::Abort;
use std::thread::Threads;

const PROBE: &[u8] = b"[probe]\nplaces = [[0, 0, 0, 0, 0]]\nids = [1]\n";

const LINES: &[u8] = b"0 0 1024 0 0 8388608 0 0\n1 412316860416 3072 0 0 8388608 0 0\ndone 1\n";

// A displaced start.
const APART: Pieces<'static> = &[GRID_OF_12, NO_STEP, CHARGES, ION, STILL, ELECTRON_BY, HALF];

// A loop whose frames are seldom due, and a uniform B: Ex(0,0,0), Ey(1,0,0), Bz(0,0,0).
const SELDOM: &[u8] = b"run = { steps = 2, every = 9 }\nfield = { b = [0, 0, -5] }\n\
    probe.places = [[0, 0, 0, 0, 0], [0, 1, 1, 0, 0], [1, 2, 0, 0, 0]]\n";

// A particle that is too fast.
const FAST: &[u8] = b"run = { steps = 5, every = 1 }\n\
    scale = { e_to_b = [0, 0], b_to_e = [0, 0], e_force = [1, 0], b_force = [0, 0] }\n\
    field = { e = [1, 0, 0] }\n\
    probe = { places = [[0, 0, 3, 3, 3]], ids = [1, 0] }\n\
    [[species]]\nname = \"neutral\"\ncharge = 0\nmass = 1\nkick = [8388608, 0]\nturn = [0, 0]\n\
    points = [[8192, 0, 0, 16777216, 0, 0], [0, 0, 0, 16777216, 0, 0]]\n";

// A deck, the status of its probe, and the lines.
type Probed = (Deck, u8, &'static [u8]);

const PROBED: [Probed; 7] = [
    ((PAIR_OF_12, PROBE), 0, LINES),
    ((PAIR_OF_12, b""), 0, b"0\n1\ndone 1\n"),
    (
        (FILTERED, PROBE),
        0,
        b"0 0 1024 0 0 8388608 0 0\n1 3298534883328 3072 0 0 8388608 0 0\ndone 1\n",
    ),
    (
        (APART, PROBE),
        0,
        b"0 412316860416 3072 0 0 0 0 0\ndone 0\n",
    ),
    (
        (&[GRID_OF_12, SELDOM, PLAIN, LOOP], BACK),
        0,
        b"0 0 0 -5\n1 8 8 -5\n2 0 0 -5\ndone 2\n",
    ),
    (
        (&[GRID_OF_12], FAST),
        1,
        b"0 1 0 0 0 16777216 0 0 8192 0 0 16777216 0 0\nstopped 1 particle 0 far 0 8192\n",
    ),
    (
        (&[GRID_OF_12, ONE_STEP, PLAIN, LOOP], GREATEST),
        1,
        b"0\nstopped 1 field electric force 0 0 0 0 1152921504606846976\n",
    ),
];

#[test]
fn lines_of_probes(rt: HostRuntime) {
    for (deck, status, lines) in PROBED {
        let left = call_on(&rt, &["probe"], deck);
        check(&rt, &left, status, lines, b"");
        let left = call_on(&rt, &["probe", "--workers=3"], deck);
        check(&rt, &left, status, lines, b"");
        let left = call_on(&rt, &["probe", "--workers=64"], deck);
        check(&rt, &left, status, lines, b"");
    }
}

// Nothing but `probe` depends on what is probed; and two workers meet in it.
#[test]
fn a_probe_beside_other_commands(rt: HostRuntime) {
    let plain = call(&rt, &["run"], PAIR_OF_12, CALM);
    let left = call_on(&rt, &["run"], (PAIR_OF_12, PROBE));
    check_same(&rt, &left, &plain);
    let left = call_on(&rt, &["check"], (PAIR_OF_12, PROBE));
    check(&rt, &left, 0, b"ok 2 particles\n", b"");
    let hold = Hold::new();
    let words = ["probe", "--workers", "2"];
    let left = try_call(&rt, &words, PAIR_OF_12, SMALL, CALM, &hold).expect(&rt, "memory");
    assert!(rt; left.status == 0 && hold.met());
}

const EMPTY: Pieces<'static> = &[GRID_OF_12, NO_STEP, WAVES];

const REFUSED: [Refused; 4] = [
    (
        (PAIR_OF_12, b"[probe]\nids = [2]\n"),
        "5 limit probe.ids[0] 2 0 1",
    ),
    ((EMPTY, b"probe.ids = [0]\n"), "5 limit probe.ids[0] 0 0 -1"),
    (
        (EMPTY, b"probe.places = [[1, 2, 3, 3, 4]]\n"),
        "5 limit probe.places[0][4] 4 0 3",
    ),
    ((&[GRID_2, NO_STEP, WAVES], b"[probe]\n"), "2 unknown probe"),
];

// A charge without a field is found behind the refusals.
#[test]
fn decks_of_probes(rt: HostRuntime) {
    check_refused(&rt, &REFUSED);
    let lone: Deck = (&[GRID_OF_12, ONE_STEP, CHARGES, ION, STILL], b"[probe]\n");
    let line = b"gauss 0 0 0 div 0 rho 618475290624\n";
    check(&rt, &call_on(&rt, &["probe"], lone), 3, b"", line);
}

// E grows to 2^90 in size, and an uncharged particle goes as fast as it may.
const WIDE: &[u8] = b"run = { steps = 1, every = 1 }\n\
    scale = { e_to_b = [0, 0], b_to_e = [1073741824, 0], e_force = [0, 0], b_force = [0, 0] }\n\
    field = { faces = [[2, 0, 0, 0, 1152921504606846976]] }\n\
    [[species]]\nname = \"neutral\"\ncharge = 0\nmass = 1\nkick = [0, 0]\nturn = [0, 0]\n\
    points = [[0, 0, 0, 0, 0, 0], [16383, 16383, 16383, -16777216, -16777216, -16777216]]\n";

// So many probes of Ex(0,1,0), and so many of the particle.
fn probe_most<H: AllocGlobal + Abort + Threads + Sync>(rt: &H, places: usize, ids: usize) -> Left {
    let rows = b"[0, 0, 0, 1, 0], ".repeat(rt.alloc(), places);
    let rows = rows.expect(rt, "memory");
    let ids = b"1, ".repeat(rt.alloc(), ids).expect(rt, "memory");
    let probe = [
        b"[probe]\nplaces = [".as_slice(),
        &rows,
        b"]\nids = [",
        &ids,
        b"]\n",
    ];
    let probe = probe.concat(rt.alloc()).expect(rt, "memory");
    call(rt, &["probe"], &[GRID_OF_12, WIDE, &probe], CALM)
}

// A line of 64 places and 64 particles.
fn line_of<H: AllocGlobal + Abort>(rt: &H, step: &[u8], value: &[u8], track: &[u8]) -> Vec<u8> {
    let values = value.repeat(rt.alloc(), 64).expect(rt, "memory");
    let tracks = track.repeat(rt.alloc(), 64).expect(rt, "memory");
    let line = [step, &values, &tracks, b"\n"].concat(rt.alloc());
    line.expect(rt, "memory")
}

#[test]
fn the_most_probes_of_the_widest_numbers(rt: HostRuntime) {
    let track = b" 16383 16383 16383 -16777216 -16777216 -16777216";
    let first = line_of(&rt, b"0", b" 0", track);
    let value = b" -1237940039285380274899124224";
    let track = b" 12287 12287 12287 -16777216 -16777216 -16777216";
    let second = line_of(&rt, b"1", value, track);
    let lines = [first.as_slice(), &second, b"done 1\n"].concat(rt.alloc());
    let lines = lines.expect(&rt, "memory");
    check(&rt, &probe_most(&rt, 64, 64), 0, &lines, b"");
    let line = b"refused 5 limit probe.places 65 0 64\n";
    check(&rt, &probe_most(&rt, 65, 65), 3, b"", line);
    let line = b"refused 5 limit probe.ids 65 0 64\n";
    check(&rt, &probe_most(&rt, 0, 65), 3, b"", line);
}

// The put that fails, how much of it is still taken, and how much then stands: each line is one put.
const PUTS: [(u64, usize, usize); 9] = [
    (0, 0, 0),
    (0, 1, 1),
    (0, 12, 12),
    (1, 0, 25),
    (1, 1, 26),
    (1, 18, 43),
    (2, 0, 61),
    (2, 1, 62),
    (2, 3, 64),
];

fn probe_with<H: AllocGlobal + Abort + Threads + Sync>(rt: &H, faults: Faults) -> Left {
    let deck = [
        GRID_OF_12, ONE_STEP, CHARGES, ION, STILL, ELECTRON, MOVING, PROBE,
    ];
    call(rt, &["probe"], &deck, faults)
}

#[test]
fn each_put_of_a_probe_fails_in_turn(rt: HostRuntime) {
    for (number, taken, len) in PUTS {
        let out = (number, taken);
        let left = probe_with(&rt, Faults { out, ..CALM });
        let front = LINES.get(..len).expect(&rt, "a front");
        check(&rt, &left, 5, front, b"");
    }
    let report = (0, 7);
    let left = call(
        &rt,
        &["probe"],
        &[b"version = 3"],
        Faults { report, ..CALM },
    );
    check(&rt, &left, 5, b"", b"refused");
}

// Six takes, of a hundred bytes each, come to the end of the deck.
#[test]
fn each_take_of_a_probe_fails_in_turn(rt: HostRuntime) {
    for take in 0..6 {
        let left = probe_with(&rt, Faults { take, ..CALM });
        check(&rt, &left, 4, b"", b"read fault\n");
    }
    let take = 6;
    check(
        &rt,
        &probe_with(&rt, Faults { take, ..CALM }),
        0,
        LINES,
        b"",
    );
}
