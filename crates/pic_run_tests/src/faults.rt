//! The run of two charges with each take and each put failing in turn, and its deck cut at every byte.

use crate::trial::{call, check, check_front, check_same};
use pic_trial::{CALM, EMPTY, Faults, Left, PAIR, Pieces};
use std::process::Abort;
use std::thread::Threads;

// A put: its number, where its piece begins, half of the piece's length, and how many bytes of the
// other stream stand before it.
type Put = (u64, usize, usize, usize);

// Each put of a call fails in turn, on out or on report.
fn check_puts<H: AllocGlobal + Abort + Threads + Sync>(
    rt: &H,
    words: &[&str],
    held: Pieces<'_>,
    is_out: bool,
    puts: &[Put],
) {
    let calm = call(rt, words, held, CALM);
    for (number, start, half, other) in puts {
        for taken in [0, 1, *half] {
            let fault = (*number, taken);
            let len = start.wrapping_add(taken);
            let (out, report, ends) = if is_out {
                (fault, CALM.report, (len, *other))
            } else {
                (CALM.out, fault, (*other, len))
            };
            let faults = Faults {
                out,
                report,
                ..CALM
            };
            check_front(rt, &call(rt, words, held, faults), &calm, ends, (5, b""));
        }
    }
}

// The pieces of the two charges' run are the header, two frames and the end record, and three lines.
#[test]
fn each_put_of_a_run_fails_in_turn(rt: HostRuntime) {
    let puts = [
        (0, 0, 92, 0),
        (1, 184, 3122, 0),
        (2, 6429, 3122, 53),
        (3, 12674, 3, 117),
    ];
    check_puts(&rt, &["run"], PAIR, true, &puts);
    let lines = [(0, 0, 26, 6429), (1, 53, 32, 12674), (2, 117, 3, 12680)];
    check_puts(&rt, &["run"], PAIR, false, &lines);
}

// Those of the empty dump's upgrade are the header, the frame and the end record, and a line.
#[test]
fn each_put_of_an_upgrade_fails_in_turn(rt: HostRuntime) {
    let old = call(&rt, &["run"], EMPTY, CALM);
    let held = [old.out.bytes()];
    let puts = [(0, 0, 38, 0), (1, 76, 410, 0), (2, 897, 3, 0)];
    check_puts(&rt, &["upgrade"], &held, true, &puts);
    check_puts(&rt, &["upgrade"], &held, false, &[(0, 0, 8, 903)]);
}

// Four puts come on out, and three on report: a further one never comes to fail.
#[test]
fn a_put_that_never_comes(rt: HostRuntime) {
    let faults = Faults {
        out: (4, 0),
        report: (3, 0),
        ..CALM
    };
    let left = call(&rt, &["run"], PAIR, faults);
    check_same(&rt, &left, &call(&rt, &["run"], PAIR, CALM));
}

// The take fails at once, or in the second frame; and then the put of its line.
#[test]
fn a_take_and_a_put_fail(rt: HostRuntime) {
    let faults = |take, number| Faults {
        take,
        report: (number, 4),
        ..CALM
    };
    check(
        &rt,
        &call(&rt, &["run"], PAIR, faults(2, 0)),
        5,
        b"",
        b"read",
    );
    let dump = call(&rt, &["run"], PAIR, CALM);
    let held = [dump.out.bytes()];
    let left = call(&rt, &["resume", "--steps=1"], &held, faults(120, 1));
    check_front(&rt, &left, &dump, (6429, 53), (5, b"read"));
}

// Each take that comes fails in turn; where none comes any more, the call is a calm one.
fn check_takes<H: AllocGlobal + Abort + Threads + Sync>(rt: &H, word: &str, held: &[u8]) {
    let calm = call(rt, &[word], &[held], CALM);
    let mut failed: u32 = 0;
    for take in 0..500 {
        let left = call(rt, &[word], &[held], Faults { take, ..CALM });
        if left.status == 4 {
            check(rt, &left, 4, b"", b"read fault\n");
            failed = failed.wrapping_add(1);
        } else {
            check(rt, &left, 0, calm.out.bytes(), calm.report.bytes());
            assert!(rt; u64::from(failed) == take);
            return;
        }
    }
    assert!(rt; failed < 500, "a call takes too often");
}

#[test]
fn each_take_fails_in_turn(rt: HostRuntime) {
    let deck = PAIR.concat(rt.alloc()).expect(&rt, "memory");
    let whole = call(&rt, &["run"], PAIR, CALM);
    check_takes(&rt, "check", &deck);
    check_takes(&rt, "run", &deck);
    check_takes(&rt, "verify", whole.out.bytes());
}

// The status of `check`, how its one line begins, and of how many fronts of the deck that is the
// answer: as many as a reader of TOML in Python gives. They are all: a deck has 400 bytes.
const FRONTS: [(u8, &[u8], u32); 5] = [
    (3, b"refused 1 text\n", 361),
    (3, b"refused 3 missing ", 34),
    (3, b"gauss 0 0 0 div 0 rho ", 2),
    (0, b"ok 0 particles\n", 2),
    (0, b"ok 2 particles\n", 2),
];

// Whether the call ended so, with one of its two streams empty.
fn ends_so(left: &Left, status: u8, start: &[u8]) -> bool {
    let (line, other) = if status == 0 {
        (left.out.bytes(), left.report.bytes())
    } else {
        (left.report.bytes(), left.out.bytes())
    };
    left.status == status && line.starts_with(start) && other.is_empty()
}

#[test]
fn a_deck_is_cut_at_every_byte(rt: HostRuntime) {
    let deck = PAIR.concat(rt.alloc()).expect(&rt, "memory");
    let mut counts: [u32; 5] = [0; 5];
    for len in 0..401 {
        let front = deck.get(..len).expect(&rt, "a front of the deck");
        let left = call(&rt, &["check"], &[front], CALM);
        for (count, (status, start, _)) in counts.iter_mut().zip(&FRONTS) {
            *count = count.wrapping_add(u32::from(ends_so(&left, *status, start)));
        }
    }
    for (count, (_, _, wanted)) in counts.iter().zip(&FRONTS) {
        assert_eq!(rt; count, wanted);
    }
}
