//! Calls in bytes, and with each fault in mid-run.

use crate::trial::{call, check};
use pic_states::every_state_meets_gauss;
use pic_trial::{CALM, EMPTY, Faults, LONE, NEVER, PAIR, Pieces};
use std::process::Abort;
use std::thread::Threads;

// The header of the empty deck's dump, of 64 bytes: the mark, the cells, steps 0, every 1, four
// multipliers, no species.
const EMPTY_HEADER: &[u8] = b"PICDUMP1\
    \0\0\0\x02\0\0\0\x02\0\0\0\x02\0\0\0\0\0\0\0\x01\
    \0\0\0\x01\0\0\0\x04\0\0\0\x01\0\0\0\x01\0\0\0\x01\0\0\0\0\0\0\0\x01\0\0\0\0\
    \0\0\0\0";

const LONE_REPORT: &[u8] = b"gauss 0 0 0 div 0 rho 618475290624\n";

const EMPTY_REPORT: &[u8] = b"frame 0 kinetic 0 electric 0 magnetic 0\ndone 0\n";

const USAGE: &[u8] =
    b"usage: pic [check | run [--workers N] | verify | demo SEED [--workers N] | upgrade \
    | resume --steps M [--workers N] | probe [--workers N]]\n";

// The words, the deck, the take that fails, the status, out and report.
type Answer = (
    &'static [&'static str],
    Pieces<'static>,
    u64,
    u8,
    &'static [u8],
    &'static [u8],
);

// Nothing is taken of a source where the words are no command.
const ANSWERS: [Answer; 12] = [
    (&[], EMPTY, NEVER, 0, b"ok 0 particles\n", b""),
    (&["check"], PAIR, NEVER, 0, b"ok 2 particles\n", b""),
    (&["check"], LONE, NEVER, 3, b"", LONE_REPORT),
    (&["run"], LONE, NEVER, 3, b"", LONE_REPORT),
    (&["run"], &[b"\xff"], NEVER, 3, b"", b"refused 1 text\n"),
    (
        &["run"],
        &[b"\"a \xc3\xa9b\" = 1"],
        NEVER,
        3,
        b"",
        b"refused 2 unknown a??b\n",
    ),
    (
        &["run"],
        &[b"version = 1.0"],
        NEVER,
        3,
        b"",
        b"refused 4 kind version\n",
    ),
    (
        &["run"],
        &[b"version = 3"],
        NEVER,
        3,
        b"",
        b"refused 5 limit version 3 1 2\n",
    ),
    (&["run", "run"], EMPTY, NEVER, 2, b"", USAGE),
    (&["go"], EMPTY, 0, 2, b"", USAGE),
    (&["demo"], EMPTY, 0, 2, b"", USAGE),
    (&["resume"], EMPTY, 0, 2, b"", USAGE),
];

#[test]
fn calls_without_a_dump(rt: HostRuntime) {
    every_state_meets_gauss();
    for (words, deck, take, status, out, report) in &ANSWERS {
        let faults = Faults {
            take: *take,
            ..CALM
        };
        check(&rt, &call(&rt, words, deck, faults), *status, out, report);
    }
}

// A key of 600 letters is put in pieces of 256 bytes: the third of them fails.
#[test]
fn a_long_key_is_put_in_pieces(rt: HostRuntime) {
    let key = vec![in rt.alloc(); b'a'; 600].expect(&rt, "memory");
    let faults = Faults {
        report: (2, 10),
        ..CALM
    };
    let left = call(&rt, &["check"], &[&key, b" = 1"], faults);
    assert!(rt; left.status == 5 && left.report.bytes().len() == 522);
}

// The whole dump of the empty deck has 891 bytes: the header, one frame, the end record.
#[test]
fn the_run_of_the_empty_deck(rt: HostRuntime) {
    let pieces: Pieces<'_> = &[EMPTY_HEADER, b"F\0\0\0\0", &[0; 816], b"E\0\0\0\0\0"];
    let dump = pieces.concat(rt.alloc()).expect(&rt, "memory");
    check(
        &rt,
        &call(&rt, &["run"], EMPTY, CALM),
        0,
        &dump,
        EMPTY_REPORT,
    );
}
