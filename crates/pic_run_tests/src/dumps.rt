//! Dumps that are verified, and the demonstration.

use crate::trial::{call, check};
use pic_trial::{CALM, FILTERED, Faults, PAIR, PAIR_OF_12};
use std::process::Abort;
use std::thread::Threads;

// A byte of the two charges' dump, what stands in its place, and the length that the dump is cut
// to; then the status, and what the call says on out and on report.
type Case = (usize, u8, usize, u8, &'static [u8], &'static [u8]);

// Unchanged; cut by a byte; the last byte of Ex(0,0,0) of frame 0; and that of the electron's x of
// frame 1, which was 3072.
const CASES: [Case; 4] = [
    (0, b'P', 12680, 0, b"verified 2 frames\n", b""),
    (0, b'P', 12679, 7, b"", b"bad dump 12679 9\n"),
    (
        204,
        1,
        12680,
        8,
        b"",
        b"broken frame 0 node 0 0 0 div 1 rho 0\n",
    ),
    (
        12605,
        1,
        12680,
        8,
        b"",
        b"broken frame 1 node 0 0 0 div 412316860416 rho 412518187008\n",
    ),
];

// The same in version 2: unchanged; the power of two of the side, the filter, the number of loops,
// that of species, and the digit of the version. Where the charge is filtered, E isn't its field.
const CASES_OF_2: [Case; 8] = [
    (0, b'P', 12692, 0, b"verified 2 frames\n", b""),
    (63, 7, 12692, 7, b"", b"bad dump 60 2\n"),
    (63, 15, 12692, 7, b"", b"bad dump 60 2\n"),
    (
        67,
        1,
        12692,
        8,
        b"",
        b"broken frame 1 node 0 0 0 div 412316860416 rho 1649267441664\n",
    ),
    (67, 2, 12692, 7, b"", b"bad dump 64 2\n"),
    (71, 17, 12692, 7, b"", b"bad dump 68 2\n"),
    (75, 17, 12692, 7, b"", b"bad dump 72 2\n"),
    (7, b'3', 12692, 7, b"", b"bad dump 7 1\n"),
];

fn check_case<H: AllocGlobal + Abort + Threads + Sync>(rt: &H, dump: &[u8], case: &Case) {
    let (place, byte, len, status, out, report) = *case;
    let front = dump.get(..place).expect(rt, "a front of the dump");
    let rest = dump
        .get(place.wrapping_add(1)..len)
        .expect(rt, "the rest of the dump");
    let left = call(rt, &["verify"], &[front, &[byte], rest], CALM);
    check(rt, &left, status, out, report);
}

#[test]
fn dumps_that_are_verified(rt: HostRuntime) {
    let written = call(&rt, &["run"], PAIR, CALM);
    for case in &CASES {
        check_case(&rt, written.out.bytes(), case);
    }
    let second = call(&rt, &["run"], PAIR_OF_12, CALM);
    for case in &CASES_OF_2 {
        check_case(&rt, second.out.bytes(), case);
    }
    let filtered = call(&rt, &["run"], FILTERED, CALM);
    let left = call(&rt, &["verify"], &[filtered.out.bytes()], CALM);
    check(&rt, &left, 0, b"verified 2 frames\n", b"");
}

// Nothing is taken of a source whose first take would fail, and no dump is put: the second put is
// that of the second frame's line, four steps later.
#[test]
fn a_demonstration_that_is_cut(rt: HostRuntime) {
    let faults = Faults {
        take: 0,
        out: (1, 4),
        ..CALM
    };
    let left = call(&rt, &["demo", "7"], &[], faults);
    let out = left.out.bytes();
    assert!(rt; left.status == 5 && left.report.bytes().is_empty());
    assert!(rt; out.starts_with(b"frame 0 kinetic ") && out.ends_with(b"\nfram"));
}

#[test]
fn a_demonstration_on_other_workers(rt: HostRuntime) {
    let one = call(&rt, &["demo", "7", "--workers", "1"], &[], CALM);
    let many = call(&rt, &["demo", "7", "--workers", "64"], &[], CALM);
    check(&rt, &many, 0, one.out.bytes(), b"");
}
