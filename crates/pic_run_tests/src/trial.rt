//! What the tests share: calls with enough memory, and what is left after them.

use pic_gate::{Gate, Open};
use pic_trial::{Faults, Left, Pieces, SMALL, Sizes, try_call};
use std::process::Abort;
use std::thread::Threads;

/// A call of the words on a deck or a dump.
pub fn call<H: AllocGlobal + Abort + Threads + Sync>(
    rt: &H,
    words: &[&str],
    held: Pieces<'_>,
    faults: Faults,
) -> Left {
    call_in(rt, words, held, SMALL, faults)
}

/// The same on a source and a sink of other sizes.
pub fn call_in<H: AllocGlobal + Abort + Threads + Sync>(
    rt: &H,
    words: &[&str],
    held: Pieces<'_>,
    sizes: Sizes,
    faults: Faults,
) -> Left {
    call_at(rt, words, held, sizes, faults, &Open)
}

/// The same at a gate.
pub fn call_at<H: AllocGlobal + Abort + Threads + Sync, G: Gate + Sync>(
    rt: &H,
    words: &[&str],
    held: Pieces<'_>,
    sizes: Sizes,
    faults: Faults,
    gate: &G,
) -> Left {
    try_call(rt, words, held, sizes, faults, gate).expect(rt, "memory")
}

/// The status of a call, and what stands on out and on report after it.
pub fn check(rt: &impl Abort, left: &Left, status: u8, out: &[u8], report: &[u8]) {
    assert_eq!(rt; left.report.bytes(), report);
    assert!(rt; left.status == status && left.out.bytes() == out);
}

/// The same after both calls.
pub fn check_same(rt: &impl Abort, left: &Left, wanted: &Left) {
    check(
        rt,
        left,
        wanted.status,
        wanted.out.bytes(),
        wanted.report.bytes(),
    );
}

/// The status of a call that ends early, and what stands after it: fronts of what a calm call leaves,
/// so long ones of out and of report, and then the line.
pub fn check_front<H: AllocGlobal + Abort>(
    rt: &H,
    left: &Left,
    calm: &Left,
    (out, report): (usize, usize),
    (status, line): (u8, &[u8]),
) {
    let out = calm.out.bytes().get(..out).expect(rt, "whole parts");
    let lines = calm.report.bytes().get(..report).expect(rt, "their lines");
    let report = [lines, line].concat(rt.alloc()).expect(rt, "memory");
    check(rt, left, status, out, &report);
}
