//! What the tests share: calls on decks and dumps, what they leave, and whole runs.

use pic_gate::Open;
use pic_trial::{CALM, Faults, Left, Pieces, SMALL, number_at, try_call};
use std::process::Abort;
use std::thread::Threads;

/// A call of the words on a deck or a dump.
pub fn call<H: AllocGlobal + Abort + Threads + Sync>(
    rt: &H,
    words: &[&str],
    held: Pieces<'_>,
    faults: Faults,
) -> Left {
    try_call(rt, words, held, SMALL, faults, &Open).expect(rt, "memory")
}

/// The status of a call, and what stands on out and on report after it.
pub fn check(rt: &impl Abort, left: &Left, status: u8, out: &[u8], report: &[u8]) {
    assert_eq!(rt; left.report.bytes(), report);
    assert!(rt; left.status == status && left.out.bytes() == out);
}

/// The same after both calls.
pub fn check_same(rt: &impl Abort, left: &Left, wanted: &Left) {
    let (out, report) = (wanted.out.bytes(), wanted.report.bytes());
    check(rt, left, wanted.status, out, report);
}

/// A deck in front of its last lines, and those lines.
pub type Deck = (Pieces<'static>, &'static [u8]);

/// A call of the words on a deck, with no fault.
pub fn call_on<H: AllocGlobal + Abort + Threads + Sync>(
    rt: &H,
    words: &[&str],
    (front, rest): Deck,
) -> Left {
    let front = front.concat(rt.alloc()).expect(rt, "memory");
    call(rt, words, &[&front, rest], CALM)
}

/// A deck that is refused, and the refusal.
pub type Refused = (Deck, &'static str);

/// Each deck is refused so, whatever the command that reads it.
pub fn check_refused<H: AllocGlobal + Abort + Threads + Sync>(rt: &H, decks: &[Refused]) {
    for (deck, refusal) in decks {
        let line = format!(in rt.alloc(); "refused {refusal}\n").expect(rt, "memory");
        for word in ["check", "run", "probe"] {
            check(rt, &call_on(rt, &[word], *deck), 3, b"", line.as_bytes());
        }
    }
}

/// A run: its deck, the status and the report that it ends with, the length of its dump, and numbers
/// of the dump, each by its place, its length and its value.
pub type Run = (
    Deck,
    u8,
    &'static [u8],
    usize,
    &'static [(usize, usize, i128)],
);

// The run is this on each number of workers, and its dump is verified, and upgraded as it is.
fn check_run<H: AllocGlobal + Abort + Threads + Sync>(rt: &H, run: &Run) {
    let (deck, status, report, len, numbers) = *run;
    let left = call_on(rt, &["run"], deck);
    let dump = left.out.bytes();
    check(rt, &left, status, dump, report);
    assert_eq!(rt; dump.len(), len);
    for (place, len, number) in numbers {
        assert_eq!(rt; number_at(dump, *place, *len), Some(*number), "{place}");
    }
    let few = call_on(rt, &["run", "--workers=3"], deck);
    check_same(rt, &few, &left);
    check_same(rt, &call_on(rt, &["run", "--workers=64"], deck), &left);
    assert_eq!(rt; call(rt, &["verify"], &[dump], CALM).status, 0);
    assert!(rt; call(rt, &["upgrade"], &[dump], CALM).out.bytes() == dump);
}

/// Each run is this.
pub fn check_runs<H: AllocGlobal + Abort + Threads + Sync>(rt: &H, runs: &[Run]) {
    for run in runs {
        check_run(rt, run);
    }
}
