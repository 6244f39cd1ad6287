//! Sources that give their bytes in small and in large pieces: the answers are the same.

use crate::trial::{call, call_in, check};
use pic_trial::{CALM, LONE, PAIR, Pieces, SMALL, Sizes};
use std::process::Abort;
use std::thread::Threads;

fn check_pieces<H: AllocGlobal + Abort + Threads + Sync>(
    rt: &H,
    words: &[&str],
    held: Pieces<'_>,
    status: u8,
) {
    let wanted = call(rt, words, held, CALM);
    for piece in [1, 7, 4096] {
        let sizes = Sizes { piece, ..SMALL };
        let left = call_in(rt, words, held, sizes, CALM);
        check(rt, &left, status, wanted.out.bytes(), wanted.report.bytes());
    }
}

#[test]
fn pieces_of_a_deck(rt: HostRuntime) {
    check_pieces(&rt, &["check"], PAIR, 0);
    check_pieces(&rt, &["check"], LONE, 3);
    check_pieces(&rt, &["run"], PAIR, 0);
}

// The dump of two charges; with another value of Ex(0,0,0) in frame 0; and without its last byte.
#[test]
fn pieces_of_a_dump(rt: HostRuntime) {
    let written = call(&rt, &["run"], PAIR, CALM);
    let dump = written.out.bytes();
    let front = dump.get(..204).expect(&rt, "a front of the dump");
    let rest = dump.get(205..).expect(&rt, "the rest of the dump");
    let cut = dump.get(..12679).expect(&rt, "all but a byte");
    check_pieces(&rt, &["verify"], &[dump], 0);
    check_pieces(&rt, &["resume", "--steps", "1"], &[dump], 0);
    check_pieces(&rt, &["verify"], &[front, &[1], rest], 8);
    check_pieces(&rt, &["verify"], &[cut], 7);
}
