//! Dumps that are put again in the spelling of version 2.

use crate::trial::{call, check};
use pic_trial::{CALM, EMPTY, FILTERED, PAIR, PAIR_OF_12};

const UPGRADE: &[&str] = &["upgrade"];

// The new header has the power of two of the side, no filter, no loops and no species.
#[test]
fn an_empty_dump_is_upgraded(rt: HostRuntime) {
    let written = call(&rt, &["run"], EMPTY, CALM);
    let old = written.out.bytes();
    let left = call(&rt, UPGRADE, &[old], CALM);
    let new = left.out.bytes();
    assert_eq!(rt; left.report.bytes(), b"upgraded 1 frames\n".as_slice());
    assert!(rt; left.status == 0 && old.len() == 891 && new.len() == 903);
    assert!(rt; new.get(..8) == Some(b"PICDUMP2".as_slice()) && new.get(8..60) == old.get(8..60));
    let added: [u8; 16] = [0, 0, 0, 12, 0, 0, 0, 0, 0, 0, 0, 0, 0, 0, 0, 0];
    assert!(rt; new.get(60..76) == Some(added.as_slice()) && new.get(76..) == old.get(64..));
    check(
        &rt,
        &call(&rt, UPGRADE, &[new], CALM),
        0,
        new,
        b"upgraded 1 frames\n",
    );
}

// The run of the same deck in version 2 writes it. A dump of version 2 that has a filter stays as it is.
#[test]
fn the_dump_of_two_charges_is_upgraded(rt: HostRuntime) {
    let old = call(&rt, &["run"], PAIR, CALM);
    let new = call(&rt, &["run"], PAIR_OF_12, CALM);
    let left = call(&rt, UPGRADE, &[old.out.bytes()], CALM);
    assert_eq!(rt; new.out.bytes().len(), 12692);
    check(&rt, &left, 0, new.out.bytes(), b"upgraded 2 frames\n");
    let filtered = call(&rt, &["run"], FILTERED, CALM);
    let left = call(&rt, UPGRADE, &[filtered.out.bytes()], CALM);
    check(&rt, &left, 0, filtered.out.bytes(), b"upgraded 2 frames\n");
}

// Gauss's law isn't tested: a value of E of frame 0 is another.
#[test]
fn a_dump_that_breaks_gauss_law_is_upgraded(rt: HostRuntime) {
    let old = call(&rt, &["run"], PAIR, CALM);
    let front = old.out.bytes().get(..204).expect(&rt, "a front");
    let rest = old.out.bytes().get(205..).expect(&rt, "the rest");
    let left = call(&rt, UPGRADE, &[front, &[1], rest], CALM);
    assert!(rt; left.status == 0 && left.out.bytes().len() == 12692);
}
