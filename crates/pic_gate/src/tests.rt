//! Two workers at a gate.

use crate::{Gate, Hold, Open, Point};
use std::thread::join;

#[test]
fn an_open_gate_lets_pass(_rt: HostRuntime) {
    Open.pass(0, Point::Claimed);
    Open.pass(7, Point::Posted);
}

#[test]
fn two_workers_meet(rt: HostRuntime) {
    let hold = Hold::new();
    join(
        &rt,
        || hold.pass(0, Point::Claimed),
        || hold.pass(1, Point::Claimed),
    );
    assert!(rt; hold.met());
}

#[test]
fn one_worker_alone_goes_on(rt: HostRuntime) {
    let hold = Hold::new();
    hold.pass(0, Point::Claimed);
    hold.pass(0, Point::Claimed);
    hold.pass(1, Point::Posted);
    hold.pass(2, Point::Claimed);
    assert!(rt; !hold.met());
}
