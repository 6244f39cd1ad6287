//! A gate that holds two workers tells that they met only where each came in time for the other.

use pic_gate::{Gate, Hold, Point};

#[test]
fn a_worker_that_ran_out_of_turns_never_meets(rt: HostRuntime) {
    let first = Hold::new();
    first.pass(0, Point::Claimed);
    first.pass(1, Point::Claimed);
    first.pass(0, Point::Claimed);
    assert!(rt; !first.met());
    let second = Hold::new();
    second.pass(1, Point::Claimed);
    second.pass(0, Point::Claimed);
    second.pass(1, Point::Claimed);
    assert!(rt; !second.met());
}
