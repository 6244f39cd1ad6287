//! A dump that is carried on to more steps.

use crate::trial::dump;
use pic_io::{MemSink, MemSource};
use pic_resume::{CarryStop, carry};
use std::process::Abort;

const LINES: &[u8] = b"frame 0 kinetic 70368744177664 electric 0 magnetic 0\n\
    frame 1 kinetic 70368744177664 electric 154618822656 magnetic 0\n";

fn sink(rt: &(impl AllocGlobal + Abort), room: usize) -> MemSink {
    MemSink::new(rt.alloc(), room, Vec::new(rt.alloc())).expect(rt, "memory")
}

// The run goes on from frame 1; but for the header's steps all is put as it was.
#[test]
fn a_dump_is_carried_on(rt: HostRuntime) {
    let bytes = dump(&rt);
    let front = bytes.get(..20).expect(&rt, "a front");
    let rest = bytes.get(24..12674).expect(&rt, "the frames");
    let wanted = [front, &[0, 0, 0, 2], rest].concat(rt.alloc());
    let wanted = wanted.expect(&rt, "memory");
    let (mut out, mut report) = (sink(&rt, 12674), sink(&rt, 117));
    let mut source = MemSource::new(bytes, 4096, Vec::new(rt.alloc()));
    let tiles = [2, 1, 2];
    let carried = carry(rt.alloc(), &mut source, &mut out, &mut report, 2, tiles);
    let carried = carried.expect(&rt, "a good dump");
    let electron = carried.last.particles.get(1).expect(&rt, "an electron");
    assert!(rt; carried.header.steps() == 2 && carried.step == 1 && electron.x == [3072, 0, 0]);
    assert!(rt; out.bytes() == wanted.as_slice() && report.bytes() == LINES);
}

#[test]
fn fewer_steps_are_refused(rt: HostRuntime) {
    let mut source = MemSource::new(dump(&rt), 1, Vec::new(rt.alloc()));
    let (mut out, mut report) = (sink(&rt, 0), sink(&rt, 0));
    let carried = carry(rt.alloc(), &mut source, &mut out, &mut report, 0, [1; 3]);
    assert!(rt; matches!(carried, Err(CarryStop::Refused(_))));
}
