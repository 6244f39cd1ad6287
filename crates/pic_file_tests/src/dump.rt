//! Tests of what is put, against bytes that were written by hand.

ghost use Rattle.std.specs.Prelude.{◌≡◌, length, map};
ghost use Rattle.std.specs.List.{range_with_len};

use crate::trial::two_charges;
use pic_dump::{put_end, put_frame, put_header};
use pic_energy::Energies;
use pic_grid::{Bound, Cells, EndMark, Lattice, Phase, Snapshot, Stop};
use pic_io::{Failed, MemSink};
use pic_num::{Axis, Particle, Sub, What};
use std::process::Abort;

// The header of two charges: an ion and an electron.
const HEADER: &[u8] = b"PICDUMP1\
    \0\0\0\x04\0\0\0\x04\0\0\0\x04\0\0\0\x01\0\0\0\x01\
    \0\0\0\0\0\0\0\0\0\0\0\0\0\0\0\0\0\0\0\x01\0\0\0\x14\0\0\0\0\0\0\0\0\
    \0\0\0\x02\
    ion\0\0\0\0\0\0\0\0\0\0\0\0\0\0\0\0\0\0\0\0\0\0\0\0\0\0\0\0\0\
    \0\0\0\x01\0\0\x07\x2c\0\0\0\0\0\0\0\0\0\0\0\0\0\0\0\0\0\0\0\x01\
    electron\0\0\0\0\0\0\0\0\0\0\0\0\0\0\0\0\0\0\0\0\0\0\0\0\
    \xff\xff\xff\xff\0\0\0\x01\0\0\0\0\0\0\0\0\0\0\0\0\0\0\0\0\0\0\0\x01";

const ENERGIES: Energies = Energies {
    kinetic: 10,
    electric: 256,
    magnetic: 1,
};

fn sink(rt: &(impl AllocGlobal + Abort), fails: &[(u64, usize)]) -> MemSink {
    let fails = Vec::from_slice(rt.alloc(), fails).expect(rt, "memory");
    MemSink::new(rt.alloc(), 1000, fails).expect(rt, "memory")
}

#[test]
fn the_header_of_two_charges(rt: HostRuntime) {
    let header = two_charges(&rt);
    let mut out = sink(&rt, &[]);
    put_header(&mut out, &header).expect(&rt, "a header");
    assert!(rt; header.length() == 184 && out.bytes() == HEADER);
}

// A state of 2 by 2 by 2 cells: the first value of E is 1, the last of B is -1, and one particle.
fn small_state(rt: &(impl AllocGlobal + Abort)) -> Snapshot
    ensures { map (λ particle. particle.id) result.particles.items
        ≡ range_with_len 0 (length result.particles.items) }
{
    let cells = Cells::new([2, 2, 2], Sub::of_bits(12));
    let mut e = Lattice::new(rt.alloc(), cells, [1, 1, 1]).expect(rt, "memory");
    let mut b = Lattice::new(rt.alloc(), cells, [1, 1, 1]).expect(rt, "memory");
    e.set(Axis::X, [0, 0, 0], 1);
    b.set(Axis::Z, [1, 1, 1], -1);
    let particle = Particle {
        id: 0,
        species: 0,
        x: [1, 2, 8191],
        v: [-1, 0, 3],
    };
    let particles = vec![in rt.alloc(); particle].expect(rt, "memory");
    Snapshot { e, b, particles }
}

// Its frame's first bytes.
const FRONT: &[u8] =
    b"F\0\0\0\x07\0\0\0\0\0\0\0\0\0\0\0\0\0\0\0\x01\0\0\0\0\0\0\0\0\0\0\0\0\0\0\0\0";

// And its last: B's last value, the particle, and the energies. Between them stand zeros.
const BACK: &[u8] = b"\xff\xff\xff\xff\xff\xff\xff\xff\xff\xff\xff\xff\xff\xff\xff\xff\
    \0\0\0\x01\0\0\0\x02\0\0\x1f\xff\xff\xff\xff\xff\0\0\0\0\0\0\0\x03\
    \0\0\0\0\0\0\0\0\0\0\0\0\0\0\0\x0a\
    \0\0\0\0\0\0\0\0\0\0\0\0\0\0\x01\0\
    \0\0\0\0\0\0\0\0\0\0\0\0\0\0\0\x01";

// A put, with these puts failing, is answered so and leaves these bytes.
fn check_frame(
    rt: &(impl AllocGlobal + Abort),
    fails: &[(u64, usize)],
    answer: Result<(), Failed>,
    wanted: &[u8],
) {
    let state = small_state(rt);
    let mut out = sink(rt, fails);
    let put = put_frame(&mut out, 7, &state, ENERGIES);
    assert!(rt; put == answer && out.bytes() == wanted);
}

// The whole frame has 845 bytes; of a put that fails three are still taken, and it is told.
#[test]
fn a_frame_of_one_particle(rt: HostRuntime) {
    let whole = [FRONT, &[0; 720], BACK].concat(rt.alloc());
    check_frame(&rt, &[], Ok(()), &whole.expect(&rt, "memory"));
    check_frame(&rt, &[(0, 3)], Err(Failed), b"F\0\0");
}

struct End(EndMark, &'static [u8]);

const ENDS: [End; 4] = [
    End(EndMark::Done { steps: 0 }, b"E\0\0\0\0\0"),
    End(
        EndMark::Stopped {
            step: 1,
            stop: Stop::Field {
                phase: Phase::Electric,
                bound: Bound::Force,
                axis: Axis::Y,
                cell: [1, 0, 2],
                value: 17596481003518,
            },
        },
        b"E\x01\0\0\0\x01\x04\x02\x01\0\0\0\x01\0\0\0\0\0\0\0\x02\
        \0\0\0\0\0\0\0\0\0\0\x10\0\xff\xff\xdf\xfe",
    ),
    End(
        EndMark::Stopped {
            step: 1,
            stop: Stop::Field {
                phase: Phase::Half2,
                bound: Bound::Value,
                axis: Axis::Z,
                cell: [0, 0, 1],
                value: -2,
            },
        },
        b"E\x01\0\0\0\x01\x03\x01\x02\0\0\0\0\0\0\0\0\0\0\0\x01\
        \xff\xff\xff\xff\xff\xff\xff\xff\xff\xff\xff\xff\xff\xff\xff\xfe",
    ),
    End(
        EndMark::Stopped {
            step: 1,
            stop: Stop::Push {
                id: 0,
                what: What::Far,
                axis: Axis::X,
                value: 8192,
            },
        },
        b"E\x02\0\0\0\x01\0\0\0\0\x03\0\0\0\0\0\0\0\0\0\0\0\0\0\0\0\x20\0",
    ),
];

fn check_end(rt: &(impl AllocGlobal + Abort), end: &End) {
    let mut out = sink(rt, &[]);
    let put = put_end(&mut out, end.0);
    assert!(rt; put == Ok(()) && out.bytes() == end.1);
}

#[test]
fn end_records(rt: HostRuntime) {
    for end in &ENDS {
        check_end(&rt, end);
    }
}
