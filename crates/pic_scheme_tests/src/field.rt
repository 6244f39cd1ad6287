//! Worked steps of E and B, their stops, and force values.

ghost use Rattle.std.specs.Prelude.{◌≡◌, ◌^◌, IfOk};
ghost use Rattle.pic_num.specs.Space.{triple, spot};
ghost use Rattle.pic_block.specs.Cells.{IsCells};
ghost use Rattle.pic_block.specs.Block.{IsAmongCells};

use crate::values::{Edge, MAX_DRIVE, MAX_VALUE, Value, block_of, lattice_in, lattice_of, read};
use pic_block::{Block, Zone};
use pic_field::{Rooms, both_halves_in, force, free_e_in, full_e, full_e_in, half_b};
use pic_grid::{Bound, Cells, Phase, Stop};
use pic_num::{Axis, Mult, NoMemory, Scales, Sub};
use std::alloc::Global;
use std::process::Abort;

// the second and the third layer of z, of four by four cells
const TWO_LAYERS: Zone = Zone {
    low: [0, 0, 1],
    size: [4, 4, 2],
};

// A step of E from zeros on all cells, by values of B, of what drives it and of the current.
fn full_step(
    alloc: Global,
    scales: &Scales,
    n: [u32; 3],
    faces: &[Value],
    drive: &[Value],
    current: &[Edge],
) -> Result<(Block, Result<(), Stop>), NoMemory>
    requires { IsCells (triple n) }
{
    let zone = Zone {
        low: [0; 3],
        size: n,
    };
    let b = lattice_of(alloc, n, MAX_VALUE, faces)?;
    let m = lattice_of(alloc, n, MAX_DRIVE, drive)?;
    let j = block_of(alloc, zone, current)?;
    let mut e = block_of(alloc, zone, &[])?;
    let answer = full_e(scales, &b, &m, &j, &mut e);
    Ok((e, answer))
}

// A step of E on two layers from zeros, by values of B alone.
fn free_step(
    alloc: Global,
    scales: &Scales,
    faces: &[Value],
) -> Result<(Block, Result<(), Stop>), NoMemory> {
    let b = lattice_of(alloc, [4, 4, 4], MAX_VALUE, faces)?;
    let mut e = block_of(alloc, TWO_LAYERS, &[])?;
    let answer = free_e_in(scales, &b, &mut e, &mut Rooms::new());
    Ok((e, answer))
}

// The same by a current in eight parts alone.
fn current_step(
    alloc: Global,
    scales: &Scales,
    current: &[Value],
) -> Result<(Block, Result<(), Stop>), NoMemory> {
    let b = lattice_of(alloc, [4, 4, 4], MAX_VALUE, &[])?;
    let cells = Cells::new([4, 4, 4], Sub::of_bits(12));
    let j = lattice_in(alloc, cells, [2, 2, 2], MAX_VALUE, current)?;
    let mut e = block_of(alloc, TWO_LAYERS, &[])?;
    let answer = full_e_in(scales, &b, &j, &mut e, &mut Rooms::new());
    Ok((e, answer))
}

// Half a step of B on a zone, from these values.
fn half_step(
    alloc: Global,
    scales: &Scales,
    zone: Zone,
    edges: &[Value],
    faces: &[Edge],
) -> Result<(Block, Result<(), Stop>), NoMemory>
    requires among { IsAmongCells (spot zone.low) (triple zone.size)
        (record { x = 4; y = 4; z = 4 }) }
{
    let e = lattice_of(alloc, [4, 4, 4], MAX_VALUE, edges)?;
    let mut b = block_of(alloc, zone, faces)?;
    let answer = half_b(scales, &e, &mut b, Phase::Half1);
    Ok((b, answer))
}

// Both half steps of B on a zone, from these values: B, the force values between, and the answer.
fn both_half_steps(
    alloc: Global,
    scales: &Scales,
    zone: Zone,
    edges: &[Value],
    faces: &[Edge],
) -> Result<(Block, Block, Result<Option<Stop>, Stop>), NoMemory>
    requires among { IsAmongCells (spot zone.low) (triple zone.size)
        (record { x = 4; y = 4; z = 4 }) }
{
    let e = lattice_of(alloc, [4, 4, 4], MAX_VALUE, edges)?;
    let mut b = block_of(alloc, zone, faces)?;
    let mut force = block_of(alloc, zone, &[])?;
    let answer = both_halves_in(scales, &e, &mut b, &mut force, &mut Rooms::new());
    Ok((b, force, answer))
}

fn scales_of(e_to_b: Mult, b_to_e: Mult, e_force: Mult, b_force: Mult) -> Scales {
    Scales {
        e_to_b,
        b_to_e,
        e_force,
        b_force,
    }
}

// E of a vacuum step from one face alone, whose scaled Bz and drive make 4 at (0, 0, 0).
fn around_one_face(axis: Axis, cell: [i32; 3]) -> i128 {
    match (axis, cell) {
        (Axis::X, [0, 0, 0]) => 4,
        (Axis::X, [0, 1, 0]) => -4,
        (Axis::Y, [0, 0, 0]) => -4,
        (Axis::Y, [1, 0, 0]) => 4,
        _ => 0,
    }
}

fn check_around(rt: &impl Abort, e: &Block, axis: Axis) {
    for place in 0..64 {
        let cell = [place & 3, place >> 2 & 3, place >> 4];
        let wanted = around_one_face(axis, cell);
        assert_eq!(rt; read(e, axis, cell), wanted, "{axis:?} {cell:?}");
    }
}

#[test]
fn vacuum_step_of_one_face(rt: HostRuntime) {
    let none = Mult::new(0, 0);
    let one = Mult::new(1, 0);
    let scales = scales_of(none, Mult::new(1, 1), one, one);
    // B is halved and rounded before the drive is added: a half is 1
    for (face, drive) in [(8, 0), (0, 4), (1, 3), (-3, 5)] {
        let faces = [(Axis::Z, [0, 0, 0], face)];
        let drive = [(Axis::Z, [0, 0, 0], drive)];
        let made = full_step(rt.alloc(), &scales, [4, 4, 4], &faces, &drive, &[]);
        let (e, answer) = made.expect(&rt, "memory");
        assert_eq!(rt; answer, Ok(()));
        for axis in [Axis::X, Axis::Y, Axis::Z] {
            check_around(&rt, &e, axis);
        }
    }
}

// a line of the current lies in two of its parts
#[test]
fn a_current_in_parts_is_taken_off(rt: HostRuntime) {
    let one = Mult::new(1, 0);
    let scales = scales_of(one, one, one, one);
    let current = [
        (Axis::X, [1, 0, 1], 5),
        (Axis::X, [2, 0, 1], -7),
        (Axis::Y, [3, 3, 2], 11),
        (Axis::Z, [0, 2, 3], 13),
    ];
    let (e, answer) = current_step(rt.alloc(), &scales, &current).expect(&rt, "memory");
    let values = [
        read(&e, Axis::X, [1, 0, 1]),
        read(&e, Axis::X, [2, 0, 1]),
        read(&e, Axis::X, [0, 0, 1]),
        read(&e, Axis::Y, [3, 3, 2]),
        read(&e, Axis::Z, [0, 2, 2]),
    ];
    assert!(rt; answer.is_ok() && values == [-5, 7, 0, -11, 0]);
}

// Bz of one face makes E along its four edges, those of the last cell in x for the first one
#[test]
fn a_step_of_e_without_a_current(rt: HostRuntime) {
    let one = Mult::new(1, 0);
    let scales = scales_of(one, Mult::new(1, 1), one, one);
    let faces = [(Axis::Z, [3, 1, 2], 8)];
    let (e, answer) = free_step(rt.alloc(), &scales, &faces).expect(&rt, "memory");
    let values = [
        read(&e, Axis::X, [3, 1, 2]),
        read(&e, Axis::X, [3, 2, 2]),
        read(&e, Axis::Y, [3, 1, 2]),
        read(&e, Axis::Y, [0, 1, 2]),
        read(&e, Axis::Y, [0, 1, 1]),
    ];
    assert!(rt; answer.is_ok() && values == [4, -4, -4, 4, 0]);
}

const GREATEST: i128 = 1237940039285380274899124224;

// the multipliers from B to E and of E's force, the component of B on z in the first cell, the current
// on x there, the bound that stops the step and the value that does, and the value of E on x there
type Case = (
    (i32, u32),
    (i32, u32),
    i128,
    i128,
    Option<(Bound, i128)>,
    i128,
);

// the force value alone is too large; the greatest value, and one more by the current
const CASES: [Case; 3] = [
    (
        (2147483647, 0),
        (2, 0),
        4097,
        0,
        Some((Bound::Force, 17596481003518)),
        8798240501759,
    ),
    ((1, 0), (0, 0), GREATEST, 0, None, GREATEST),
    (
        (1, 0),
        (0, 0),
        GREATEST,
        -1,
        Some((Bound::Value, GREATEST + 1)),
        GREATEST + 1,
    ),
];

fn electric(bound: Bound, cell: [u32; 3], value: i128) -> Stop {
    Stop::Field {
        phase: Phase::Electric,
        bound,
        axis: Axis::X,
        cell,
        value,
    }
}

fn check_case(rt: &(impl AllocGlobal + Abort), case: &Case) {
    let ((n, k), (force_n, force_k), face, current, stop, value) = *case;
    let b_to_e = Mult::try_new(n, k).expect(rt, "a multiplier");
    let e_force = Mult::try_new(force_n, force_k).expect(rt, "a multiplier");
    let none = Mult::new(0, 0);
    let scales = scales_of(none, b_to_e, e_force, none);
    let faces = [(Axis::Z, [0, 0, 0], face)];
    let current = [(Axis::X, [0, 0, 0], current)];
    let made = full_step(rt.alloc(), &scales, [2, 2, 2], &faces, &[], &current);
    let (e, found) = made.expect(rt, "memory");
    let stop = match stop {
        Some((bound, value)) => Some(electric(bound, [0, 0, 0], value)),
        None => None,
    };
    assert_eq!(rt; found.err(), stop);
    assert_eq!(rt; read(&e, Axis::X, [0, 0, 0]), value);
}

#[test]
fn a_step_of_e_stops(rt: HostRuntime) {
    for case in &CASES {
        check_case(&rt, case);
    }
}

// x edges come before all y edges, wherever they lie
#[test]
fn a_step_of_e_stops_at_its_least_place(rt: HostRuntime) {
    let none = Mult::new(0, 0);
    let scales = scales_of(none, Mult::new(2147483647, 0), Mult::new(1, 0), none);
    let faces = [(Axis::X, [0, 0, 0], 8193), (Axis::Y, [2, 2, 2], 8193)];
    let made = full_step(rt.alloc(), &scales, [4, 4, 4], &faces, &[], &[]);
    let (_, found) = made.expect(&rt, "memory");
    let stop = electric(Bound::Force, [2, 2, 2], -17594333519871);
    assert_eq!(rt; found, Err(stop));
}

// four edges around a face add up to a force value that is too large
#[test]
fn half_a_step_of_b_stops(rt: HostRuntime) {
    let none = Mult::new(0, 0);
    let scales = scales_of(Mult::new(2147483647, 0), none, none, Mult::new(1, 0));
    let zone = Zone {
        low: [0, 0, 0],
        size: [4, 4, 4],
    };
    let edges = [
        (Axis::X, [0, 0, 0], 8192),
        (Axis::X, [0, 1, 0], -8192),
        (Axis::Y, [0, 0, 0], -8192),
        (Axis::Y, [1, 0, 0], 8192),
    ];
    let (_, found) = half_step(rt.alloc(), &scales, zone, &edges, &[]).expect(&rt, "memory");
    let stop = Stop::Field {
        phase: Phase::Half1,
        bound: Bound::Force,
        axis: Axis::Z,
        cell: [0, 0, 0],
        value: -70368744144896,
    };
    assert_eq!(rt; found, Err(stop));
}

// each value is rounded by itself: 1 and 2 halved are 1 and 1, and -3 halved is -1
#[test]
fn half_a_step_of_b_is_rounded(rt: HostRuntime) {
    let none = Mult::new(0, 0);
    let scales = scales_of(Mult::new(1, 1), none, none, Mult::new(1, 0));
    let zone = Zone {
        low: [1, 0, 2],
        size: [2, 4, 1],
    };
    let edges = [
        (Axis::Y, [1, 0, 2], 1),
        (Axis::Y, [2, 0, 2], 2),
        (Axis::X, [1, 1, 2], -3),
    ];
    let faces = [(Axis::Z, [1, 0, 2], 10), (Axis::Z, [2, 3, 2], 7)];
    let (b, found) = half_step(rt.alloc(), &scales, zone, &edges, &faces).expect(&rt, "memory");
    let values = [
        read(&b, Axis::Z, [1, 0, 2]),
        read(&b, Axis::Z, [1, 1, 2]),
        read(&b, Axis::Z, [2, 0, 2]),
        read(&b, Axis::Z, [2, 3, 2]),
    ];
    assert!(rt; found.is_ok() && values == [9, 1, 1, 7]);
}

// the second half step takes off what the first one did: 10 becomes 9 and 8; and the force values are
// those between them, 9, 1, 1 and 7, halved here
#[test]
fn both_half_steps_of_b_take_off_as_much(rt: HostRuntime) {
    let none = Mult::new(0, 0);
    let scales = scales_of(Mult::new(1, 1), none, none, Mult::new(1, 1));
    let zone = Zone {
        low: [1, 0, 2],
        size: [2, 4, 1],
    };
    let edges = [
        (Axis::Y, [1, 0, 2], 1),
        (Axis::Y, [2, 0, 2], 2),
        (Axis::X, [1, 1, 2], -3),
    ];
    let faces = [(Axis::Z, [1, 0, 2], 10), (Axis::Z, [2, 3, 2], 7)];
    let made = both_half_steps(rt.alloc(), &scales, zone, &edges, &faces);
    let (b, force, found) = made.expect(&rt, "memory");
    let values = [
        (
            read(&b, Axis::Z, [1, 0, 2]),
            read(&force, Axis::Z, [1, 0, 2]),
        ),
        (
            read(&b, Axis::Z, [1, 1, 2]),
            read(&force, Axis::Z, [1, 1, 2]),
        ),
        (
            read(&b, Axis::Z, [2, 0, 2]),
            read(&force, Axis::Z, [2, 0, 2]),
        ),
        (
            read(&b, Axis::Z, [2, 3, 2]),
            read(&force, Axis::Z, [2, 3, 2]),
        ),
    ];
    assert!(rt; found == Ok(None) && values == [(8, 5), (2, 1), (2, 1), (7, 4)]);
}

#[test]
fn force_values_are_rounded_once(rt: HostRuntime) {
    let place = [127, 3, 3];
    let from = lattice_of(
        rt.alloc(),
        [128, 4, 4],
        MAX_VALUE,
        &[(Axis::X, [127, 3, 3], 5)],
    )
    .expect(&rt, "memory");
    let zone = Zone {
        low: [127, 3, 3],
        size: [1, 1, 1],
    };
    let mut to = block_of(rt.alloc(), zone, &[(Axis::Y, place, 7)]).expect(&rt, "memory");
    force(Mult::new(1, 1), &from, &mut to);
    assert!(rt; read(&to, Axis::X, place) == 3 && read(&to, Axis::Y, place) == 0);
}
