//! Tests of the gather on worked numbers.

ghost use Rattle.std.specs.Prelude.{◌≡◌, ◌^◌, ◌≤◌, IsTrue, IfOk};
ghost use Rattle.pic_num.specs.Space.{triple};
ghost use Rattle.pic_grid.specs.Hat.{IsInBox};
ghost use Rattle.pic_grid.specs.Lattice.{IsParts};
ghost use Rattle.pic_gather.specs.Forces.{AreForces};

use crate::values::{MAX_FORCE, lattice_in};
use pic_gather::{Gathered, gather, gather_b, gather_e, gather_weak, is_weak};
use pic_grid::{Cells, Lattice};
use pic_num::{Axis, NoMemory, Sub};
use std::alloc::Global;
use std::process::Abort;

/// Whether a point lies in the box.
fn is_in_box(cells: Cells, point: [u32; 3]) -> bool
    ensures { IsTrue result → IsInBox cells.side cells.n (triple point) }
{
    let side = cells.sub().side();
    let [nx, ny, nz] = cells.numbers();
    let [x, y, z] = point;
    x < nx * side && y < ny * side && z < nz * side
}

// A lattice of n by n by n cells of these sides, with a part for each layer of z and one value, in the
// first cell, and a point of it.
fn lone_at(
    rt: &(impl AllocGlobal + Abort),
    bits: u32,
    n: u32,
    axis: Axis,
    value: i32,
    point: [u32; 3],
) -> Lattice
    ensures forces { AreForces result }
    ensures place { IsInBox result.side result.cells (triple point) }
{
    let sub = Sub::new(bits).expect(rt, "a side");
    let cells = Cells::try_new([n; 3], sub).expect(rt, "a grid");
    assert!(rt; is_in_box(cells, point));
    let [_, _, nz] = cells.numbers();
    let values = [(axis, [0, 0, 0], i128::from(value))];
    lattice_in(rt.alloc(), cells, [1, 1, nz], MAX_FORCE, &values).expect(rt, "memory")
}

// the side of a cell as a power of 2, the cells of an axis, the value on x, the point, and what is
// gathered there
const EDGES: [(u32, u32, i32, [u32; 3], i64); 13] = [
    (12, 2, 8, [0, 0, 0], 4),
    (12, 2, 8, [2048, 0, 0], 8),
    (12, 2, 8, [0, 4096, 0], 0),
    (12, 2, 1, [0, 0, 0], 1),
    (12, 2, -1, [0, 0, 0], 0),
    (12, 4, 8, [16383, 0, 0], 4),
    (12, 4, 8, [2048, 15360, 0], 6),
    (8, 2, 8, [128, 0, 0], 8),
    (8, 4, 1000, [1023, 0, 0], 496),
    (8, 4, -1000, [64, 200, 900], -85),
    (14, 3, 1000000, [1, 16380, 49151], 122),
    (14, 3, -1000000, [8192, 16383, 1], -61),
    (14, 128, 1000000, [2097151, 2097151, 2097151], 499878),
];

#[test]
fn a_lone_value_of_e_is_gathered(rt: HostRuntime) {
    for (bits, n, value, point, x) in &EDGES {
        let force = lone_at(&rt, *bits, *n, Axis::X, *value, *point);
        assert_eq!(rt;
            gather_e(&force, *point),
            [*x, 0, 0],
            "{value} at {point:?} of {n}"
        );
    }
}

// the side of a cell as a power of 2, the cells of an axis, the point, and what is gathered there of
// an 8000 on z
const FACES: [(u32, u32, [u32; 3], i64); 5] = [
    (12, 2, [2048, 2048, 0], 8000),
    (12, 2, [0, 0, 0], 2000),
    (12, 4, [2048, 6144, 0], 0),
    (8, 4, [100, 130, 17], 6600),
    (14, 4, [1, 65535, 3], 2000),
];

#[test]
fn a_lone_value_of_b_is_gathered(rt: HostRuntime) {
    for (bits, n, point, z) in &FACES {
        let force = lone_at(&rt, *bits, *n, Axis::Z, 8000, *point);
        assert_eq!(rt; gather_b(&force, *point), [0, 0, *z], "{point:?} of {n}");
    }
}

/// A lattice of 2 by 2 by 2 cells in these parts with an 8 in the first cell.
fn eight_in(alloc: Global, sub: Sub, parts: [u32; 3], axis: Axis) -> Result<Lattice, NoMemory>
    requires { IsParts (record { x = 2; y = 2; z = 2 }) (triple parts) }
    ensures forces { IfOk result AreForces }
    ensures cells { IfOk result (λ f. f.cells ≡ record { x = 2; y = 2; z = 2 }) }
    ensures side { IfOk result (λ f. f.side ≡ sub) }
    ensures parts { IfOk result (λ f. f.parts ≡ triple parts) }
{
    let cells = Cells::new([2, 2, 2], sub);
    lattice_in(alloc, cells, parts, MAX_FORCE, &[(axis, [0, 0, 0], 8)])
}

// What is gathered at a point of a lattice in these parts: x of an 8 on x, and y of an 8 on y.
fn check_alike(rt: &(impl AllocGlobal + Abort), parts: [u32; 3], point: [u32; 3], x: i64, y: i64)
    requires { IsParts (record { x = 2; y = 2; z = 2 }) (triple parts) }
{
    let sub = Sub::of_bits(12);
    assert!(rt; is_in_box(Cells::new([2, 2, 2], sub), point));
    let e = eight_in(rt.alloc(), sub, parts, Axis::X).expect(rt, "memory");
    let b = eight_in(rt.alloc(), sub, parts, Axis::Y).expect(rt, "memory");
    let Gathered { e: at_e, b: at_b } = gather(&e, &b, point);
    assert!(rt;
        at_e == [x, 0, 0] && at_b == [0, y, 0],
        "{parts:?} {point:?}"
    );
    assert!(rt; gather_e(&e, point) == at_e && gather_b(&b, point) == at_b);
}

#[test]
fn every_part_is_gathered_alike(rt: HostRuntime) {
    for (point, x, y) in [
        ([0, 0, 0], 4, 2),
        ([2048, 0, 0], 8, 4),
        ([8191, 4095, 0], 0, 0),
        ([5000, 100, 8191], 2, 1),
    ] {
        check_alike(&rt, [1, 1, 1], point, x, y);
        check_alike(&rt, [1, 1, 2], point, x, y);
        check_alike(&rt, [2, 1, 2], point, x, y);
        check_alike(&rt, [2, 2, 2], point, x, y);
    }
}

// The same lattice of two layers, once each is measured.
fn measured(force: Lattice) -> Lattice
    requires { force.parts ≡ record { x = 1; y = 1; z = 2 } }
    ensures { result ≡ force }
{
    let cells = force.cells();
    let mut blocks = force.into_blocks();
    blocks[0].measure();
    blocks[1].measure();
    Lattice::of_blocks(cells, [1, 1, 2], blocks)
}

// Gathers at a point from measured lattices of 2 by 2 by 2 cells with an 8 in the first cell, on x
// of E and on y of B, where nothing is above `most` in size.
fn gathered_weak(rt: &(impl AllocGlobal + Abort), point: [u32; 3], most: u64) -> Option<Gathered>
    requires { most ≤ 2 ^ 62 }
{
    let sub = Sub::of_bits(12);
    assert!(rt; is_in_box(Cells::new([2, 2, 2], sub), point));
    let e = measured(eight_in(rt.alloc(), sub, [1, 1, 2], Axis::X).expect(rt, "memory"));
    let b = measured(eight_in(rt.alloc(), sub, [1, 1, 2], Axis::Y).expect(rt, "memory"));
    assert!(rt; is_weak(&e) && is_weak(&b));
    gather_weak(&e, &b, point, most)
}

#[test]
fn weak_values_are_gathered_where_none_is_too_large(rt: HostRuntime) {
    for (point, x, y) in [
        ([0, 0, 0], 4, 2),
        ([2048, 0, 0], 8, 4),
        ([8191, 4095, 0], 0, 0),
        ([5000, 100, 8191], 2, 1),
    ] {
        let all = Gathered {
            e: [x, 0, 0],
            b: [0, y, 0],
        };
        let found = gathered_weak(&rt, point, x as u64);
        assert_eq!(rt; found, Some(all), "{point:?}");
    }
    for (point, most) in [([0, 0, 0], 3), ([2048, 0, 0], 7), ([5000, 100, 8191], 1)] {
        let found = gathered_weak(&rt, point, most);
        assert_eq!(rt; found, None, "{point:?}");
    }
}

#[test]
fn a_lattice_is_weak_once_it_is_measured_where_cells_are_small(rt: HostRuntime) {
    for (bits, weak) in [(8, true), (12, true), (13, false)] {
        let sub = Sub::of_bits(bits);
        let force = eight_in(rt.alloc(), sub, [1, 1, 2], Axis::X).expect(&rt, "memory");
        assert!(rt; !is_weak(&force), "{bits}");
        assert_eq!(rt; is_weak(&measured(force)), weak, "{bits}");
    }
}
