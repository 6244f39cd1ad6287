//! What driven loops add to faces and to E, step by step, worked by hand.

ghost use Rattle.pic_num.specs.Limits.{most_loops};
ghost use Rattle.pic_grid.specs.Loops.{AreLoops};

use crate::fields::{Value, check_values};
use pic_devices::optional_drive;
use pic_drive::{drive, raise_e};
use pic_grid::{Cells, Lattice, Loop, Loops};
use pic_num::{Axis, Sub};
use std::process::Abort;
use toml::table_from_str;

// the loops that a text says, on 2 by 3 by 4 cells
fn loops_of(rt: &(impl AllocGlobal + Abort), text: &str) -> Loops
    ensures { AreLoops (record { x = 2; y = 3; z = 4 }) most_loops result }
{
    let table = table_from_str(rt.alloc(), text).expect(rt, "a table");
    let cells = Cells::new([2, 3, 4], Sub::of_bits(12));
    optional_drive(rt.alloc(), &table, cells).expect(rt, "loops")
}

// what they add to the faces in the step after so many others, in place of what stood there
fn driven(rt: &(impl AllocGlobal + Abort), loops: &[Loop], step: u32) -> Lattice
    requires { AreLoops (record { x = 2; y = 3; z = 4 }) most_loops loops.now }
{
    let cells = Cells::new([2, 3, 4], Sub::of_bits(12));
    let mut faces = Lattice::new(rt.alloc(), cells, [2, 1, 2]).expect(rt, "memory");
    faces.set(Axis::Y, [1, 1, 1], 99);
    drive(loops, step, &mut faces);
    faces
}

// two loops round one face, and one round another
const LOOPS: &str = "drive = [
    { axis = 2, cell = [0, 0, 0], wave = [8, -5, 100] },
    { axis = 2, cell = [0, 0, 0], wave = [1, 2] },
    { axis = 0, cell = [1, 2, 3], wave = [-7] },
]";

// how many steps came before, and the sum at a face
struct Sum(u32, i128);

// at the first face: each wave begins again by itself
const SUMS: [Sum; 6] = [
    Sum(0, 9),
    Sum(1, -3),
    Sum(2, 101),
    Sum(3, 10),
    Sum(5, 102),
    Sum(999999, 10),
];

// sixteen loops round one face, whose waves have 64 numbers of the greatest size, the last below 0
fn greatest_loops(rt: &(impl AllocGlobal + Abort)) -> String {
    let numbers = "1152921504606846976, "
        .repeat(rt.alloc(), 63)
        .expect(rt, "memory");
    let one = format!(in rt.alloc();
        "{{ axis = 1, cell = [1, 0, 3], wave = [{numbers}-1152921504606846976] }}, "
    ).expect(rt, "memory");
    let all = one.as_str().repeat(rt.alloc(), 16).expect(rt, "memory");
    format!(in rt.alloc(); "drive = [{all}]").expect(rt, "memory")
}

const MOST: i128 = 1 << 64;

const GREATEST_SUMS: [Sum; 5] = [
    Sum(0, MOST),
    Sum(62, MOST),
    Sum(63, -MOST),
    Sum(64, MOST),
    Sum(127, -MOST),
];

fn check_sum(rt: &(impl AllocGlobal + Abort), loops: &[Loop], sum: &Sum)
    requires { AreLoops (record { x = 2; y = 3; z = 4 }) most_loops loops.now }
{
    let faces = driven(rt, loops, sum.0);
    let values = [
        Value([0, 0, 0], [0, 0, sum.1]),
        Value([1, 2, 3], [-7, 0, 0]),
    ];
    check_values(rt, &faces, &values, 1);
}

fn check_greatest(rt: &(impl AllocGlobal + Abort), loops: &[Loop], sum: &Sum)
    requires { AreLoops (record { x = 2; y = 3; z = 4 }) most_loops loops.now }
{
    let faces = driven(rt, loops, sum.0);
    check_values(rt, &faces, &[Value([1, 0, 3], [0, sum.1, 0])], 1);
}

#[test]
fn loops_round_one_face_add_up(rt: HostRuntime) {
    let loops = loops_of(&rt, LOOPS);
    for sum in &SUMS {
        check_sum(&rt, loops.as_slice(), sum);
    }
    let greatest = loops_of(&rt, greatest_loops(&rt).as_str());
    for sum in &GREATEST_SUMS {
        check_greatest(&rt, greatest.as_slice(), sum);
    }
}

// a loop, how many steps came before, and E, which was 100 along x in the last cell
struct Edges(&'static str, u32, &'static [Value]);

const EDGES: [Edges; 6] = [
    Edges(
        "drive = [{ axis = 2, cell = [0, 0, 0], wave = [8, -8] }]",
        0,
        &[
            Value([0, 0, 0], [8, -8, 0]),
            Value([0, 1, 0], [-8, 0, 0]),
            Value([1, 0, 0], [0, 8, 0]),
            Value([1, 2, 3], [100, 0, 0]),
        ],
    ),
    Edges(
        "drive = [{ axis = 2, cell = [0, 0, 0], wave = [8, -8] }]",
        1,
        &[
            Value([0, 0, 0], [-8, 8, 0]),
            Value([0, 1, 0], [8, 0, 0]),
            Value([1, 0, 0], [0, -8, 0]),
            Value([1, 2, 3], [100, 0, 0]),
        ],
    ),
    Edges(
        "drive = [{ axis = 0, cell = [1, 2, 3], wave = [8] }]",
        5,
        &[
            Value([1, 2, 3], [100, 8, -8]),
            Value([1, 2, 0], [0, -8, 0]),
            Value([1, 0, 3], [0, 0, 8]),
        ],
    ),
    Edges(
        "drive = [{ axis = 1, cell = [1, 2, 3], wave = [8] }]",
        5,
        &[
            Value([1, 2, 3], [92, 0, 8]),
            Value([0, 2, 3], [0, 0, -8]),
            Value([1, 2, 0], [8, 0, 0]),
        ],
    ),
    Edges(
        "drive = [{ axis = 2, cell = [1, 2, 3], wave = [8] }]",
        5,
        &[
            Value([1, 2, 3], [108, -8, 0]),
            Value([1, 0, 3], [-8, 0, 0]),
            Value([0, 2, 3], [0, 8, 0]),
        ],
    ),
    // two loops that have an edge in common
    Edges(
        "drive = [{ axis = 2, cell = [0, 0, 0], wave = [8] },
            { axis = 2, cell = [0, 2, 0], wave = [3] }]",
        0,
        &[
            Value([0, 0, 0], [5, -8, 0]),
            Value([0, 1, 0], [-8, 0, 0]),
            Value([1, 0, 0], [0, 8, 0]),
            Value([0, 2, 0], [3, -3, 0]),
            Value([1, 2, 0], [0, 3, 0]),
            Value([1, 2, 3], [100, 0, 0]),
        ],
    ),
];

fn check_edges(rt: &(impl AllocGlobal + Abort), edges: &Edges) {
    let loops = loops_of(rt, edges.0);
    let cells = Cells::new([2, 3, 4], Sub::of_bits(12));
    let mut e = Lattice::new(rt.alloc(), cells, [1, 3, 2]).expect(rt, "memory");
    e.set(Axis::X, [1, 2, 3], 100);
    raise_e(loops.as_slice(), edges.1, &mut e);
    check_values(rt, &e, edges.2, 1);
}

#[test]
fn a_loop_has_four_edges(rt: HostRuntime) {
    for edges in &EDGES {
        check_edges(&rt, edges);
    }
}
