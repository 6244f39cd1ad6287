//! Worked rows of the push.

use pic_boris::{Halt, Moved, push, push_narrow};
use pic_num::{Axis, Mult, Sub, What};
use std::process::Abort;

// the side of a cell as a power of 2, the velocity, E and B; then their multipliers
type Push = (u32, [i32; 3], [i64; 3], [i64; 3], (i32, u32), (i32, u32));

const NONE: (i32, u32) = (0, 0);

const ONE: (i32, u32) = (1, 0);

// A push that ends, its velocity and its move, and whether its numbers are small. The last rows are
// the definition's answers, by a program in whole numbers of any size.
const MOVES: [(Push, [i32; 3], [i32; 3], bool); 12] = [
    (
        (12, [1000, 0, 0], [0; 3], [0, 0, 1048576], NONE, ONE),
        [0, -1000, 0],
        [0; 3],
        false,
    ),
    (
        (12, [1000, 0, 0], [0; 3], [0, 0, 1], NONE, ONE),
        [1000, 0, 0],
        [0; 3],
        true,
    ),
    (
        (12, [16779263, 0, 0], [0; 3], [0; 3], ONE, ONE),
        [16779263, 0, 0],
        [4096, 0, 0],
        true,
    ),
    (
        (12, [0, 0, -16779264], [0; 3], [0; 3], ONE, ONE),
        [0, 0, -16779264],
        [0, 0, -4096],
        true,
    ),
    (
        (12, [0; 3], [0; 3], [0, 0, 16777216], ONE, ONE),
        [0; 3],
        [0; 3],
        false,
    ),
    (
        (8, [1050623, 0, 0], [0; 3], [0; 3], ONE, ONE),
        [1050623, 0, 0],
        [256, 0, 0],
        true,
    ),
    (
        (8, [0, -1050624, 0], [0; 3], [0; 3], ONE, ONE),
        [0, -1050624, 0],
        [0, -256, 0],
        true,
    ),
    (
        (14, [0, 0, 67110911], [0; 3], [0; 3], ONE, ONE),
        [0, 0, 67110911],
        [0, 0, 16384],
        false,
    ),
    (
        (
            12,
            [5000000, -3000000, 777],
            [0; 3],
            [100000, -33334, 14285],
            ONE,
            ONE,
        ),
        [4925309, -3109591, 267910],
        [1202, -759, 65],
        true,
    ),
    (
        (
            12,
            [5000000, -3000000, 777],
            [0; 3],
            [1048576, -349526, 149796],
            ONE,
            ONE,
        ),
        [4919498, -2361009, 2055280],
        [1201, -576, 502],
        false,
    ),
    (
        (
            12,
            [5000000, -3000000, 777],
            [0; 3],
            [3000000, -1000000, 428571],
            ONE,
            ONE,
        ),
        [5307587, -1173178, 2110255],
        [1296, -286, 515],
        false,
    ),
    (
        (
            12,
            [12345678, -3333333, 1],
            [123456789, -987654, 3],
            [1000003, -777777, 55555],
            (3, 10),
            (1, 3),
        ),
        [12883270, -3685306, -1502493],
        [3145, -900, -367],
        true,
    ),
];

// A push that is halted: by what, on which axis, and at which value.
const HALTS: [(Push, What, Axis, i128); 11] = [
    (
        (12, [0, 16779264, 0], [0; 3], [0; 3], ONE, ONE),
        What::Far,
        Axis::Y,
        4097,
    ),
    (
        (12, [-16779265, 0, 0], [0; 3], [0; 3], ONE, ONE),
        What::Far,
        Axis::X,
        -4097,
    ),
    (
        (12, [0; 3], [1099511627776, 0, 0], [0; 3], ONE, ONE),
        What::Far,
        Axis::X,
        536870912,
    ),
    (
        (12, [0; 3], [1099511627777, 0, 0], [0; 3], ONE, ONE),
        What::Speed,
        Axis::X,
        1099511627777,
    ),
    (
        (12, [0; 3], [-1099511627777, 0, 0], [0; 3], ONE, ONE),
        What::Speed,
        Axis::X,
        -1099511627777,
    ),
    (
        (12, [0; 3], [0; 3], [0, 0, 16777217], ONE, ONE),
        What::Turn,
        Axis::Z,
        16777217,
    ),
    (
        (
            12,
            [0; 3],
            [0, 0, 1099511627777],
            [16777217, 0, 0],
            ONE,
            ONE,
        ),
        What::Speed,
        Axis::Z,
        1099511627777,
    ),
    (
        (12, [16777216, 0, 0], [1, 0, 0], [0; 3], (8388608, 0), ONE),
        What::Far,
        Axis::X,
        8192,
    ),
    (
        (8, [1050624, 0, 0], [0; 3], [0; 3], ONE, ONE),
        What::Far,
        Axis::X,
        257,
    ),
    (
        (8, [0, -1050625, 0], [0; 3], [0; 3], ONE, ONE),
        What::Far,
        Axis::Y,
        -257,
    ),
    (
        (14, [0, 0, 67110912], [0; 3], [0; 3], ONE, ONE),
        What::Far,
        Axis::Z,
        16385,
    ),
];

// The push of a row, and what is answered where its numbers are small.
fn pushed(rt: &impl Abort, row: &Push) -> (Result<Moved, Halt>, Option<Moved>) {
    let (bits, v, e, b, (kick, kick_by), (turn, turn_by)) = *row;
    let sub = Sub::new(bits).expect(rt, "a side");
    let kick = Mult::try_new(kick, kick_by).expect(rt, "a multiplier");
    let turn = Mult::try_new(turn, turn_by).expect(rt, "a multiplier");
    (
        push(sub, v, e, b, kick, turn),
        push_narrow(sub, v, e, b, kick, turn),
    )
}

#[test]
fn a_push_ends_with_a_velocity_and_a_move(rt: HostRuntime) {
    for (row, v, d, small) in &MOVES {
        let moved = Moved { v: *v, d: *d };
        let narrow = if *small { Some(moved) } else { None };
        assert_eq!(rt; pushed(&rt, row), (Ok(moved), narrow), "{row:?}");
    }
}

#[test]
fn the_first_test_that_fails_answers(rt: HostRuntime) {
    for (row, what, axis, value) in &HALTS {
        let halt = Halt {
            what: *what,
            axis: *axis,
            value: *value,
        };
        assert_eq!(rt; pushed(&rt, row), (Err(halt), None), "{row:?}");
    }
}
