//! Runs that end at a bound of the scheme, and the most particles: the same on every number of workers.

use crate::runs::{Run, TWO, check_run};
use crate::trial::{call, check};
use pic_trial::{CALM, ELECTRON, GRID_2, GRID_4, ION, MOVING, NO_STEP, ONE_STEP, STILL, WAVES};
use std::process::Abort;
use std::thread::Threads;

// E grows above 2^90: B(2^63 - 1) times 2^31 - 1.
const VALUE: Run = Run {
    deck: &[
        GRID_2,
        ONE_STEP,
        b"scale = { e_to_b = [1, 4], b_to_e = [2147483647, 0], e_force = [0, 0], b_force = [0, 0] }\n\
        field = { faces = [[2, 0, 0, 0, 9223372036854775807]] }\n",
    ],
    status: 1,
    report: b"frame 0 kinetic 0 electric 0 magnetic 0\n\
    stopped 1 field electric value 0 0 0 0 19807040619342712359383728129\n",
    len: 922,
    numbers: &[],
};

// The first half step of B stops before two particles do that are too fast.
const HALF_1: Run = Run {
    deck: &[
        GRID_4,
        b"run = { steps = 5, every = 1 }\n\
        scale = { e_to_b = [2147483647, 0], b_to_e = [0, 0], e_force = [1, 0], b_force = [1, 0] }\n\
        [field]\ne = [1, 0, 0]\n\
        edges = [[0, 0, 0, 0, 8192], [0, 0, 1, 0, -8192], [1, 0, 0, 0, -8192], [1, 1, 0, 0, 8192]]\n\
        [[species]]\nname = \"neutral\"\ncharge = 0\nmass = 1\nkick = [8388608, 0]\nturn = [0, 0]\n\
        points = [[8192, 0, 0, 16777216, 0, 0], [0, 0, 0, 16777216, 0, 0]]\n",
    ],
    status: 1,
    report: b"frame 0 kinetic 562949953421312 electric 268435520 magnetic 0\n\
    stopped 1 field half1 force 2 0 0 0 -70368744144896\n",
    len: 6406,
    numbers: &[],
};

// The first half step leaves B at -2^44 in one place, which is the bound; the second goes past it.
const HALF_2: Run = Run {
    deck: &[
        GRID_4,
        ONE_STEP,
        b"scale = { e_to_b = [1073741824, 0], b_to_e = [0, 0], e_force = [1, 0], b_force = [1, 0] }\n\
        [field]\n\
        edges = [[0, 0, 0, 0, 4096], [0, 0, 1, 0, -4096], [1, 0, 0, 0, -4096], [1, 1, 0, 0, 4096]]\n",
    ],
    status: 1,
    report: b"frame 0 kinetic 0 electric 67108864 magnetic 0\n\
    stopped 1 field half2 force 2 0 0 0 -35184372088832\n",
    len: 6298,
    numbers: &[],
};

// The two charges, and two faces of B whose curl makes E's force values too large, in the first tile
// and in the last: the step stops at the least place of all, which lies in the last tile.
const CURLED: Run = Run {
    deck: &[
        GRID_4,
        ONE_STEP,
        b"scale = { e_to_b = [0, 0], b_to_e = [2147483647, 0], e_force = [1, 0], b_force = [0, 0] }\n\
        field = { faces = [[0, 0, 0, 0, 8193], [1, 2, 2, 2, 8193]] }\n",
        ION,
        STILL,
        ELECTRON,
        MOVING,
    ],
    status: 1,
    report: b"frame 0 kinetic 70368744177664 electric 0 magnetic 0\n\
    stopped 1 field electric force 0 2 2 2 -17594333519871\n",
    len: 6466,
    numbers: &[],
};

// Two uncharged particles of two tiles, both too fast: the least identity is named.
const FAST: Run = Run {
    deck: &[
        GRID_4,
        b"run = { steps = 5, every = 1 }\n\
        scale = { e_to_b = [0, 0], b_to_e = [0, 0], e_force = [1, 0], b_force = [0, 0] }\n\
        field = { e = [1, 0, 0] }\n\
        [[species]]\nname = \"neutral\"\ncharge = 0\nmass = 1\nkick = [8388608, 0]\nturn = [0, 0]\n\
        points = [[8192, 0, 0, 16777216, 0, 0], [0, 0, 0, 16777216, 0, 0]]\n",
    ],
    status: 1,
    report: b"frame 0 kinetic 562949953421312 electric 64 magnetic 0\n\
    stopped 1 particle 0 far 0 8192\n",
    len: 6397,
    numbers: &[(6381, 16, 8192)],
};

const ROWS: [Run; 6] = [VALUE, HALF_1, HALF_2, CURLED, FAST, TWO];

fn check_workers<H: AllocGlobal + Abort + Threads + Sync>(rt: &H, run: &Run) {
    check_run(rt, run);
    let one = call(rt, &["run"], run.deck, CALM);
    for workers in ["1", "2", "3", "63", "64"] {
        let left = call(rt, &["run", "--workers", workers], run.deck, CALM);
        check(rt, &left, run.status, one.out.bytes(), run.report);
    }
}

#[test]
fn a_run_ends_alike_on_every_number_of_workers(rt: HostRuntime) {
    for row in &ROWS {
        check_workers(&rt, row);
    }
}

const GRAINS: &[u8] = b"[[species]]\nname = \"grain\"\ncharge = 0\nmass = 1\n\
    kick = [0, 0]\nturn = [0, 0]\n\
    lattice = { first = [0, 0, 0], gap = [8, 8, 0], v = [0, 0, 0], count = ";

#[test]
fn the_most_particles_are_checked_and_more_refused(rt: HostRuntime) {
    let most = [GRID_2, NO_STEP, WAVES, GRAINS, b"[1024, 1024, 1] }\n"];
    let left = call(&rt, &["check"], &most, CALM);
    check(&rt, &left, 0, b"ok 1048576 particles\n", b"");
    let more = [GRID_2, NO_STEP, WAVES, GRAINS, b"[1024, 1025, 1] }\n"];
    let left = call(&rt, &["check"], &more, CALM);
    let line = b"refused 5 limit species[0] 1049600 0 1048576\n";
    check(&rt, &left, 3, b"", line);
}
