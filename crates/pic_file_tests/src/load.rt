//! The particles of decks, with words and velocities that a program of its own gave.

use crate::decks::{PAIR, deck_of};
use pic_load::load;
use pic_num::Particle;
use std::process::Abort;

/// A particle's species, place and velocity; its identity is its number.
pub struct Told(pub u8, pub [u32; 3], pub [i32; 3]);

/// A deck's particles are these.
pub fn check_loaded(rt: &(impl AllocGlobal + Abort), text: &str, wanted: &[Told]) {
    let mut particles = Vec::new(rt.alloc());
    let mut id: u32 = 0;
    for told in wanted {
        let particle = Particle {
            id,
            species: told.0,
            x: told.1,
            v: told.2,
        };
        particles.push(particle).expect(rt, "memory");
        id = id.wrapping_add(1);
    }
    let found = load(rt.alloc(), &deck_of(rt, text)).expect(rt, "memory");
    assert!(rt; found.as_slice() == particles.as_slice());
}

const PAIR_OF_PARTICLES: [Told; 2] = [
    Told(0, [1024, 0, 0], [0, 0, 0]),
    Told(1, [1024, 0, 0], [8388608, 0, 0]),
];

// Three words are a position.
const ONE: &str = "version = 1
grid = { cells = [4, 4, 4], tiles = [1, 1, 1] }
run = { steps = 0, every = 1 }
scale = { e_to_b = [0, 0], b_to_e = [0, 0], e_force = [0, 0], b_force = [0, 0] }
[[species]]
name = \"s\"
charge = 0
mass = 1
kick = [0, 0]
turn = [0, 0]
random = { count = 1, seed = 42, stream = 54, drift = [0, 0, 0], spread = [0, 0, 0] }
";

const ONE_PARTICLE: [Told; 1] = [Told(0, [10327, 7889, 11911], [0, 0, 0])];

// Each source fills a species.
const FILLS: &str = "version = 1
grid = { cells = [2, 2, 2], tiles = [1, 1, 1] }
run = { steps = 0, every = 1 }
scale = { e_to_b = [0, 0], b_to_e = [0, 0], e_force = [0, 0], b_force = [0, 0] }
[[species]]
name = \"s0\"
charge = 0
mass = 1
kick = [0, 0]
turn = [0, 0]
lattice = { first = [0, 0, 0], gap = [2048, 0, 0], count = [5, 1, 1], v = [1, -2, 3] }
[[species]]
name = \"s1\"
charge = 0
mass = 1
kick = [0, 0]
turn = [0, 0]
random = { count = 2, seed = 9223372036854775807, stream = 9223372036854775807, drift = [100, -200, 0], spread = [1048576, 1024, 0] }
[[species]]
name = \"s2\"
charge = 0
mass = 1
kick = [0, 0]
turn = [0, 0]
pair = { of = \"s1\", seed = 42, stream = 54, drift = [0, 0, -8388608], spread = [0, 0, 1048576] }
[[species]]
name = \"s3\"
charge = 0
mass = 1
kick = [0, 0]
turn = [0, 0]
random = { count = 0, seed = 0, stream = 0, drift = [0, 0, 0], spread = [0, 0, 0] }
[[species]]
name = \"s4\"
charge = 0
mass = 1
kick = [0, 0]
turn = [0, 0]
pair = { of = \"s3\", seed = 0, stream = 0, drift = [0, 0, 0], spread = [0, 0, 0] }
[[species]]
name = \"s5\"
charge = 0
mass = 1
kick = [0, 0]
turn = [0, 0]
pair = { of = \"s2\", seed = 0, stream = 1, drift = [0, 0, 0], spread = [3, 0, 0] }
[[species]]
name = \"s6\"
charge = 0
mass = 1
kick = [0, 0]
turn = [0, 0]
lattice = { first = [8191, 0, 1], gap = [2, 3, 262144], count = [2, 1, 2], v = [0, 0, 0] }
[[species]]
name = \"s7\"
charge = 0
mass = 1
kick = [0, 0]
turn = [0, 0]
pair = { of = \"s0\", seed = 1, stream = 0, drift = [0, 0, 0], spread = [1048576, 1048576, 1048576] }
";

const PARTICLES: [Told; 20] = [
    Told(0, [0, 0, 0], [1, -2, 3]),
    Told(0, [2048, 0, 0], [1, -2, 3]),
    Told(0, [4096, 0, 0], [1, -2, 3]),
    Told(0, [6144, 0, 0], [1, -2, 3]),
    Told(0, [0, 0, 0], [1, -2, 3]),
    Told(1, [6216, 5382, 4418], [-275606, 158, 0]),
    Told(1, [6777, 4232, 7878], [95886, -889, 0]),
    Told(2, [6216, 5382, 4418], [0, 0, -8478049]),
    Told(2, [6777, 4232, 7878], [0, 0, -9512553]),
    Told(5, [6216, 5382, 4418], [-6, 0, 0]),
    Told(5, [6777, 4232, 7878], [6, 0, 0]),
    Told(6, [8191, 0, 1], [0, 0, 0]),
    Told(6, [1, 0, 1], [0, 0, 0]),
    Told(6, [8191, 0, 1], [0, 0, 0]),
    Told(6, [1, 0, 1], [0, 0, 0]),
    Told(7, [0, 0, 0], [263961, -639310, -98027]),
    Told(7, [2048, 0, 0], [-1749992, 403126, 1309161]),
    Told(7, [4096, 0, 0], [-147878, -585184, -1992046]),
    Told(7, [6144, 0, 0], [-982306, 827136, -1237991]),
    Told(7, [0, 0, 0], [650142, 79571, -1091095]),
];

#[test]
fn each_source_fills_a_species(rt: HostRuntime) {
    check_loaded(&rt, PAIR, &PAIR_OF_PARTICLES);
    check_loaded(&rt, ONE, &ONE_PARTICLE);
    check_loaded(&rt, FILLS, &PARTICLES);
}
