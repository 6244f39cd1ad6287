//! What the push knows of a particle and its species, and what stops it.

use crate::mult::Mult;

/// A particle: its identity, the number of its species, its position in sub-cells and its velocity
/// in 1/4096 sub-cell per step.
#[derive(Clone, Copy, Debug, PartialEq, Eq)]
pub struct Particle {
    pub id: u32,
    pub species: u8,
    pub x: [u32; 3],
    pub v: [i32; 3],
}

/// What the particles of one species have in common. The charge is in whole units; 12 times it and
/// the cube of a cell's side is what a particle gives to the nodes. The mass, 1 to 65536, counts in
/// the kinetic energy alone. `kick` makes of the gathered E half a step's change of velocity, in
/// 1/4096 sub-cell per step, and `turn` of the gathered B half a step's turn, in 2^-20.
#[derive(Clone, Copy, Debug, PartialEq, Eq)]
pub struct Kind {
    pub charge: i32,
    pub mass: u32,
    pub kick: Mult,
    pub turn: Mult,
}

/// What is too large for a push to go on: the velocity after the half kick, the turn, or the move.
#[derive(Clone, Copy, Debug, PartialEq, Eq)]
pub enum What {
    Speed,
    Turn,
    Far,
}
