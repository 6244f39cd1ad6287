//! The whole numbers of the scheme: roundings, multipliers, the side of a cell, particles, axes, lists,
//! numbers as text and as bytes, and what every crate answers for want of memory.
#![tactic(auto)]

mod axis;
mod limits;
mod listed;
mod motion;
mod mult;
mod names;
mod no_memory;
mod rounding;
mod sizes;
mod sub;
mod text;
mod workers;

pub use axis::{Axis, unwrapped};
pub use limits::{
    Allowance, BITS_1, MAX_BITS, MAX_CELLS, MAX_CELLS_1, MAX_CHARGE, MAX_DRIVE, MAX_FILTER,
    MAX_FORCE, MAX_LETTERS, MAX_LOOPS, MAX_MASS, MAX_NUMERATOR, MAX_PARTICLES, MAX_PARTICLES_1,
    MAX_SHIFT, MAX_SPECIES, MAX_SPEED, MAX_STEPS, MAX_TURN, MAX_VALUE, MAX_VERSION, MAX_WAVE,
    MIN_BITS, MIN_CELLS, MIN_CHARGE, VELOCITY_UNIT, allowance_of,
};
pub use listed::Listed;
pub use motion::{Kind, Particle, What};
pub use mult::{Mult, Scales};
pub use names::are_name_bytes;
pub use no_memory::NoMemory;
pub use rounding::{rdiv, scale, trunc_div, wrap};
pub use sizes::is_at_most;
pub use sub::Sub;
pub use text::Text;
pub use workers::Workers;
