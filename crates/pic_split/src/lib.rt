//! The path of a particle in one step, cut at the faces of cells, and the laws of paths.
#![tactic(auto)]

mod face;
mod faces;
mod laws;
mod paths;

pub use laws::{law_of_continuity, law_of_crossings};
pub use paths::{cell, end_of, lone, split};
