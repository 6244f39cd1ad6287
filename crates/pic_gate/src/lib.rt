//! Gates: calls that the workers of a step make on their way, and that change nothing. They are there
//! so that a test can hold a worker until another has come as far.
#![tactic(auto)]

mod gate;
mod hold;
#[cfg(test)]
mod tests;

pub use gate::{Gate, Open, Point};
pub use hold::Hold;
