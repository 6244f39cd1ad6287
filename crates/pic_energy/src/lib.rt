//! The energies of a state, and the lines of a report that tell of a run.
#![tactic(auto)]

mod amounts;
mod line;
mod summing;

pub use amounts::Energies;
pub use line::{Line, end_line, frame_line};
pub use summing::energies;
