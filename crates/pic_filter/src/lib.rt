//! The binomial filter of a lattice and of the numbers at nodes.
#![tactic(auto)]

mod kept;
mod laws;
mod nodes;
mod runs;
mod smoothing;
mod weights;

pub use laws::{divergence_of_smoothed, smoothed_sum, smoothed_total};
pub use nodes::smooth_nodes;
pub use smoothing::smooth;
