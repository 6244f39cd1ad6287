//! The displaced start: the E that a run begins with where species of its deck stand a way from others.
#![tactic(auto)]

mod displacing;
mod fault;
mod laws;

pub use displacing::displace;
pub use fault::DisplaceFault;
pub use laws::{law_of_couples, law_of_displaced_start};
