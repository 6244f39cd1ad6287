//! The workers of a step, and the one way in which they share work out.
#![tactic(auto)]

mod sharing;
mod team;

pub use sharing::{Work, each_share};
pub use team::Team;
