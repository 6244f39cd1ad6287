//! Ways that charges have gone before a run begins: their flux, and their current taken off E.
#![tactic(auto)]

mod laws;
mod margin;
mod room;
mod way;

pub use laws::law_of_ways;
pub use room::{Smoothing, WayRoom, take_current_off};
pub use way::{Way, add_way};
