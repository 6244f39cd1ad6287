//! The charge of the particles at the nodes, and Gauss's law.
#![tactic(auto)]

mod breaks;
mod charges;
mod cloud;
mod laws;
mod room;
mod spread;
mod sum_spread;
mod sums;

pub use breaks::{Break, gauss};
pub use charges::charge;
pub use laws::{break_is_where_gauss_fails, no_break_is_gauss};
pub use room::ChargeRoom;
