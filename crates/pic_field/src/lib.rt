//! The field phases of a step, and force values, block by block.
#![tactic(auto)]

mod both_halves;
mod electric;
mod faults;
mod forces;
mod laws;
mod magnetic;
mod making;
mod plane;
mod raising;
mod rooms;
mod row;
mod sweep;
mod zone;

pub use both_halves::both_halves_in;
pub use electric::{free_e_in, full_e, full_e_in};
pub use forces::force;
pub use laws::law_of_the_least_stop;
pub use magnetic::{half_b, half_b_in};
pub use rooms::Rooms;
