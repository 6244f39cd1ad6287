//! Particles sorted: those of a tile lie side by side in memory again, in the order of their cells, as
//! when the run began.
#![tactic(auto)]

mod dealing;
mod emptying;
mod shelves;
mod sorting;

pub use shelves::Shelves;
pub use sorting::sort;
