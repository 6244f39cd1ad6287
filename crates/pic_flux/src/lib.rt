//! The deposition of a path's flux on the edges of a block. It is written once for all axes, and
//! inlined, so that each axis has straight code of its own.
#![tactic(auto)]

mod cell_flux;
mod deposits;
mod edges;
mod four;
mod spans;
mod weights;

pub use cell_flux::CellFlux;
pub use deposits::{deposit, deposit_inside, deposit_track};
pub use edges::Layers;
