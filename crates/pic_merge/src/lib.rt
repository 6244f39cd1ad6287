//! Parcels merged into the tile that they go to.
#![tactic(auto)]

mod merging;

pub use merging::{merge, shut};
