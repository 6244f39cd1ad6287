//! What a deck sets for its run: its version, and the tables of the grid, the run and the scales.
#![tactic(auto)]

mod grid;
mod run;
mod scale;
mod settings;
mod tiles;

pub use run::check_steps;
pub use settings::{Settings, read_settings};
pub use tiles::check_tiles;
