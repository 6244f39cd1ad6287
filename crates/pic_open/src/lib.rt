//! A deck is opened: through all stages up to Gauss's law.
#![tactic(auto)]

mod gauss_test;
mod opening_deck;
mod source_reader;
mod stage_stop;

pub use opening_deck::{Opened, load_and_test, open};
pub use stage_stop::{StageStop, end_early};
