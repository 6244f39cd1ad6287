//! The states of a run: what is put of each, and of the end.
#![tactic(auto)]

mod frame_writer;
mod laws;
mod output;
mod sorting;
mod states;
mod threading;

pub use laws::{every_state_meets_gauss, runs_go_on};
pub use output::{Output, Plan};
pub use states::{Stage, show, stage_of, write_further, write_states};
pub use threading::Threading;
