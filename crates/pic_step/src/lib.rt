//! The state of a run, and one step of it.
#![tactic(auto)]

mod exchanging;
mod halving;
mod laws;
mod looking;
mod plasma;
mod push_phase;
mod start;
mod state;
mod stepping;
mod tile_flux;
mod tracers;
mod write;

pub use laws::{
    law_of_the_least_halt, law_of_the_run, law_of_the_step, law_of_velocities, three_images_are_all,
};
pub use pic_crew::crew;
pub use start::Start;
pub use state::State;
pub use stepping::{StepStop, step};
