//! Loops of current that drive a run.
#![tactic(auto)]

mod driving;
mod laws;

pub use driving::{drive, raise_e};
pub use laws::{driven_current_is_closed, drives_add_up, drives_its_face, drives_repeat};
