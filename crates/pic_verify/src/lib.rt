//! A dump held against its own physics: each frame is of the format, with its energies, and meets
//! Gauss's law.
#![tactic(auto)]

mod laws;
mod verify_stop;
mod verifying;

pub use laws::{dumps_are_verified, law_of_the_verdict};
pub use verify_stop::VerifyStop;
pub use verifying::{first_break, rooms_for, verify};
