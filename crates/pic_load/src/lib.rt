//! The particles that a deck's run begins with.
#![tactic(auto)]

mod drawing;
mod loading;

pub use loading::load;
