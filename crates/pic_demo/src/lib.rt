//! The demonstration: the deck that a number makes.
#![tactic(auto)]

mod demo;
mod laws;

pub use demo::deck_of;
pub use laws::the_demonstration_is_walked;
