//! The push of all tiles as a pure machine: its state, and the events that change it, in any order.
#![tactic(auto)]

mod allowed;
mod around;
mod core_end;
mod core_start;
mod event;
mod in_turn;
mod machine;
mod performing;
mod running;
mod scratch;

pub use event::{Event, NotAllowed};
pub use machine::Core;
pub use scratch::Scratch;
