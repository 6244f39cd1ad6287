//! The gather of E and B at a point.
#![tactic(auto)]

mod component;
mod cube;
mod gathering;
mod layered;
mod mix;
mod sides;
mod weak;

pub use gathering::{Gathered, gather, gather_b, gather_e, gather_weak};
pub use weak::is_weak;
