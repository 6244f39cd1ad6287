//! The field phases of a step, the filter of the current, and force values, over the blocks of a lattice, on workers.
#![tactic(auto)]

mod driving;
mod filtering;
mod forcing;
mod full_step;
mod half_steps;
mod stops;
mod useful;

pub use driving::{Current, drive_e};
pub use filtering::filter_current;
pub use forcing::force_values;
pub use full_step::advance_e;
pub use half_steps::{Halves, advance_b};
