//! The lines that the probes of a run put, one a state.
#![tactic(auto)]

mod laws;
mod line;

pub use laws::lines_have_columns;
pub use line::put_line;
