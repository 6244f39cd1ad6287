//! The command line: what the words after the program's name ask for.
#![tactic(auto)]

mod app;
mod asked;
mod laws;
mod line;

pub use asked::{Command, LineFault};
pub use laws::commands_are_taken;
pub use line::command;
