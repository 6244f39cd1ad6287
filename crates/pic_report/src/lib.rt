//! How a call ends: its answer with the exit status of that, the lines that tell it, and what a command is to a
//! caller: its outcome, and what it takes, leaves and means.
#![tactic(auto)]

mod cut;
mod early;
mod ended;
mod lines;
mod refusing;
mod writing;

pub use cut::Cut;
pub use early::{Early, ended_early, put_early};
pub use ended::{Ended, ended_of};
pub use lines::{LINE_BYTES, line_of_check, line_of_upgraded, line_of_verified};
pub use writing::{put_line, put_out};
