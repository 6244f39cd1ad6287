//! The top call: from words and a source to two sinks and an answer.
#![tactic(auto)]

mod check;
mod probing;
mod run_header;
mod running;
mod showing;
mod top_call;

pub use pic_report::Ended;
pub use top_call::pic;
