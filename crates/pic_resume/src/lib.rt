//! The dump of a run, read and put again as far as a longer run has its frames, up to the frame from
//! which that run goes on.
#![tactic(auto)]

mod carried;
mod carry_stop;
mod carrying;

pub use carried::Carried;
pub use carry_stop::CarryStop;
pub use carrying::carry;
