//! What comes in and what goes out: the traits `Source` and `Sink`, and their implementations in
//! memory, over the standard streams, and such as never fail.
#![tactic(auto)]

mod failed;
mod mem_sink;
mod mem_source;
mod never_sink;
mod never_source;
mod pieces;
mod side;
mod sink;
mod source;
mod std_sink;
mod std_source;

pub use failed::Failed;
pub use mem_sink::MemSink;
pub use mem_source::MemSource;
pub use never_sink::NeverSink;
pub use never_source::NeverSource;
pub use side::Side;
pub use sink::Sink;
pub use source::Source;
pub use std_sink::StdSink;
pub use std_source::StdSource;
