//! The header of a dump, both ways: put into a sink, and read over any source, or its first fault.
#![tactic(auto)]

mod head;
mod head_reader;
mod head_stop;
mod header;
mod heading;
mod keeping;
mod laws;
mod loop_reader;
mod name_reader;

pub use head::{Head, Heads};
pub use head_reader::read_header;
pub use head_stop::HeadStop;
pub use header::{Header, HeaderSettings};
pub use heading::put_header;
pub use keeping::{keep_kind, keep_scales};
pub use laws::{headers_are_read, headers_have_one_spelling};
