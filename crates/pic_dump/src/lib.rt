//! The dump of a run: its header, its frames and its end record, put into a sink, or read over any
//! source up to its end or its first fault.
#![tactic(auto)]

mod dump_reader;
mod laws;
mod upgrade_stop;
mod upgrading;

pub use dump_reader::{DumpReader, Next};
pub use laws::{
    dumps_are_read, dumps_have_one_spelling, upgrades_have_one_spelling, whole_parts_are_exact,
};
pub use pic_fields::ReadStop;
pub use pic_header::{
    Head, HeadStop, Header, HeaderSettings, Heads, headers_are_read, headers_have_one_spelling,
    keep_kind, keep_scales, put_header,
};
pub use pic_record::{
    ends_are_read, frames_are_due_in_turn, frames_are_read, frames_read_are_readable, is_due,
    put_end, put_frame, records_have_one_spelling,
};
pub use upgrade_stop::UpgradeStop;
pub use upgrading::upgrade;
