//! The frames and the end record of a dump, both ways: put into a sink, and read over any source, or
//! their first fault.
#![tactic(auto)]

mod due;
mod end_reader;
mod ending;
mod field_reader;
mod frame_buffer;
mod frame_reader;
mod framing;
mod laws;
mod layout;
mod measure;
mod part;

pub use due::{due_after, is_due};
pub use end_reader::read_end_record;
pub use ending::put_end;
pub use frame_reader::read_frame;
pub use framing::put_frame;
pub use laws::{
    ends_are_read, frames_are_due_in_turn, frames_are_read, frames_read_are_readable,
    records_have_one_spelling,
};
pub use layout::Layout;
