//! Readers of the fields of a binary format over any source: each tells what it read, or the first
//! fault and its place.
#![tactic(auto)]

mod ahead;
mod cause;
mod numbers;
mod read_stop;
mod taking;

pub use ahead::Ahead;
pub use cause::Cause;
pub use numbers::{
    is_from_to, read_at_most, read_between, read_byte, read_exactly, read_i32, read_i64, read_i128,
    read_u32, read_u128, read_within,
};
pub use read_stop::ReadStop;
pub use taking::{fill, read_end, take_field};
