//! The words of a walk through a TOML document: key paths, the one fault that a walk ends with, and
//! the readers of single values, of rows and of points.
#![tactic(auto)]

mod address;
mod bounds;
mod displacement;
mod draw;
mod extents;
mod fault;
mod fill_kind;
mod key_path;
mod keys;
mod limits;
mod numbers;
mod point6;
mod point_reader;
mod row;
mod row_reader;
mod sites;
mod tables;
mod terms;

pub use address::Address;
pub use bounds::MAX_BYTES;
pub use displacement::{Displacement, read_displacement};
pub use draw::{Draw, read_draw};
pub use extents::extent;
pub use fault::{Fault, WalkStop};
pub use fill_kind::{FillKind, find_fill_kind};
pub use key_path::KeyPath;
pub use keys::{first_unlisted, is_listed};
pub use limits::Limits;
pub use numbers::{
    check_within, read_array, read_elements, read_long, read_multiplier, read_number, read_numbers,
    read_signed_three, read_text, read_three, read_whole,
};
pub use point_reader::read_points;
pub use point6::{Point6, Points};
pub use row::{Row, Rows};
pub use row_reader::read_rows;
pub use sites::{Sites, read_sites};
pub use tables::{
    check_keys, find_value, need_long, need_multiplier, need_number, need_signed_three, need_table,
    need_three, need_whole, needed_value, optional_three, optional_whole, read_table,
};
pub use terms::Terms;
