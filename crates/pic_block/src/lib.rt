//! Boxes of cells and blocks over them, of which lattices are made and where flux is laid: the order of
//! places, rows, layers, and four components at once.
#![tactic(auto)]

mod among;
mod base;
mod block;
mod fours;
mod layers;
mod places;
mod rows;
mod setting;
mod weak;

pub use among::is_among;
pub use base::Base;
pub use block::{Block, Zone};
pub use fours::{Found, Four};
pub use places::{Place, count_in, index_in, place_in};
pub use rows::row_start;
