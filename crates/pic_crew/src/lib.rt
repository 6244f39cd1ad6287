//! Workers at a board: each claims tiles, pushes them, posts their parcels, and finishes the tiles
//! whose last parcel it posted.
#![tactic(auto)]

mod finishing;
mod posting;
mod team;
mod working;

pub use finishing::finish;
pub use team::on_board;
pub use working::crew;
