//! Tiles: the equal boxes of cells into which a grid is cut, and the directions between them; and
//! particles in any order: the list by identity, the census, the stop of a push.
#![tactic(auto)]

mod cutting;
mod dir;
mod frame;
mod kinds;
mod laws;
mod parcel;
mod parcel_layers;
mod setup;
mod tile;
mod tile_map;

pub use cutting::{cell_in_tile, cut, hand_in, tile_of};
pub use dir::Dir;
pub use frame::Frame;
pub use kinds::Kinds;
pub use laws::{
    any_order_is_the_list, census_is_a_rearrangement, census_is_put_in_order,
    fresh_tiles_hold_the_list, law_of_the_least_of_tiles, least_stop_in_any_order,
    same_is_a_rearrangement, written_is_in_order,
};
pub use parcel::{Parcel, ParcelBox};
pub use parcel_layers::{layers_begin, layers_zone};
pub use setup::Setup;
pub use tile::Tile;
pub use tile_map::TileMap;
