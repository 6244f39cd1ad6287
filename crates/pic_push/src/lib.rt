//! The push of a tile: its particles are moved, and the flux of their paths is added to the layers
//! of the tile's directions.
#![tactic(auto)]

mod charged_path;
mod feeling;
mod laws;
mod leading;
mod lone_push;
mod moves;
mod node_push;
mod reach;
mod region;
mod sending;
mod spreading;
mod stop_order;
mod tile_push;

pub use laws::{
    layers_make_the_current, sums_grow_by_particles, sums_keep_the_bound, the_way_leads_to_the_tile,
};
pub use lone_push::push_alone;
pub use stop_order::{least_stop, lesser};
pub use tile_push::push_tile;
