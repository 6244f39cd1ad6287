//! What a run has beside its state.

use crate::kinds::Kinds;
use crate::tile_map::TileMap;
use pic_grid::Loops;
use pic_num::Scales;

/// What stays in a run: the cells and their tiles, the filter of the current (0 for none, 1 for the
/// binomial one), the driven loops, the multipliers, and the species.
#[derive(Drop)]
pub struct Setup {
    pub map: TileMap,
    pub filter: u32,
    pub loops: Loops,
    pub scales: Scales,
    pub kinds: Kinds,
}
