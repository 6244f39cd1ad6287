//! What a board begins with.

use pic_tile::{Frame, Tile};

/// The frame, the tiles before their push, and how many seats there are. It never changes.
#[derive(Drop)]
pub struct Opening {
    pub frame: Frame,
    pub tiles: Vec<Tile>,
    pub seats: u64,
}
