//! What happens to a core.

use pic_tile::Dir;

/// An atomic step of a push of all tiles.
#[derive(Clone, Copy, Debug, PartialEq, Eq)]
pub enum Event {
    /// A tile is claimed, and its particles are pushed.
    Claim(u32),
    /// The parcel of a direction is posted by a claimed tile to the tile that it leads to.
    Post(u32, Dir),
    /// The parcel of a direction is merged into the tile that it was posted to.
    Merge(u32, Dir),
    /// A tile into which all parcels are merged is shut.
    Shut(u32),
}

/// The event can't come in the state that a core is in.
#[derive(Clone, Copy, Debug, PartialEq, Eq)]
pub struct NotAllowed(pub Event);
