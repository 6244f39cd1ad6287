//! The probes that watch a run, and how many there may be.

ghost use Rattle.std.specs.Prelude.{◌≡◌};
ghost use Rattle.pic_devices.specs.Probes.{no_probes};

use crate::place::Places;
use pic_num::Listed;
use std::alloc::Global;

/// The most places that are watched.
pub const MAX_PLACES: u32 = 1 << 6;

/// The most particles that are followed.
pub const MAX_IDS: u32 = 1 << 6;

/// The fields are E, 0, and B, 1.
pub const MAX_FIELD: u32 = 1;

/// The identities of the particles that are followed, as a list.
pub type Ids = Listed<u32>;

/// What watches a run: the places whose values, and the particles whose positions and velocities each
/// state shows, in their order.
#[derive(Debug, Drop)]
pub struct Probes {
    pub places: Places,
    pub ids: Ids,
}

impl Probes {
    /// No probes; it takes no memory.
    pub fn none(alloc: Global) -> Probes
        ensures { result ≡ no_probes }
    {
        Probes {
            places: Places::from_vec(Vec::new(alloc)),
            ids: Ids::from_vec(Vec::new(alloc)),
        }
    }
}
