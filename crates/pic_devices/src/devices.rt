//! What drives a run and what watches it.

ghost use Rattle.std.specs.Prelude.{◌≡◌};
ghost use Rattle.pic_devices.specs.Devices.{no_devices};

use crate::probes::Probes;
use pic_grid::Loops;
use std::alloc::Global;

/// The loops that drive a run, and the probes that watch it.
#[derive(Debug, Drop)]
pub struct Devices {
    pub loops: Loops,
    pub probes: Probes,
}

impl Devices {
    /// No loops and no probes; it takes no memory.
    pub fn none(alloc: Global) -> Devices
        ensures { result ≡ no_devices }
    {
        Devices {
            loops: Loops::from_vec(Vec::new(alloc)),
            probes: Probes::none(alloc),
        }
    }
}
