//! Where a run goes on that a dump holds.

use pic_grid::Snapshot;
use pic_header::Header;

/// Where a run goes on: under this header, from the last frame that was read, which is that of a step.
#[derive(Drop)]
pub struct Carried {
    pub header: Header,
    pub step: u32,
    pub last: Snapshot,
}
