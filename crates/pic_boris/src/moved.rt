//! What a push gives.

/// A particle's new velocity, in 1/4096 sub-cell per step, and its move in sub-cells, which isn't
/// wrapped yet.
#[derive(Clone, Copy, Debug, PartialEq, Eq)]
pub struct Moved {
    pub v: [i32; 3],
    pub d: [i32; 3],
}
