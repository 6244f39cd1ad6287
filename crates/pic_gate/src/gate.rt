//! What a gate is, and the gate that is open.

/// Where a worker is when it passes a gate.
#[derive(Clone, Copy, Debug, PartialEq, Eq)]
pub enum Point {
    /// It has just claimed a tile.
    Claimed,
    /// It has just posted a parcel.
    Posted,
}

/// What every worker of a step passes at each point. A pass returns, and no contract sees a change.
pub trait Gate {
    /// `worker` is the worker's number, from 0 on.
    fn pass(&self, worker: u32, point: Point);
}

/// The gate at which no worker waits.
#[derive(Clone, Copy, Debug, Drop)]
pub struct Open;

impl Gate for Open {
    fn pass(&self, _worker: u32, _point: Point) {}
}
