//! What stops a step, and how a run ends.

use pic_num::{Axis, What};

/// The field phases of a step, in their order (the push comes after the first).
#[derive(Clone, Copy, Debug, PartialEq, Eq)]
pub enum Phase {
    Half1,
    Half2,
    Electric,
}

/// Which bound a new field value passes: that of the value or that of its force value.
#[derive(Clone, Copy, Debug, PartialEq, Eq)]
pub enum Bound {
    Value,
    Force,
}

/// What stops a step.
#[derive(Clone, Copy, Debug, PartialEq, Eq)]
pub enum Stop {
    /// A new field value, at the component `axis` of a cell, passes a bound; `value` is the value or
    /// the force value that does.
    Field {
        phase: Phase,
        bound: Bound,
        axis: Axis,
        cell: [u32; 3],
        value: i128,
    },
    /// The push of the particle `id` stops, at the number `value` on an axis: a velocity in 1/4096
    /// sub-cell per step (`Speed`), a turn in 2^-20 (`Turn`) or a move in sub-cells (`Far`).
    Push {
        id: u32,
        what: What,
        axis: Axis,
        value: i128,
    },
}

/// How a run ends: at its last step, or stopped in a step. Steps count from 1; the state before the
/// first is that of step 0.
#[derive(Clone, Copy, Debug, PartialEq, Eq)]
pub enum EndMark {
    Done { steps: u32 },
    Stopped { step: u32, stop: Stop },
}
