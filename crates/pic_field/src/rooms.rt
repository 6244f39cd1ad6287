//! Rooms for planes of scaled rows.

use crate::plane::{LINES_OF_PLANE, Line, Plane};
use crate::row::VALUES_OF_ROW;

/// Rooms that a phase works in, for scaled values. Who goes over many blocks makes them once and
/// lends them to each: what they held is of no matter.
// Two planes of scaled rows of a field, of layers that follow one another: of each two layers, the
// even and the odd have a room each.
#[derive(Drop)]
pub struct Rooms {
    pub(crate) planes: [Plane; 2],
}

impl Rooms {
    /// Rooms whose values are of no matter.
    pub fn new() -> Rooms {
        let row = [0; VALUES_OF_ROW];
        let line = Line {
            x: row,
            y: row,
            z: row,
        };
        Rooms {
            planes: [[line; LINES_OF_PLANE]; 2],
        }
    }
}
