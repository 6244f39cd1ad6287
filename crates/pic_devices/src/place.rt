//! A place of a field that is watched, and the list of them.

use pic_num::{Axis, Listed};

/// A component of a field: the field, 0 for E and 1 for B, the axis and the cell.
#[derive(Clone, Copy, Debug, PartialEq, Eq)]
pub struct Place {
    pub field: u32,
    pub axis: Axis,
    pub cell: [u32; 3],
}

/// The places that are watched, as a list.
pub type Places = Listed<Place>;
