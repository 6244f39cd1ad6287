//! A value that a deck adds to a field at one place, and the list of them.

use pic_num::{Axis, Listed};

/// A value, in the field's own unit, that is added to the component of E or of B on an axis at a
/// cell.
#[derive(Clone, Copy, Debug, PartialEq, Eq)]
pub struct Row {
    pub axis: Axis,
    pub cell: [u32; 3],
    pub value: i64,
}

/// The rows of a field, as a list.
pub type Rows = Listed<Row>;
