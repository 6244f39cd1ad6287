//! A particle that a deck gives, and the list of them.

use pic_num::Listed;

/// A particle that a deck gives: its position in sub-cells and its velocity in 1/4096 sub-cell per
/// step.
#[derive(Clone, Copy, Debug, PartialEq, Eq)]
pub struct Point6 {
    pub x: [u32; 3],
    pub v: [i32; 3],
}

/// The particles of a species, one by one, as a list.
pub type Points = Listed<Point6>;
