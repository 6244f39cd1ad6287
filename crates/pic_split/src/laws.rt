//! The laws of paths. Each is the contract of a function that does nothing.

ghost use Rattle.pic_split.specs.Continuity.{Continuity};
ghost use Rattle.pic_split.specs.CrossingsInOrder.{CrossingsInOrder};

/// Charge is kept exactly: at every node of the periodic grid the divergence of the current of one
/// particle's path is the charge that the node loses, for every side of a cell, every move of at
/// most that side, and every grid of at least two cells on each axis (Villasenor and Buneman 1992).
pub fn law_of_continuity()
    ensures { Continuity }
{}

/// A path is cut where it passes from one cell into the next, in the order in which it does: each
/// axis along which the cell changes has its one crossing there, no other crossing is there, and a
/// crossing at a smaller fraction of the move comes before one at a larger, for every start, every
/// side of a cell and every move of at most that side (Villasenor and Buneman 1992). Crossings at
/// the same fraction come in the order of their axes, x, y, z (this project's profile).
pub fn law_of_crossings()
    ensures { CrossingsInOrder }
{}
