//! The grid: the types that fields, charges and paths live on, and the definitions of the scheme.
#![tactic(auto)]

mod cells;
mod copying;
mod lattice;
mod loops;
mod name;
mod neighbours;
mod nodes;
mod pair;
mod parts;
mod runs;
mod setting;
mod slot;
mod snapshot;
mod stop;
mod track;
mod weak;

pub use cells::Cells;
pub use lattice::Lattice;
pub use loops::{Loop, Loops, Wave, copy_loops};
pub use name::Name;
pub use nodes::Nodes;
pub use pair::Pair;
pub use slot::Slot;
pub use snapshot::Snapshot;
pub use stop::{Bound, EndMark, Phase, Stop};
pub use track::{Segment, Track};
