//! What tests of whole calls share: decks in pieces, and a call of `pic` over memory.
#![tactic(auto)]

mod decks;
mod trial;

pub use decks::{
    CHARGES, ELECTRON, EMPTY, FILTERED, FILTERED_STEP, GRID_2, GRID_4, GRID_OF_8, GRID_OF_12, ION,
    LONE, MOVING, MOVING_OF_8, NO_STEP, ONE_STEP, PAIR, PAIR_OF_12, PAIR_REPORT, Pieces, STILL,
    STILL_OF_8, WAVES,
};
pub use trial::{CALM, Faults, Left, NEVER, SMALL, Sizes, number_at, owned, try_call};
