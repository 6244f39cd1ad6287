//! Laws of the deck's walk: what a deck spells that is accepted, with no walk from key to key, and the
//! tests of a deck in their order, of which the first that fails is the refusal. Each is the contract of
//! a function that does nothing.
#![tactic(auto)]

mod contents;
mod deck;
mod devices;
mod settings;
mod turn;

pub use contents::{
    fields_are_spelled, fields_are_tested, species_are_spelled, species_are_tested,
};
pub use deck::{decks_are_read, decks_are_refused, decks_are_spelled, decks_are_tested};
pub use devices::{loops_are_spelled, loops_are_tested, probes_are_spelled, probes_are_tested};
pub use settings::{
    grids_are_spelled, grids_are_tested, runs_are_spelled, runs_are_tested, scales_are_spelled,
    scales_are_tested, settings_are_spelled, settings_are_tested,
};
pub use turn::tests_go_in_turn;
