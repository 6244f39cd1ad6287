//! Laws of the board and the core of events together. Each is the contract of a function that does
//! nothing.
#![tactic(auto)]

mod laws;

pub use laws::{
    each_number_is_drawn_once, each_state_ends_a_history, no_two_seats_claim_one_tile,
    slots_are_no_events, the_board_begins_as_the_core, the_board_ends_as_the_core,
    the_board_goes_on_as_the_core, the_board_runs_as_the_core, the_board_stands_for_the_core,
};
