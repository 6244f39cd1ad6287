//! Laws of whole runs: what `run` wrote is read back as the states that it was and found good by
//! `verify`, a run in parts is the run in one, and what stands on the sinks where a put failed; and
//! of decks that are never answered that they don't meet Gauss's law.
#![tactic(auto)]

mod kept;
mod laws;
mod starts;

pub use kept::{keep_deck, keep_read};
pub use laws::{
    frames_give_states, law_of_the_cut, probes_are_columns, resumes_are_runs, runs_are_read,
    runs_are_verified,
};
pub use starts::{
    couples_are_never_gauss, decks_are_loaded, no_field_is_no_e, plain_decks_begin_as_said,
    ways_stay_near,
};
