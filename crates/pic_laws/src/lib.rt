//! Laws of the definitions of the scheme, of decks and of dumps, and programs that compute those of
//! the scheme place by place.
#![tactic(auto)]

mod laws;
mod slow;

pub use laws::{
    constant_is_gathered, curl_of_b_has_no_divergence, curl_of_e_has_no_divergence,
    each_identity_has_one_species, hats_add_up, law_of_the_first_halt,
    law_of_the_least_strong_force, particles_are_those_of_their_species, weights_add_up,
};
pub use slow::{slow_gather, slow_shifted_weight, slow_weight};

#[cfg(test)]
mod tests;
