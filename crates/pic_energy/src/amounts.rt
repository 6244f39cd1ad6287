//! The energies of a state.

/// The energies of a state, each a whole number in a unit of its own, so that they aren't to be
/// added. `kinetic`: the sum of mass times squared velocity, in 1/4096 sub-cell per step;
/// `electric` and `magnetic`: the sums of the squared force values. None is kept constant by the
/// scheme, which rounds.
#[derive(Clone, Copy, Debug, PartialEq, Eq)]
pub struct Energies {
    pub kinetic: u128,
    pub electric: u128,
    pub magnetic: u128,
}
