//! Tests of the scheme's parts, in a crate of their own: a crate is proved a second time with its tests.
#![tactic(auto)]

#[cfg(test)]
mod boris;
#[cfg(test)]
mod charge;
#[cfg(test)]
mod energy;
#[cfg(test)]
mod field;
#[cfg(test)]
mod filter;
#[cfg(test)]
mod gather;
#[cfg(test)]
mod values;
