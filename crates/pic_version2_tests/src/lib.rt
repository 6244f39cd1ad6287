//! Tests of whole calls for displaced starts, driven loops and probes, and of upgrades.
#![tactic(auto)]

#[cfg(test)]
mod displaced;
#[cfg(test)]
mod loops;
#[cfg(test)]
mod parts;
#[cfg(test)]
mod probes;
#[cfg(test)]
mod trial;
#[cfg(test)]
mod upgrades;
