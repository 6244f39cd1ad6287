//! Tests of numbers, streams, the grid, paths and currents, in a crate of their own: a crate is
//! proved a second time with its tests.
#![tactic(auto)]

#[cfg(test)]
mod blocks;
#[cfg(test)]
mod cells;
#[cfg(test)]
mod deposits;
#[cfg(test)]
mod lattices;
#[cfg(test)]
mod numbers;
#[cfg(test)]
mod paths;
#[cfg(test)]
mod streams;
