//! Tests of `pic_yard`, `pic_crew` and `pic_step`, in a crate of their own: a crate is proved a second
//! time with its tests.
#![tactic(auto)]

#[cfg(test)]
mod counting;
#[cfg(test)]
mod holding;
#[cfg(test)]
mod one_tile;
#[cfg(test)]
mod opening;
#[cfg(test)]
mod seeing;
#[cfg(test)]
mod steps;
#[cfg(test)]
mod two_threads;
