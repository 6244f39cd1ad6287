//! Tests of decks read and loaded, and of dumps written, verified and carried on, in a crate of their own: a
//! crate is proved a second time with its tests.
#![tactic(auto)]

#[cfg(test)]
mod carry;
#[cfg(test)]
mod decks;
#[cfg(test)]
mod demo;
#[cfg(test)]
mod dump;
#[cfg(test)]
mod extents;
#[cfg(test)]
mod last_values;
#[cfg(test)]
mod load;
#[cfg(test)]
mod read;
#[cfg(test)]
mod reader;
#[cfg(test)]
mod refused;
#[cfg(test)]
mod terms;
#[cfg(test)]
mod texts;
#[cfg(test)]
mod trial;
#[cfg(test)]
mod verify;
