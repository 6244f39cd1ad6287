//! Tests of displaced species, driven loops and probes, from a deck's text on, in a crate of their own.
#![tactic(auto)]

#[cfg(test)]
mod displaced_decks;
#[cfg(test)]
mod displacing;
#[cfg(test)]
mod ends;
#[cfg(test)]
mod fields;
#[cfg(test)]
mod loop_decks;
#[cfg(test)]
mod loop_headers;
#[cfg(test)]
mod loops;
#[cfg(test)]
mod pieces;
#[cfg(test)]
mod probe_decks;
#[cfg(test)]
mod probe_lines;
#[cfg(test)]
mod reading;
