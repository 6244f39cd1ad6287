//! Tests of `pic_chain`, `pic_tile`, `pic_push` and `pic_core`, in a crate of their own: a crate is
//! proved a second time with its tests.
#![tactic(auto)]

#[cfg(test)]
mod alike;
#[cfg(test)]
mod chain;
#[cfg(test)]
mod cutting;
#[cfg(test)]
mod dir;
#[cfg(test)]
mod draws;
#[cfg(test)]
mod electron;
#[cfg(test)]
mod frame;
#[cfg(test)]
mod opening;
#[cfg(test)]
mod orders;
#[cfg(test)]
mod pushes;
#[cfg(test)]
mod tile;
#[cfg(test)]
mod tile_map;
