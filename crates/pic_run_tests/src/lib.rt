//! Tests of `pic_run`, in a crate of their own: a crate is proved a second time with its tests.
#![tactic(auto)]

#[cfg(test)]
mod bounds;
#[cfg(test)]
mod calls;
#[cfg(test)]
mod dumps;
#[cfg(test)]
mod faults;
#[cfg(test)]
mod fronts;
#[cfg(test)]
mod pieces;
#[cfg(test)]
mod resumes;
#[cfg(test)]
mod rooms;
#[cfg(test)]
mod runs;
#[cfg(test)]
mod trial;
#[cfg(test)]
mod words;
#[cfg(test)]
mod workers;
