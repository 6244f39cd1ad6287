//! What a seat of the board knows. It is for contracts: no value of it is made.

use crate::opening::Opening;
use std::collections::LinkedList;

/// The view of a seat. A spent one counts for nothing.
#[derive(Drop)]
pub struct View {
    pub live: bool,
    pub opening: Option<Opening>,
    /// The seat's own number, those of the seats that it took in, and those still to be made.
    pub number: u64,
    pub taken: LinkedList<u64>,
    pub unmade: LinkedList<u64>,
    /// One more than the seat's last draw, or 0.
    pub drawn: u64,
    /// Whether a draw was past the last tile.
    pub told: bool,
    /// The mailboxes that its claims still owe a parcel, each a receiver and a direction.
    pub owes: LinkedList<(u64, u64)>,
    /// The tiles whose parcels it may merge.
    pub rights: LinkedList<u64>,
    /// How many steps on words it took, and the seats that it took in; each step makes a word one more.
    pub steps: u64,
}
