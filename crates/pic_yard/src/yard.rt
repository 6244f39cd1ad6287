//! The board, as the threads share it, and the seats at it.

use crate::board_rule::BoardRule;
use crate::opening::Opening;
use crate::slot_content::SlotContent;
use crate::view::View;
use atomic_table::Table;
use pic_tile::{Frame, Tile};
use std::alloc::Global;
use std::marker::Model;
use std::snapshot::Snapshot;

/// A thread's seat at a board: only through it are tiles claimed, parcels posted and tiles given
/// back. It takes no bytes.
pub type Seat = atomic_table::Seat<Option<SlotContent>, View>;

/// The board: one word from which the numbers of tiles are drawn, for each tile one that counts the
/// parcels that arrived, and the slots in which tiles and parcels lie. Contracts see what it began
/// with, and which table of words and slots it is.
#[derive(Drop)]
pub struct Yard {
    pub(crate) table: Table<Option<SlotContent>, View, Snapshot<Opening>, BoardRule, Global>,
    pub(crate) frame: Frame,
    /// Places for the finished tiles.
    pub(crate) room: Vec<Tile>,
    pub(crate) tiles: u32,
}

impl Model for Yard {
    ghost use Rattle.pic_yard.specs.YardValue.{YardValue};

    ghost Value = { YardValue };

    ghost use Rattle.pic_yard.specs.Inside.{IsFitted, yard_of};

    ghost view = { yard_of };

    ghost invariant = { IsFitted };
}
