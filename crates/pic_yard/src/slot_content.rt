//! What a slot of the board holds.

ghost use Rattle.std.specs.Prelude.{◌≡◌, Some, IfOk};

use pic_num::NoMemory;
use pic_tile::{ParcelBox, Tile};
use std::alloc::Global;
use std::marker::Model;
use std::mem;

/// The place of a tile: the tile lies there, or it is elsewhere. It has its memory for itself, so
/// that a slot is small, whatever lies there.
#[derive(Drop)]
pub struct Berth {
    held: Box<Option<Tile>>,
}

impl Model for Berth {
    ghost use Rattle.std.specs.Prelude.{Option};
    ghost use Rattle.pic_tile.specs.Tile.{TileValue};

    ghost Value = { Option TileValue };

    ghost view = { λ berth. berth.held.value };
}

/// The place of a tile, or a posted parcel.
#[derive(Drop)]
pub enum SlotContent {
    Tile(Berth),
    Parcel(ParcelBox),
}

impl Berth {
    /// A place where this tile lies.
    ///
    /// # Errors
    /// `NoMemory` where its memory is refused.
    pub(crate) fn of(alloc: Global, tile: Tile) -> Result<Berth, NoMemory>
        ensures { IfOk result (λ berth. berth ≡ Some tile) }
    {
        let held = Box::new(alloc, Some(tile))?;
        Ok(Berth { held })
    }

    /// Lays a tile there, or none, and answers what lay there.
    pub(crate) fn replace(&mut self, tile: Option<Tile>) -> Option<Tile>
        ensures was { result ≡ self.old }
        ensures lies { self.new ≡ tile }
    {
        mem::replace(&mut *self.held, tile)
    }

    /// What lies there. Its memory is given back.
    pub(crate) fn into_tile(self) -> Option<Tile>
        ensures { result ≡ self }
    {
        Box::into_inner(self.held)
    }
}
