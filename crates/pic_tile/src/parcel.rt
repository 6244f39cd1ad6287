//! What a tile sends in a direction.

ghost use Rattle.std.specs.Prelude.{◌≡◌, IfOk};
ghost use Rattle.std.specs.Borrow.{sem};
ghost use Rattle.pic_tile.specs.Lending.{LendsParcel};

use crate::dir::Dir;
use pic_block::Block;
use pic_chain::Chain;
use pic_grid::Stop;
use pic_num::NoMemory;
use std::alloc::Global;
use std::marker::Model;
use std::ops::{Deref, DerefMut};

/// What leaves a tile in a direction, or stays in it: particles, flux in twelfths of a charge times
/// a cubic sub-cell over the layers of that direction, and what stops the push.
#[derive(Drop)]
pub struct Parcel {
    pub dir: Dir,
    pub chain: Chain,
    pub flux: Block,
    pub stop: Option<Stop>,
}

/// A parcel in memory of its own, so that to hand it on is to hand on its address. Contracts see it
/// as the parcel.
#[derive(Drop)]
pub struct ParcelBox {
    parcel: Box<Parcel>,
}

impl Model for ParcelBox {
    ghost use Rattle.pic_tile.specs.declared.parcel.Parcel.{Parcel};

    ghost Value = { Parcel };

    ghost view = { λ boxed. boxed.parcel.value };
}

impl ParcelBox {
    /// A parcel put into memory of its own. No other call on it takes memory.
    ///
    /// # Errors
    /// `NoMemory` where memory is refused; the parcel is given up then.
    pub fn new(alloc: Global, parcel: Parcel) -> Result<ParcelBox, NoMemory>
        ensures { IfOk result (λ boxed. boxed ≡ parcel) }
    {
        let parcel = Box::new(alloc, parcel)?;
        Ok(ParcelBox { parcel })
    }

    /// The parcel, out of its memory, which is given back.
    pub fn into_parcel(self) -> Parcel
        ensures { result ≡ self }
    {
        Box::into_inner(self.parcel)
    }
}

impl Deref for ParcelBox {
    type Target = Parcel;

    fn deref(&self) -> &Parcel
        ensures { result.now ≡ self.now }
    {
        &self.parcel
    }
}

impl DerefMut for ParcelBox {
    fn deref_mut(&mut self) -> &mut Parcel
        ensures* writes_back { sem 𝓛 (LendsParcel self.entry result) }
        ensures value { result.now ≡ self.old }
    {
        &mut self.parcel
    }
}
