//! A tile: a parcel for each direction.

ghost use Rattle.std.specs.Prelude.{◌≡◌, ℕ, MatchOption, IfSome, IfOk};
ghost use Rattle.std.specs.Fn.{FnOnceTakesAtMut, FnOnceReturnsAtMut};
ghost use Rattle.pic_block.specs.Block.{BlockValues};
ghost use Rattle.pic_tile.specs.Tile.{parcel_at, with_parcel, with_flux};

use crate::dir::Dir;
use crate::parcel::{Parcel, ParcelBox};
use pic_block::Block;
use std::marker::Model;

/// A tile has a number, and for each direction a parcel or none yet.
#[derive(Drop)]
pub struct Tile {
    number: u32,
    parcels: [Option<ParcelBox>; 27],
}

impl Model for Tile {
    ghost use Rattle.pic_tile.specs.Tile.{TileValue, AreParcels};

    ghost Value = { TileValue };

    ghost view = { λ t. record { number = t.number; parcels = t.parcels } };

    ghost invariant = { λ t. AreParcels t.parcels };
}

impl Tile {
    /// The tile of a number, with no parcel yet.
    pub fn bare(number: u32) -> Tile
        ensures number { result.number ≡ number }
        ensures none { (d : ℕ) → parcel_at result d ≡ None }
    {
        Tile {
            number,
            parcels: [
                None, None, None, None, None, None, None, None, None, None, None, None, None, None,
                None, None, None, None, None, None, None, None, None, None, None, None, None,
            ],
        }
    }

    /// Its number.
    pub fn number(&self) -> u32
        ensures { result ≡ self.now.number }
    {
        self.number
    }

    /// Hands out what its type keeps: each parcel stands in the place of its direction.
    pub fn in_place(&self)
        ensures { (d : ℕ) (p : Parcel) → parcel_at self.now d ≡ Some p → p.dir ≡ d }
    {
        let _parcels = &self.parcels;
    }

    /// Its parcel of a direction, or `None` exactly where none is there.
    pub fn parcel(&self, dir: Dir) -> Option<&Parcel>
        ensures found { MatchOption result (parcel_at self.now dir ≡ None)
            (λ parcel. parcel_at self.now dir ≡ Some parcel.now) }
        ensures dir { IfSome result (λ parcel. parcel.now.dir ≡ dir) }
    {
        let at = dir.number() as usize;
        match &self.parcels[at] {
            Some(parcel) => Some(parcel),
            None => None,
        }
    }

    /// Takes its parcel of a direction, or answers `None` exactly where none is there.
    pub fn take_parcel(&mut self, dir: Dir) -> Option<ParcelBox>
        ensures taken { result ≡ parcel_at self.old dir }
        ensures after { self.new ≡ with_parcel self.old dir None }
        ensures dir { IfSome result (λ parcel. parcel.dir ≡ dir) }
    {
        let place = dir.number() as usize;
        self.parcels[place].take()
    }

    /// Changes the flux of its parcel of a direction by a call, where one is there, and nothing else.
    #[inline(always)]
    pub fn change_flux<F: FnOnce(&mut Block)>(&mut self, dir: Dir, change: F)
        requires { (p : Parcel) → parcel_at self.old dir ≡ Some p
            → FnOnceTakesAtMut F.FnOnce change p.flux }
        ensures none { parcel_at self.old dir ≡ None → self.new ≡ self.old }
        ensures changed { (p : Parcel) → parcel_at self.old dir ≡ Some p
            → (flux : BlockValues) × FnOnceReturnsAtMut F.FnOnce change p.flux tt flux
            × (self.new ≡ with_flux self.old dir p flux) }
    {
        let place = dir.number() as usize;
        match &mut self.parcels[place] {
            Some(parcel) => change(&mut parcel.flux),
            None => {}
        }
    }

    /// Puts a parcel in its place, where none of its direction is there.
    pub fn put_parcel(&mut self, parcel: ParcelBox)
        requires { parcel_at self.old parcel.dir ≡ None }
        ensures after { self.new ≡ with_parcel self.old parcel.dir (Some parcel) }
        ensures stored { parcel_at self.new parcel.dir ≡ Some parcel }
    {
        let place = parcel.dir.number() as usize;
        self.parcels[place] = Some(parcel);
    }
}
