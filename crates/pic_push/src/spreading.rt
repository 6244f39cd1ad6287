//! The flux of a piece of a path, spread over the parcels of a tile.

ghost use Rattle.std.specs.Prelude.{◌≡◌, ℕ, ◌<◌, false};
ghost use Rattle.pic_num.specs.Space.{spot};
ghost use Rattle.pic_block.specs.Block.{IsShaped, AllAtMost};
ghost use Rattle.pic_flux.specs.Adds.{Adds};
ghost use Rattle.pic_flux.specs.CellFlux.{edge_flux, flux_cell, IsModest, most_before_flux};
ghost use Rattle.pic_tile.specs.declared.parcel.Parcel.{Parcel};
ghost use Rattle.pic_tile.specs.Directions.{directions, here};
ghost use Rattle.pic_tile.specs.Tile.{parcel_at};
ghost use Rattle.pic_push.specs.Gains.{Gained, GainsAt, Gains, IsClear};
ghost use Rattle.pic_push.specs.Region.{IsUp, AreUps, IsLastOn, CanGain, CanGainAll};
ghost use Rattle.pic_push.specs.Reach.{IsReach, reaches};

use crate::reach::Reach;
use crate::region::{HERE, layers_at};
use pic_block::Block;
use pic_flux::CellFlux;
use pic_tile::{Dir, Parcel, Tile};

/// Adds the flux of a piece to a tile's parcel of a direction, if it is there.
fn add_to(flux: &CellFlux, dir: Dir, tile: &mut Tile)
    requires modest { IsModest flux.now }
    requires room { (p : Parcel) → parcel_at tile.old dir ≡ Some p
        → AllAtMost most_before_flux p.flux }
    ensures { GainsAt (edge_flux flux.now) dir tile.old tile.new }
{
    tile.change_flux(dir, |to| flux.add_to(to));
}

/// Adds it to the block of the direction `UP`, for a cell that is in the tile's last layer on the
/// axes on which `LAST` steps up. The numbers are no arguments, so that each pair of them has
/// straight code of its own.
#[inline(always)]
fn add_layers<const LAST: u32, const UP: u32>(flux: &CellFlux, to: &mut Block)
    requires { CanGain LAST UP flux.now to.old }
    ensures shape { IsShaped to.old to.new }
    ensures values { Adds to.old to.new (edge_flux flux.now) }
{
    flux.add_to_layers(&layers_at(Dir::of(LAST), Dir::of(UP)), to);
}

/// The same for the tile's parcel of that direction, if it is there.
#[inline(always)]
fn add_up<const LAST: u32, const UP: u32>(flux: &CellFlux, tile: &mut Tile)
    requires up { UP < directions }
    requires can { (p : Parcel) → parcel_at tile.old UP ≡ Some p → CanGain LAST UP flux.now p.flux }
    ensures { GainsAt (edge_flux flux.now) UP tile.old tile.new }
{
    let add = |to: &mut Block|
        requires { CanGain LAST UP flux.now to.old }
        ensures shape { IsShaped to.old to.new }
        ensures values { Adds to.old to.new (edge_flux flux.entry.now) }
    { add_layers::<LAST, UP>(flux, to) };
    tile.change_flux(Dir::of(UP), add);
}

/// Adds it to all parcels of a tile, of which that of no step is held apart, for a cell at a face:
/// `UP` steps over it.
#[inline(always)]
pub(crate) fn add_at_face<const UP: u32>(flux: &CellFlux, tile: &mut Tile, own: &mut Parcel)
    requires up { IsUp UP }
    requires can { CanGainAll flux.now own.old tile.old }
    requires face { IsLastOn UP own.old.flux.low own.old.flux.size (flux_cell flux.now) }
    ensures own { Gained (edge_flux flux.now) own.old own.new }
    ensures others { Gains (edge_flux flux.now) tile.old tile.new }
{
    add_layers::<UP, HERE>(flux, &mut own.flux);
    add_up::<UP, UP>(flux, tile);
}

/// The same for a cell at an edge: `SECOND` and `THIRD` step over its two faces, and `FAR` over
/// both.
#[inline(always)]
pub(crate) fn add_at_edge<const SECOND: u32, const THIRD: u32, const FAR: u32>(
    flux: &CellFlux,
    tile: &mut Tile,
    own: &mut Parcel,
)
    requires ups { AreUps SECOND THIRD FAR }
    requires can { CanGainAll flux.now own.old tile.old }
    requires edge { IsLastOn FAR own.old.flux.low own.old.flux.size (flux_cell flux.now) }
    ensures own { Gained (edge_flux flux.now) own.old own.new }
    ensures others { Gains (edge_flux flux.now) tile.old tile.new }
{
    add_layers::<FAR, HERE>(flux, &mut own.flux);
    add_up::<FAR, SECOND>(flux, tile);
    add_up::<FAR, THIRD>(flux, tile);
    add_up::<FAR, FAR>(flux, tile);
}

/// Adds it to the parcel of a direction, unless that is the one of no step, which is held apart.
fn add_outside(flux: &CellFlux, number: u32, tile: &mut Tile)
    requires number { number < directions }
    requires modest { IsModest flux.now }
    requires apart { parcel_at tile.old here ≡ None }
    requires room { (p : Parcel) → parcel_at tile.old number ≡ Some p
        → AllAtMost most_before_flux p.flux }
    ensures { GainsAt (edge_flux flux.now) number tile.old tile.new }
{
    if number == Dir::HERE.number() {
        return;
    }
    add_to(flux, Dir::of(number), tile);
}

/// Adds it to all parcels of a tile but that of no step, which is held apart: the layers that the
/// piece doesn't reach gain nothing of it.
pub(crate) fn spread(flux: &CellFlux, reach: &Reach, tile: &mut Tile)
    requires modest { IsModest flux.now }
    requires reach { IsReach reach.now }
    requires apart { parcel_at tile.old here ≡ None }
    requires room { (d : ℕ) (p : Parcel) → d < directions → parcel_at tile.old d ≡ Some p
        → AllAtMost most_before_flux p.flux }
    requires clear { (d : ℕ) (p : Parcel) → d < directions → reaches reach.now d ≡ false
        → parcel_at tile.old d ≡ Some p → IsClear (edge_flux flux.now) p.flux }
    ensures { Gains (edge_flux flux.now) tile.old tile.new }
{
    let mut next = Some(reach.first());
    while let Some(at) = next {
        add_outside(flux, at.number(), tile);
        next = reach.after(&at);
    }
}

/// Adds it to all parcels of a tile, of which that of no step is held apart, wherever its cell lies.
pub(crate) fn add_anywhere(flux: &CellFlux, cell: [i32; 3], tile: &mut Tile, own: &mut Parcel)
    requires can { CanGainAll flux.now own.old tile.old }
    requires cell { flux_cell flux.now ≡ spot cell }
    ensures own { Gained (edge_flux flux.now) own.old own.new }
    ensures others { Gains (edge_flux flux.now) tile.old tile.new }
{
    let reach = Reach::of(own.flux.zone(), cell);
    flux.add_to(&mut own.flux);
    spread(flux, &reach, tile);
}
