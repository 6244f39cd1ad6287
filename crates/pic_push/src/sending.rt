//! The flux that a particle's path sends through the layers of its tile.

ghost use Rattle.std.specs.Prelude.{◌≡◌, ℕ, IsTrue, take};
ghost use Rattle.std.specs.List.{All};
ghost use Rattle.pic_num.specs.Limits.{most_charge};
ghost use Rattle.pic_num.specs.Sizes.{IsAtMost};
ghost use Rattle.pic_num.specs.Space.{triple, spot};
ghost use Rattle.pic_boris.specs.Pushes.{shift_of, IsInLimits};
ghost use Rattle.pic_block.specs.Block.{AllAtMost};
ghost use Rattle.pic_grid.specs.Flux.{flux, path_flux};
ghost use Rattle.pic_grid.specs.PushPhase.{CanShare};
ghost use Rattle.pic_grid.specs.Segment.{IsInCell};
ghost use Rattle.pic_grid.specs.Traces.{IsFluxAtMost};
ghost use Rattle.pic_tile.specs.Directions.{here};
ghost use Rattle.pic_tile.specs.Frame.{felt_in};
ghost use Rattle.pic_tile.specs.Tiling.{cells_of};
ghost use Rattle.pic_push.specs.Gains.{Gained, Gains};
ghost use Rattle.pic_push.specs.Paths.{IsPath, IsPathOf, flux_along, path_start, path_end};
ghost use Rattle.pic_push.specs.Region.{IsUp, AreUps, IsLastOn};
ghost use Rattle.pic_push.specs.Sends.{HasHeadroom, HasParcels, HasLayers, HasParcelsWithin, most_path_flux, most_sent};

use crate::charged_path::Path;
use crate::feeling::charge_of;
use crate::region::{Region, UP_X, UP_XY, UP_XZ, UP_Y, UP_YZ, UP_Z, region_of};
use crate::spreading::{add_anywhere, add_at_edge, add_at_face};
use pic_block::Zone;
use pic_boris::Moved;
use pic_flux::{CellFlux, deposit_inside};
use pic_grid::{Segment, Track};
use pic_num::{Particle, Sub};
use pic_split::{lone, split};
use pic_tile::{Frame, Parcel, Tile};

/// The path of a particle's move.
#[inline(always)]
pub(crate) fn path_of(frame: &Frame, particle: &Particle, by: &Moved) -> Path
    requires can { let m = frame.now.map in
        CanShare m.side (cells_of m) frame.now.kinds particle.now }
    requires limits { IsInLimits frame.now.map.side by.now }
    ensures path { IsPath result }
    ensures of { IsPathOf (felt_in frame.now) particle.now (shift_of by.now) result }
{
    let [_, _, _] = frame.cells().numbers();
    Path {
        sub: frame.cells().sub(),
        from: particle.x,
        by: by.d,
        charge: charge_of(frame.kinds(), particle),
    }
}

/// Adds the flux of the charge `q` on a piece of a path to all parcels of a tile, of which that of
/// no step is held apart. Most pieces send flux through the tile's own layers alone.
#[inline(always)]
fn send_piece(sub: Sub, piece: &Segment, q: i32, zone: Zone, tile: &mut Tile, own: &mut Parcel)
    requires inside { IsInCell sub piece.now }
    requires charge { IsAtMost q most_charge }
    requires open { HasParcelsWithin most_sent (spot zone.low) (triple zone.size) tile.old }
    requires room { HasLayers most_sent (spot zone.low) (triple zone.size) here own.old }
    ensures own { Gained (flux sub q piece.now) own.old own.new }
    ensures others { Gains (flux sub q piece.now) tile.old tile.new }
{
    match region_of(zone, piece.cell) {
        Region::Inside => deposit_inside(sub, piece, q, &mut own.flux),
        Region::FaceX => send_at_face::<UP_X>(sub, *piece, q, tile, own),
        Region::FaceY => send_at_face::<UP_Y>(sub, *piece, q, tile, own),
        Region::FaceZ => send_at_face::<UP_Z>(sub, *piece, q, tile, own),
        Region::EdgeX => send_at_edge::<UP_Y, UP_Z, UP_YZ>(sub, *piece, q, tile, own),
        Region::EdgeY => send_at_edge::<UP_Z, UP_X, UP_XZ>(sub, *piece, q, tile, own),
        Region::EdgeZ => send_at_edge::<UP_X, UP_Y, UP_XY>(sub, *piece, q, tile, own),
        Region::Elsewhere => send_anywhere(sub, *piece, q, tile, own),
    }
}

/// The same for a piece whose cell is at a face of the tile, over which `UP` steps.
fn send_at_face<const UP: u32>(sub: Sub, piece: Segment, q: i32, tile: &mut Tile, own: &mut Parcel)
    requires inside { IsInCell sub piece }
    requires charge { IsAtMost q most_charge }
    requires up { IsUp UP }
    requires face { IsLastOn UP own.old.flux.low own.old.flux.size piece.cell }
    requires open { HasParcelsWithin most_sent own.old.flux.low own.old.flux.size tile.old }
    requires room { AllAtMost most_sent own.old.flux }
    ensures own { Gained (flux sub q piece) own.old own.new }
    ensures others { Gains (flux sub q piece) tile.old tile.new }
{
    let flux = CellFlux::of(sub, &piece, q);
    add_at_face::<UP>(&flux, tile, own);
}

/// The same for one whose cell is at an edge of it: `SECOND` and `THIRD` step over the two faces
/// there, and `FAR` over both.
fn send_at_edge<const SECOND: u32, const THIRD: u32, const FAR: u32>(
    sub: Sub,
    piece: Segment,
    q: i32,
    tile: &mut Tile,
    own: &mut Parcel,
)
    requires inside { IsInCell sub piece }
    requires charge { IsAtMost q most_charge }
    requires ups { AreUps SECOND THIRD FAR }
    requires edge { IsLastOn FAR own.old.flux.low own.old.flux.size piece.cell }
    requires open { HasParcelsWithin most_sent own.old.flux.low own.old.flux.size tile.old }
    requires room { AllAtMost most_sent own.old.flux }
    ensures own { Gained (flux sub q piece) own.old own.new }
    ensures others { Gains (flux sub q piece) tile.old tile.new }
{
    let flux = CellFlux::of(sub, &piece, q);
    add_at_edge::<SECOND, THIRD, FAR>(&flux, tile, own);
}

/// The same for one whose cell is anywhere.
fn send_anywhere(sub: Sub, piece: Segment, q: i32, tile: &mut Tile, own: &mut Parcel)
    requires inside { IsInCell sub piece }
    requires charge { IsAtMost q most_charge }
    requires open { HasParcelsWithin most_sent own.old.flux.low own.old.flux.size tile.old }
    requires room { AllAtMost most_sent own.old.flux }
    ensures own { Gained (flux sub q piece) own.old own.new }
    ensures others { Gains (flux sub q piece) tile.old tile.new }
{
    let flux = CellFlux::of(sub, &piece, q);
    add_anywhere(&flux, piece.cell, tile, own);
}

/// The same for the pieces of a path that crosses faces of cells, one after the other.
#[inline(always)]
fn send_track(sub: Sub, track: &Track, q: i32, zone: Zone, tile: &mut Tile, own: &mut Parcel)
    requires inside { All (IsInCell sub) track.now }
    requires charge { IsAtMost q most_charge }
    requires short { (k : ℕ) → IsFluxAtMost most_path_flux (path_flux sub q (take k track.now)) }
    requires open { HasParcels (spot zone.low) (triple zone.size) tile.old }
    requires room { HasHeadroom (spot zone.low) (triple zone.size) here own.old }
    ensures own { Gained (path_flux sub q track.now) own.old own.new }
    ensures others { Gains (path_flux sub q track.now) tile.old tile.new }
{
    let segments = track.segments();
    for piece in segments {
        send_piece(sub, piece, q, zone, tile, own);
    }
}

/// Adds the flux of a path to all parcels of a tile, of which that of no step is held apart, and
/// answers true where the path stays in a cell, as most do, and false where it is cut.
// Each `WAY` is compiled by itself, so that the way of most particles has it in its own code.
#[inline(always)]
pub(crate) fn send_flux<const WAY: u32>(
    path: &Path,
    zone: Zone,
    tile: &mut Tile,
    own: &mut Parcel,
) -> bool
    requires path { IsPath path.now }
    requires open { HasParcels (spot zone.low) (triple zone.size) tile.old }
    requires room { HasHeadroom (spot zone.low) (triple zone.size) here own.old }
    ensures own { Gained (flux_along path.now) own.old own.new }
    ensures others { Gains (flux_along path.now) tile.old tile.new }
    ensures stays { IsTrue result → path_end path.now ≡ path_start path.now }
{
    let Path {
        sub,
        from,
        by,
        charge,
    } = *path;
    let _side = sub.side();
    match lone(sub, from, by) {
        Some(piece) => {
            send_piece(sub, &piece, charge, zone, tile, own);
            true
        }
        None => {
            let track = split(sub, from, by);
            send_track(sub, &track, charge, zone, tile, own);
            false
        }
    }
}
