//! The deposition of a segment's flux, and of a track's.

ghost use Rattle.std.specs.Prelude.{ℕ, ◌*◌, ◌^◌, unsigned_abs, take};
ghost use Rattle.std.specs.List.{All};
ghost use Rattle.pic_flux.specs.CellFlux.{most_before_flux};
ghost use Rattle.pic_block.specs.Block.{IsShaped, AllAtMost};
ghost use Rattle.pic_grid.specs.Flux.{flux, path_flux};
ghost use Rattle.pic_grid.specs.Segment.{IsInCell};
ghost use Rattle.pic_grid.specs.Ways.{GoAtMost};
ghost use Rattle.pic_flux.specs.Adds.{Adds, SumsBelow, GrowsBy};
ghost use Rattle.pic_flux.specs.Corners.{HasEdges};

use crate::cell_flux::CellFlux;
use crate::edges::{deposit_axis, has_edges};
use crate::spans::Spans;
use pic_block::Block;
use pic_grid::{Segment, Track};
use pic_num::{Axis, Sub};

/// Adds the flux of the charge `q` on a segment to those of the twelve edges of its cell that lie,
/// unwrapped, in the block's zone, and changes nothing else (Villasenor and Buneman, Comput. Phys.
/// Commun. 69, 1992, 306). The unit is a twelfth of a charge times a cubic sub-cell. Both ends lie
/// in the segment's closed cell, and the sums stay below 2^83.
pub fn deposit(sub: Sub, seg: &Segment, q: i32, to: &mut Block)
    requires inside { IsInCell sub seg.now }
    requires room { SumsBelow to.old (flux sub q seg.now) }
    ensures shape { IsShaped to.old to.new }
    ensures values { Adds to.old to.new (flux sub q seg.now) }
    ensures grows { GrowsBy (unsigned_abs q * sub * (12 * (sub * sub))) to.old to.new }
{
    let _side = sub.side();
    if has_edges(to, seg.cell) {
        deposit_inside(sub, seg, q, to);
    } else {
        CellFlux::of(sub, seg, q).add_to(to);
    }
}

/// The same where the zone has all edges of the cell: each axis is added as soon as it is known.
#[inline(always)]
pub fn deposit_inside(sub: Sub, seg: &Segment, q: i32, to: &mut Block)
    requires inside { IsInCell sub seg.now }
    requires edges { HasEdges to.old.low to.old.size seg.now.cell }
    requires room { AllAtMost most_before_flux to.old }
    ensures shape { IsShaped to.old to.new }
    ensures values { Adds to.old to.new (flux sub q seg.now) }
{
    let charge = i64::from(q);
    let _side = sub.side();
    let spans = Spans::of(sub, seg);
    let at = to.base(seg.cell);
    deposit_axis(&spans, charge, Axis::X, &at, to);
    deposit_axis(&spans, charge, Axis::Y, &at, to);
    deposit_axis(&spans, charge, Axis::Z, &at, to);
}

/// Adds the flux of the charge `q` on all segments of a track, each as `deposit` does, and changes
/// nothing else. What it adds at an edge is bounded by how far the track's segments go along it.
pub fn deposit_track(sub: Sub, track: &Track, q: i32, to: &mut Block)
    requires inside { All (IsInCell sub) track.now }
    requires room { (k : ℕ) → SumsBelow to.old (path_flux sub q (take k track.now)) }
    ensures shape { IsShaped to.old to.new }
    ensures values { Adds to.old to.new (path_flux sub q track.now) }
    ensures grows { (m : ℕ) → GoAtMost m track.now
        → GrowsBy (unsigned_abs q * m * (12 * (sub * sub))) to.old to.new }
{
    let segments = track.segments();
    for seg in segments {
        deposit(sub, seg, q, to);
    }
}
