//! A segment's flux through the twelve edges of its cell, for blocks that have some of them.

ghost use Rattle.std.specs.Prelude.{◌≡◌, ◌^◌};
ghost use Rattle.pic_num.specs.declared.axis.Axis.{Axis};
ghost use Rattle.pic_num.specs.Space.{Spot};
ghost use Rattle.pic_block.specs.Block.{IsShaped, AllAtMost};
ghost use Rattle.pic_grid.specs.Flux.{flux};
ghost use Rattle.pic_grid.specs.Segment.{IsInCell};
ghost use Rattle.pic_flux.specs.Adds.{Adds};
ghost use Rattle.pic_flux.specs.CellFlux.{edge_flux, flux_cell, IsModest, AreLayers, most_before_flux};

use crate::edges::{Layers, add_corners, edges_in, layers_in};
use crate::four::four_of;
use crate::spans::Spans;
use pic_block::{Block, Four};
use pic_grid::Segment;
use pic_num::{Axis, Sub};

/// The flux through the twelve edges of a cell, in twelfths of a charge times a cubic sub-cell:
/// what is carried along each axis, and the weights of the four edges on it. It is computed once
/// for all blocks that have some of them.
#[derive(Clone, Copy)]
pub struct CellFlux {
    cell: [i32; 3],
    x: Four,
    y: Four,
    z: Four,
}

impl CellFlux {
    /// The flux of the charge `q` on a segment, both of whose ends lie in its closed cell.
    #[inline(always)]
    pub fn of(sub: Sub, seg: &Segment, q: i32) -> CellFlux
        requires { IsInCell sub seg.now }
        ensures flux { (a : Axis) (c : Spot) → edge_flux result a c ≡ flux sub q seg.now a c }
        ensures modest { IsModest result }
        ensures cell { flux_cell result ≡ seg.now.cell }
    {
        let charge = i64::from(q);
        let spans = Spans::of(sub, seg);
        let x = four_of(&spans, charge, Axis::X);
        let y = four_of(&spans, charge, Axis::Y);
        let z = four_of(&spans, charge, Axis::Z);
        CellFlux {
            cell: seg.cell,
            x,
            y,
            z,
        }
    }

    /// Adds it to those of the edges that lie, unwrapped, in the block's zone, and changes nothing
    /// else.
    pub fn add_to(&self, to: &mut Block)
        requires modest { IsModest self.now }
        requires room { AllAtMost most_before_flux to.old }
        ensures shape { IsShaped to.old to.new }
        ensures values { Adds to.old to.new (edge_flux self.now) }
    {
        let layers = layers_in(to, self.cell);
        self.add_to_layers(&layers, to);
    }

    /// The same for a block that has these layers of the cell: where they are known as the program
    /// is built, no edge is tested for.
    #[inline(always)]
    pub fn add_to_layers(&self, layers: &Layers, to: &mut Block)
        requires modest { IsModest self.now }
        requires layers { AreLayers to.old.low to.old.size (flux_cell self.now) layers.now }
        requires room { AllAtMost most_before_flux to.old }
        ensures shape { IsShaped to.old to.new }
        ensures values { Adds to.old to.new (edge_flux self.now) }
    {
        let cell = self.cell;
        let at = to.base(cell);
        let in_x = edges_in(to, Axis::X, cell, layers);
        let in_y = edges_in(to, Axis::Y, cell, layers);
        let in_z = edges_in(to, Axis::Z, cell, layers);
        add_corners(to, Axis::X, &at, &in_x, &self.x);
        add_corners(to, Axis::Y, &at, &in_y, &self.y);
        add_corners(to, Axis::Z, &at, &in_z, &self.z);
    }
}
