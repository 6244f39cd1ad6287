//! What surrounds the particles of all tiles in their push.

ghost use Rattle.std.specs.Prelude.{◌≡◌, IfOk};
ghost use Rattle.pic_tile.specs.CoreState.{IsSoundFrame};
ghost use Rattle.pic_tile.specs.Frame.{IsForceField, IsPushFrame};
ghost use Rattle.pic_tile.specs.Tiling.{grid_of_tiling};

use crate::kinds::Kinds;
use crate::tile_map::TileMap;
use pic_grid::{Cells, Lattice};
use pic_num::Kind;
use std::marker::Model;

/// The cells and their tiles, the species, and the force values of E and B: all that a push reads
/// beside the particles.
#[derive(Drop)]
pub struct Frame {
    cells: Cells,
    map: TileMap,
    kinds: Kinds,
    force_e: Lattice,
    force_b: Lattice,
}

impl Model for Frame {
    ghost use Rattle.pic_tile.specs.Frame.{FrameValue, IsPushFrame};

    ghost Value = { FrameValue };

    ghost view = { λ f. record {
      cells = f.cells;
      map = f.map;
      kinds = f.kinds;
      force_e = f.force_e;
      force_b = f.force_b;
    } };

    ghost invariant = { λ f. IsPushFrame (record {
      cells = f.cells;
      map = f.map;
      kinds = f.kinds;
      force_e = f.force_e;
      force_b = f.force_b;
    }) };
}

impl Frame {
    /// The frame of a map, whose cells the two lattices have, in the same parts, with force values
    /// within their bound; it takes no memory.
    pub fn new(map: TileMap, kinds: Kinds, force_e: Lattice, force_b: Lattice) -> Frame
        requires e { IsForceField (grid_of_tiling map) force_e }
        requires b { IsForceField (grid_of_tiling map) force_b }
        requires parts { force_b.parts ≡ force_e.parts }
        ensures { result ≡ record {
          cells = grid_of_tiling map;
          map = map;
          kinds = kinds;
          force_e = force_e;
          force_b = force_b;
        } }
    {
        let cells = map.cells();
        let _kinds = kinds.as_slice();
        Frame {
            cells,
            map,
            kinds,
            force_e,
            force_b,
        }
    }

    /// Hands out what its type and that of its map keep.
    pub fn sound(&self)
        ensures { IsSoundFrame self.now }
    {
        let _tiles = self.map().tiles();
        let _side = self.cells().sub().side();
    }

    /// The cells.
    pub fn cells(&self) -> Cells
        ensures value { result ≡ self.now.cells }
        ensures frame { IsPushFrame self.now }
    {
        self.cells
    }

    /// The tiles.
    pub fn map(&self) -> &TileMap
        ensures value { result.now ≡ self.now.map }
        ensures frame { IsPushFrame self.now }
    {
        &self.map
    }

    /// What the particles of each species have in common.
    pub fn kinds(&self) -> &[Kind]
        ensures value { result.now ≡ self.now.kinds }
        ensures frame { IsPushFrame self.now }
    {
        self.kinds.as_slice()
    }

    /// The force values of E.
    pub fn force_e(&self) -> &Lattice
        ensures value { result.now ≡ self.now.force_e }
        ensures frame { IsPushFrame self.now }
    {
        &self.force_e
    }

    /// The force values of B.
    pub fn force_b(&self) -> &Lattice
        ensures value { result.now ≡ self.now.force_b }
        ensures frame { IsPushFrame self.now }
    {
        &self.force_b
    }

    /// Its species and its two lattices, E's first; it takes no memory.
    pub fn into_parts(self) -> (Kinds, Lattice, Lattice)
        ensures kinds { result.0 ≡ self.kinds }
        ensures e { result.1 ≡ self.force_e }
        ensures b { result.2 ≡ self.force_b }
        ensures frame { IsPushFrame self }
    {
        let Frame {
            cells: _,
            map: _,
            kinds,
            force_e,
            force_b,
        } = self;
        (kinds, force_e, force_b)
    }
}
