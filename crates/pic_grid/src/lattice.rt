//! Three components for each cell of the grid.

ghost use Rattle.std.specs.Prelude.{◌≡◌, ℕ, ℤ, pos, ◌*◌, length, replicate, IfOk};
ghost use Rattle.pic_num.specs.Space.{triple};
ghost use Rattle.pic_block.specs.Cells.{IsCells, IsWithin, count_of};
ghost use Rattle.pic_grid.specs.Lattice.{Field, grid_of, IsParts, value_at, with_value};
ghost use Rattle.pic_grid.specs.Parts.{IsDivided, ArePartsOf, joined};

use crate::cells::Cells;
use crate::parts::{blocks_of, factors_of, layers_of, part_in};
use pic_block::Block;
use pic_num::{Axis, NoMemory};
use std::alloc::Global;
use std::marker::Model;

/// Three `i128` components for each cell of the grid, cut into equal parts with one block for each.
/// Contracts see the cells, their side, the parts and the values in the order of places.
// `factors` are what an index is multiplied by for its part.
#[derive(Drop)]
pub struct Lattice {
    pub(crate) cells: Cells,
    pub(crate) parts: [u32; 3],
    pub(crate) layers: [u32; 3],
    pub(crate) factors: [u16; 3],
    pub(crate) blocks: Vec<Block>,
}

impl Model for Lattice {
    ghost Value = { Field };

    ghost view = { λ l. joined l.cells (triple l.parts) l.blocks.items };

    ghost invariant = { λ l.
        IsDivided l.cells.n (triple l.parts) (triple l.layers) (triple l.factors) l.blocks.items };
}

impl Lattice {
    /// A lattice of zeros. Each axis has at least one part, and its parts have equally many cells.
    pub fn new(alloc: Global, cells: Cells, parts: [u32; 3]) -> Result<Lattice, NoMemory>
        requires { IsParts cells.n (triple parts) }
        ensures { IfOk result (λ l. l ≡ record {
          cells = cells.n;
          side = cells.side;
          parts = triple parts;
          values = replicate (3 * count_of cells.n) (pos 0);
        }) }
    {
        let layers = layers_of(cells, parts);
        let blocks = blocks_of(alloc, cells, parts)?;
        Ok(Lattice {
            cells,
            parts,
            layers,
            factors: factors_of(layers),
            blocks,
        })
    }

    /// The lattice of blocks, one for each part, x fastest. Their zones are the parts'.
    pub fn of_blocks(cells: Cells, parts: [u32; 3], blocks: Vec<Block>) -> Lattice
        requires parts { IsParts cells.n (triple parts) }
        requires zones { ArePartsOf cells.n (triple parts) blocks.items }
        ensures { result ≡ joined cells (triple parts) blocks.items }
    {
        let layers = layers_of(cells, parts);
        Lattice {
            cells,
            parts,
            layers,
            factors: factors_of(layers),
            blocks,
        }
    }

    /// The blocks, one for each part, x fastest.
    pub fn into_blocks(self) -> Vec<Block>
        ensures zones { ArePartsOf self.cells self.parts result.items }
        ensures values { self ≡ joined (grid_of self) self.parts result.items }
    {
        let Lattice {
            cells: _,
            parts: _,
            layers: _,
            factors: _,
            blocks,
        } = self;
        blocks
    }

    /// The numbers of cells and their side.
    pub fn cells(&self) -> Cells
        ensures value { result.n ≡ self.now.cells }
        ensures side { result.side ≡ self.now.side }
        ensures shape { length self.now.values ≡ 3 * count_of self.now.cells }
    {
        self.cells
    }

    /// The numbers of parts on x, y and z.
    pub fn parts(&self) -> [u32; 3]
        ensures value { triple result ≡ self.now.parts }
        ensures limits { IsParts self.now.cells self.now.parts }
    {
        self.parts
    }

    /// The component on `axis` at `cell`, one of the cells.
    pub fn at(&self, axis: Axis, cell: [u32; 3]) -> i128
        requires { IsWithin (triple cell) self.now.cells }
        ensures { result ≡ value_at self.now axis (triple cell) }
    {
        let part = part_in(self.parts, self.layers, self.factors, cell);
        let block = &self.blocks[part];
        block.at(axis, self.cells.unwrapped(cell))
    }

    /// Changes the component on `axis` at `cell`, one of the cells, to `value`, and nothing else.
    pub fn set(&mut self, axis: Axis, cell: [u32; 3], value: i128)
        requires { IsWithin (triple cell) self.old.cells }
        ensures after { self.new ≡ with_value self.old axis (triple cell) value }
        ensures stored { value_at self.new axis (triple cell) ≡ value }
    {
        let part = part_in(self.parts, self.layers, self.factors, cell);
        let at = self.cells.unwrapped(cell);
        let block = &mut self.blocks[part];
        block.set(axis, at, value);
    }
}
