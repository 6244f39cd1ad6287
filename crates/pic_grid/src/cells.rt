//! The numbers of cells of the grid and the side of a cell, and the order of cells and places.

ghost use Rattle.std.specs.Prelude.{◌≡◌, ◌↔◌, ◌≤◌, ◌<◌, ◌*◌, length, IsSome, IfSome};
ghost use Rattle.pic_num.specs.Limits.{most_cells};
ghost use Rattle.pic_num.specs.Space.{triple, spot, unwrapped};
ghost use Rattle.pic_block.specs.Cells.{Grid, IsCells, IsWithin, count_of, index_of, cell_of, place_of};
ghost use Rattle.pic_grid.specs.Arrays.{array_of_triple};

use pic_block::{index_in, place_in};
use pic_num::{Axis, Sub, unwrapped};
use std::marker::Model;

/// The numbers of cells of a periodic grid on its three axes, 2 to 128 on each, and the side of a
/// cell.
#[derive(Clone, Copy, Debug, PartialEq, Eq)]
pub struct Cells {
    pub n: [u32; 3],
    pub sub: Sub,
}

impl Model for Cells {
    ghost Value = { Grid };

    ghost view = { λ c. record { n = triple c.n; side = c.sub } };

    ghost invariant = { λ c. IsCells (triple c.n) × (length c.n ≡ 3) };

    ghost inverse = { λ g. record { n = array_of_triple g.n; sub = g.side } };

    ghost inverse_ok = { λ c h i. record {
      n = Rattle.pic_grid.specs.Arrays.array_of_triple-triple c.n h.1 i;
      sub = c.sub;
    } };
}

impl Cells {
    /// The fewest cells of an axis.
    pub const FEWEST: u32 = 2;

    /// The most cells of an axis.
    pub const MOST: u32 = 128;

    /// The cells of numbers within the limits.
    pub fn new(n: [u32; 3], sub: Sub) -> Cells
        requires { IsCells (triple n) }
        ensures { result ≡ record { n = triple n; side = sub } }
    {
        Cells { n, sub }
    }

    /// The cells of numbers from outside, or `None` where they pass the limits.
    pub fn try_new(n: [u32; 3], sub: Sub) -> Option<Cells>
        ensures valid { IsSome result ↔ IsCells (triple n) }
        ensures value { IfSome result (λ c. c ≡ record { n = triple n; side = sub }) }
    {
        let [x, y, z] = n;
        if x < Cells::FEWEST || x > Cells::MOST {
            return None;
        }
        if y < Cells::FEWEST || y > Cells::MOST {
            return None;
        }
        if z < Cells::FEWEST || z > Cells::MOST {
            return None;
        }
        Some(Cells { n, sub })
    }

    /// The numbers of cells on x, y and z.
    pub fn numbers(self) -> [u32; 3]
        ensures value { triple result ≡ self.n }
        ensures limits { IsCells self.n }
    {
        self.n
    }

    /// The side of a cell.
    #[inline(always)]
    pub fn sub(self) -> Sub
        ensures { result ≡ self.side }
    {
        self.sub
    }

    /// How many cells there are.
    pub fn count(self) -> u32
        ensures value { result ≡ count_of self.n }
        ensures most { result ≤ most_cells }
    {
        let [x, y, z] = self.n;
        x * y * z
    }

    /// The number of `cell`, one of these cells, x fastest.
    pub fn index(self, cell: [u32; 3]) -> usize
        requires { IsWithin (triple cell) self.n }
        ensures value { result ≡ index_of self.n (triple cell) }
        ensures below { result < count_of self.n }
    {
        index_in(self.n, cell)
    }

    /// The number of the component on `axis` at `cell`, one of these cells: the axis first, then the
    /// cell.
    pub fn place(self, axis: Axis, cell: [u32; 3]) -> usize
        requires { IsWithin (triple cell) self.n }
        ensures value { result ≡ place_of self.n axis (triple cell) }
        ensures below { result < 3 * count_of self.n }
    {
        place_in(self.n, axis, cell)
    }

    /// The cell of a number below that of the cells.
    pub fn cell_at(self, index: usize) -> [u32; 3]
        requires { index < count_of self.n }
        ensures value { triple result ≡ cell_of self.n index }
        ensures within { IsWithin (triple result) self.n }
        ensures number { index_of self.n (triple result) ≡ index }
    {
        let [nx, ny, _] = self.n;
        let index = index as u32;
        [index % nx, index / nx % ny, index / nx / ny]
    }

    /// The axis and the cell of a place's number, which is below three times that of the cells.
    pub fn place_at(self, place: usize) -> (Axis, [u32; 3])
        requires { place < 3 * count_of self.n }
        ensures within { IsWithin (triple result.1) self.n }
        ensures number { place_of self.n result.0 (triple result.1) ≡ place }
    {
        let count = self.count() as usize;
        let axis = Axis::of_number((place / count) as u32);
        (axis, self.cell_at(place % count))
    }

    /// One of these cells as one that isn't wrapped.
    pub fn unwrapped(self, cell: [u32; 3]) -> [i32; 3]
        requires { IsWithin (triple cell) self.n }
        ensures { spot result ≡ unwrapped (triple cell) }
    {
        let [_, _, _] = self.n;
        let [x, y, z] = cell;
        unwrapped([x, y, z])
    }
}
