//! One number for each node of the grid.

ghost use Rattle.std.specs.Prelude.{◌≡◌, ℕ, ℤ, pos, length, replicate, IfOk};
ghost use Rattle.pic_num.specs.Space.{triple};
ghost use Rattle.pic_block.specs.Cells.{IsCells, IsWithin, count_of};
ghost use Rattle.pic_grid.specs.Lattice.{NodeValues, node_at, with_node};

use crate::cells::Cells;
use pic_num::NoMemory;
use std::alloc::Global;
use std::marker::Model;

/// One `i128` for each node of the grid, which has as many nodes as cells.
#[derive(Drop)]
pub struct Nodes {
    cells: Cells,
    values: Vec<i128>,
}

impl Model for Nodes {
    ghost Value = { NodeValues };

    ghost view = { λ n. record { cells = n.cells.n; values = n.values.items } };

    ghost invariant = { λ n. IsCells n.cells.n × (length n.values.items ≡ count_of n.cells.n) };
}

impl Nodes {
    /// Nodes of zeros.
    pub fn new(alloc: Global, cells: Cells) -> Result<Nodes, NoMemory>
        ensures { IfOk result (λ n. n ≡ record {
          cells = cells.n;
          values = replicate (count_of cells.n) (pos 0);
        }) }
    {
        let [_, _, _] = cells.n;
        let values = vec![in alloc; 0i128; cells.count() as usize]?;
        Ok(Nodes { cells, values })
    }

    /// The numbers of cells.
    pub fn cells(&self) -> [u32; 3]
        ensures value { triple result ≡ self.now.cells }
        ensures shape { length self.now.values ≡ count_of self.now.cells }
    {
        let _values = &self.values;
        self.cells.numbers()
    }

    /// The value of `node`, one of the nodes.
    pub fn at(&self, node: [u32; 3]) -> i128
        requires { IsWithin (triple node) self.now.cells }
        ensures { result ≡ node_at self.now (triple node) }
    {
        let index = self.cells.index(node);
        self.values[index]
    }

    /// Changes the value of `node`, one of the nodes, to `value`, and nothing else.
    pub fn set(&mut self, node: [u32; 3], value: i128)
        requires { IsWithin (triple node) self.old.cells }
        ensures after { self.new ≡ with_node self.old (triple node) value }
        ensures stored { node_at self.new (triple node) ≡ value }
    {
        let index = self.cells.index(node);
        self.values[index] = value;
    }
}
