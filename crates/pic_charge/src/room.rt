//! Room for the charge that E is held against, and Gauss's law tested in it.

ghost use Rattle.std.specs.Prelude.{◌≡◌, ◌≤◌, All, length, IfOk};
ghost use Rattle.pic_num.specs.declared.axis.Axis.{Axis as AxisName};
ghost use Rattle.pic_num.specs.Limits.{most_filter, most_particles, most_value};
ghost use Rattle.pic_num.specs.Sizes.{IsAtMost};
ghost use Rattle.pic_num.specs.Space.{Triple};
ghost use Rattle.pic_block.specs.Cells.{IsWithin};
ghost use Rattle.pic_grid.specs.Differences.{div_e};
ghost use Rattle.pic_grid.specs.Lattice.{value_at, node_at};
ghost use Rattle.pic_grid.specs.PushPhase.{CanShare};
ghost use Rattle.pic_charge.specs.Charge.{rho_of, IsCharged};
ghost use Rattle.pic_charge.specs.Gauss.{first_break};

use crate::breaks::{Break, gauss};
use crate::sums::charge_by;
use pic_filter::smooth_nodes;
use pic_grid::{Cells, Lattice, Nodes};
use pic_num::{Kind, NoMemory, Particle};
use std::alloc::Global;
use std::marker::Model;

/// Room for the charge of a grid's nodes, for its sums in 64 bits, and for as many numbers again where
/// it is filtered.
#[derive(Drop)]
pub struct ChargeRoom {
    cells: Cells,
    charge: Nodes,
    sums: Vec<i64>,
    smooth: Option<Nodes>,
}

impl Model for ChargeRoom {
    ghost use Rattle.pic_filter.specs.Smoothing.{filter_in};
    ghost use Rattle.pic_charge.specs.ChargeRoom.{RoomView, AreRooms};

    ghost Value = { RoomView };

    ghost view = { λ r. record { grid = r.cells; filter = filter_in r.smooth } };

    ghost invariant = { λ r. AreRooms r.cells r.charge r.sums.items r.smooth };
}

impl ChargeRoom {
    /// Room for the nodes of these cells, with this filter: 0 for none, 1 for the binomial one.
    pub fn new(alloc: Global, cells: Cells, filter: u32) -> Result<ChargeRoom, NoMemory>
        requires { filter ≤ most_filter }
        ensures { IfOk result (λ r. r ≡ record { grid = cells; filter = filter }) }
    {
        let charge = Nodes::new(alloc, cells)?;
        let sums = vec![in alloc; 0i64; cells.count() as usize]?;
        let smooth = if filter == 0 {
            None
        } else {
            Some(Nodes::new(alloc, cells)?)
        };
        Ok(ChargeRoom {
            cells,
            charge,
            sums,
            smooth,
        })
    }

    /// The least node, x fastest, where the divergence of `e` and the charge of the particles, which
    /// is filtered where the room has a filter, differ, or `None` where they agree at every node:
    /// Gauss's law.
    pub fn find_break(
        &mut self,
        kinds: &[Kind],
        particles: &[Particle],
        e: &Lattice,
    ) -> Option<Break>
        requires limits { All IsCharged kinds.now }
        requires placed { All (CanShare self.old.grid.side self.old.grid.n kinds.now)
            particles.now }
        requires few { length particles.now ≤ most_particles }
        requires cells { e.now.cells ≡ self.old.grid.n }
        requires most { (a : AxisName) (p : Triple) → IsWithin p self.old.grid.n
            → IsAtMost (value_at e.now a p) most_value }
        ensures value { result ≡ first_break self.old.grid.n
            (div_e self.old.grid.n (value_at e.now))
            (rho_of self.old.grid.side self.old.filter self.old.grid.n kinds.now particles.now) }
        ensures room { self.new ≡ self.old }
    {
        let cells = self.cells;
        let sums = self.sums.as_mut_slice();
        charge_by(cells, kinds, particles, sums, &mut self.charge);
        match &mut self.smooth {
            None => gauss(cells, e, &self.charge),
            Some(smooth) => {
                smooth_nodes(cells, &self.charge, smooth);
                gauss(cells, e, smooth)
            }
        }
    }
}
