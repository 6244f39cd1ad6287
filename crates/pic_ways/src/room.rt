//! The memory for the current of ways, and that current taken off E.

ghost use Rattle.std.specs.Prelude.{◌≡◌, ◌≤◌, ◌-ℤ◌, ◌*◌, ◌^◌, length, IfOk};
ghost use Rattle.pic_num.specs.declared.axis.Axis.{Axis as AxisName};
ghost use Rattle.pic_num.specs.Limits.{most_filter};
ghost use Rattle.pic_num.specs.Sizes.{IsAtMost};
ghost use Rattle.pic_num.specs.Space.{Triple};
ghost use Rattle.pic_block.specs.Block.{AllAtMost};
ghost use Rattle.pic_block.specs.Cells.{IsWithin, count_of};
ghost use Rattle.pic_grid.specs.Current.{wrapped};
ghost use Rattle.pic_grid.specs.Lattice.{EachAtMost, value_at};
ghost use Rattle.pic_filter.specs.Smoothing.{filtered, filter_in, most_to_smooth};
ghost use Rattle.pic_ways.specs.Margin.{edge_or_zero};
ghost use Rattle.pic_ways.specs.Room.{HasRoom, HasSome, HasSmoothing};

use crate::margin::{fold, margin_of, take_off};
use pic_block::{Block, Zone};
use pic_filter::smooth;
use pic_grid::{Cells, Lattice};
use pic_num::NoMemory;
use std::alloc::Global;

/// Room for a current, and for its filtered values.
#[derive(Drop)]
pub struct Smoothing {
    pub current: Lattice,
    pub filtered: Block,
}

/// A block over the box and its margin, and what a filter takes.
#[derive(Drop)]
pub struct WayRoom {
    pub flux: Block,
    pub smoothing: Option<Smoothing>,
}

impl Smoothing {
    fn new(alloc: Global, cells: Cells) -> Result<Smoothing, NoMemory>
        ensures { IfOk result (λ s. HasSmoothing cells.n s) }
    {
        let size = cells.numbers();
        let zone = Zone { low: [0; 3], size };
        Ok(Smoothing {
            current: Lattice::new(alloc, cells, [1; 3])?,
            filtered: Block::new(alloc, zone)?,
        })
    }
}

impl WayRoom {
    /// Room for these cells, with this filter: 0 for none, 1 for the binomial one.
    pub fn new(alloc: Global, cells: Cells, filter: u32) -> Result<WayRoom, NoMemory>
        requires { filter ≤ most_filter }
        ensures { IfOk result (λ r. HasRoom cells.n filter r) }
    {
        let flux = Block::new(alloc, margin_of(cells))?;
        let smoothing = if filter == 0 {
            None
        } else {
            Some(Smoothing::new(alloc, cells)?)
        };
        Ok(WayRoom { flux, smoothing })
    }
}

/// Takes off E the current that wraps from a block to the edges of the grid, which is filtered where
/// there is room for that.
pub fn take_current_off(cells: Cells, flux: &Block, smoothing: Option<Smoothing>, e: &mut Lattice)
    requires cells { e.old.cells ≡ cells.n }
    requires room { HasSome cells.n smoothing }
    requires flux { AllAtMost most_to_smooth flux.now }
    requires current { (a : AxisName) (p : Triple) → IsWithin p cells.n
        → IsAtMost (wrapped cells.n (edge_or_zero flux.now a) p) most_to_smooth }
    requires e { EachAtMost (2 ^ 84) e.old }
    ensures cells { e.new.cells ≡ e.old.cells }
    ensures side { e.new.side ≡ e.old.side }
    ensures parts { e.new.parts ≡ e.old.parts }
    ensures shape { length e.new.values ≡ 3 * count_of e.new.cells }
    ensures values { (a : AxisName) (p : Triple) → IsWithin p cells.n → value_at e.new a p
        ≡ value_at e.old a p
        -ℤ filtered (filter_in smoothing) cells.n (wrapped cells.n (edge_or_zero flux.now a)) p }
{
    match smoothing {
        None => take_off(flux, e),
        Some(mut s) => {
            fold(flux, &mut s.current);
            smooth(cells, &s.current, &mut s.filtered);
            take_off(&s.filtered, e);
        }
    }
}
