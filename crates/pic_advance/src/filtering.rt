//! The filter of the current over the blocks of a lattice, by workers.

ghost use Rattle.std.specs.Prelude.{◌≡◌, pos};
ghost use Rattle.std.specs.List.{All};
ghost use Rattle.pic_filter.specs.Smoothing.{smoothed_each, most_to_smooth, most_smoothed};
ghost use Rattle.pic_grid.specs.Lattice.{EachAtMost, field_of, value_at};
ghost use Rattle.pic_advance.specs.Blocks.{EachBlock, IsAmong, IsMade};

use crate::useful::useful;
use pic_block::Block;
use pic_filter::smooth;
use pic_grid::{Cells, Lattice};
use pic_team::{Team, Work, each_share};
use std::thread::Threads;

/// What is filtered.
#[derive(Clone, Copy)]
struct Smoothing<'a> {
    cells: Cells,
    from: &'a Lattice,
}

impl<'a> Work<Block, Block, ()> for Smoothing<'a> {
    ghost use Rattle.std.specs.Prelude.{◌≡◌};
    ghost use Rattle.std.specs.List.{All};
    ghost use Rattle.pic_filter.specs.Smoothing.{smoothed_each, most_to_smooth};
    ghost use Rattle.pic_grid.specs.Lattice.{EachAtMost, value_at};
    ghost use Rattle.pic_advance.specs.Blocks.{EachBlock, IsAmong, IsMade};

    ghost can = { λ s _ bs _. ((s.cells.n ≡ s.from.now.cells)
        × EachAtMost most_to_smooth s.from.now) × All (IsAmong s.from.now.cells) bs };

    ghost does = { λ s _ bs _ cs _ _. EachBlock
        (IsMade (smoothed_each s.from.now.cells (value_at s.from.now))) bs cs };

    ghost both = { λ _ _. tt };

    /// The filtered values of a lattice in blocks, one after another.
    fn work(&self, _first: usize, items: &mut [Block], _beside: &mut [Block]) {
        smooth_in_turn(self, items)
    }

    fn both(_front: (), _back: ())
        ensures { result ≡ tt }
    {}
}

/// The filtered values of a lattice in blocks, one after another.
fn smooth_in_turn(smoothing: &Smoothing, blocks: &mut [Block])
    requires cells { smoothing.now.cells.n ≡ smoothing.now.from.now.cells }
    requires among { All (IsAmong smoothing.now.from.now.cells) blocks.old }
    requires small { EachAtMost most_to_smooth smoothing.now.from.now }
    ensures { EachBlock (IsMade (smoothed_each smoothing.now.from.now.cells
        (value_at smoothing.now.from.now))) blocks.old blocks.new }
{
    for i in 0..blocks.len() {
        smooth(smoothing.cells, smoothing.from, &mut blocks[i]);
    }
}

/// Makes blocks 0.
#[derive(Clone, Copy)]
struct Clearing;

impl Work<Block, Block, ()> for Clearing {
    ghost use Rattle.std.specs.Prelude.{⊤, pos};
    ghost use Rattle.std.specs.List.{All};
    ghost use Rattle.pic_advance.specs.Blocks.{EachBlock, IsMade};

    ghost can = { λ _ _ bs _. ⊤ × All (λ _. ⊤) bs };

    ghost does = { λ _ _ bs _ cs _ _. EachBlock (IsMade (λ _ _. pos 0)) bs cs };

    ghost both = { λ _ _. tt };

    /// Makes blocks 0, one after another.
    fn work(&self, _first: usize, items: &mut [Block], _beside: &mut [Block]) {
        clear_in_turn(items)
    }

    fn both(_front: (), _back: ())
        ensures { result ≡ tt }
    {}
}

/// Makes blocks 0, one after another.
fn clear_in_turn(blocks: &mut [Block])
    ensures { EachBlock (IsMade (λ _ _. pos 0)) blocks.old blocks.new }
{
    for i in 0..blocks.len() {
        blocks[i].clear();
    }
}

/// The filtered values of a lattice, in one whose values don't matter, over its blocks, by the workers of
/// a team.
fn smooth_values<H: Threads + Sync, G>(team: &Team<H, G>, from: &Lattice, to: Lattice) -> Lattice
    requires cells { to.cells ≡ from.now.cells }
    requires small { EachAtMost most_to_smooth from.now }
    ensures { result ≡ field_of from.now.side from.now.cells to.parts
        (smoothed_each from.now.cells (value_at from.now)) }
{
    let cells = from.cells();
    let parts = to.parts();
    let mut blocks = to.into_blocks();
    let workers = useful(team.workers, cells, blocks.len());
    let smoothing = Smoothing { cells, from };
    each_share(team.rt, workers, &smoothing, &mut blocks, &mut []);
    Lattice::of_blocks(cells, parts, blocks)
}

/// Makes every value of a lattice 0, over its blocks, by the workers of a team.
pub(crate) fn clear_values<H: Threads + Sync, G>(team: &Team<H, G>, lattice: Lattice) -> Lattice
    ensures { result ≡ field_of lattice.side lattice.cells lattice.parts (λ _ _. pos 0) }
{
    let cells = lattice.cells();
    let parts = lattice.parts();
    let mut blocks = lattice.into_blocks();
    let workers = useful(team.workers, cells, blocks.len());
    each_share(team.rt, workers, &Clearing, &mut blocks, &mut []);
    Lattice::of_blocks(cells, parts, blocks)
}

/// The filtered current, in a lattice whose values don't matter, over its blocks, by the workers of a
/// team, each in a thread of its own where one can be made and pays; and the lattice of the current,
/// as one of zeros. No memory is taken.
pub fn filter_current<H: Threads + Sync, G>(
    team: &Team<H, G>,
    current: Lattice,
    to: Lattice,
) -> (Lattice, Lattice)
    requires cells { to.cells ≡ current.cells }
    requires small { EachAtMost most_to_smooth current }
    ensures filtered { result.0 ≡ field_of current.side current.cells to.parts
        (smoothed_each current.cells (value_at current)) }
    ensures small { EachAtMost most_smoothed result.0 }
    ensures cleared { result.1
        ≡ field_of current.side current.cells current.parts (λ _ _. pos 0) }
{
    let filtered = smooth_values(team, &current, to);
    (filtered, clear_values(team, current))
}
