//! The force values of a field over the blocks of a lattice, by workers.

ghost use Rattle.std.specs.Prelude.{◌≡◌};
ghost use Rattle.std.specs.List.{All};
ghost use Rattle.pic_num.specs.Limits.{most_value};
ghost use Rattle.pic_grid.specs.Gather.{force_of};
ghost use Rattle.pic_grid.specs.Lattice.{EachAtMost, field_of, value_at};
ghost use Rattle.pic_advance.specs.Blocks.{EachBlock, IsAmong, IsMade};

use crate::useful::useful;
use pic_block::Block;
use pic_field::force;
use pic_grid::Lattice;
use pic_num::Mult;
use pic_team::{Team, Work, each_share};
use std::thread::Threads;

/// What force values are made from.
#[derive(Clone, Copy)]
struct Forcing<'a> {
    mult: Mult,
    from: &'a Lattice,
}

impl<'a> Work<Block, Block, ()> for Forcing<'a> {
    ghost use Rattle.std.specs.Prelude.{◌≡◌};
    ghost use Rattle.std.specs.List.{All};
    ghost use Rattle.pic_num.specs.Limits.{most_value};
    ghost use Rattle.pic_grid.specs.Gather.{force_of};
    ghost use Rattle.pic_grid.specs.Lattice.{EachAtMost, value_at};
    ghost use Rattle.pic_advance.specs.Blocks.{EachBlock, IsAmong, IsMade};

    ghost can = { λ f _ bs _.
        EachAtMost most_value f.from.now × All (IsAmong f.from.now.cells) bs };

    ghost does = { λ f _ bs _ cs _ _. EachBlock (IsMade (force_of f.mult (value_at f.from.now))) bs cs };

    ghost both = { λ _ _. tt };

    /// The force values of a field in blocks, one after another.
    fn work(&self, _first: usize, items: &mut [Block], _beside: &mut [Block]) {
        force_in_turn(self, items)
    }

    fn both(_front: (), _back: ())
        ensures { result ≡ tt }
    {}
}

/// The force values of a field in a block, which are measured for the gather.
fn force_block(forcing: &Forcing, block: &mut Block)
    requires among { IsAmong forcing.now.from.now.cells block.old }
    requires small { EachAtMost most_value forcing.now.from.now }
    ensures { IsMade (force_of forcing.now.mult (value_at forcing.now.from.now)) block.old block.new }
{
    force(forcing.mult, forcing.from, block);
    block.measure();
}

/// The force values of a field in blocks, one after another.
fn force_in_turn(forcing: &Forcing, blocks: &mut [Block])
    requires among { All (IsAmong forcing.now.from.now.cells) blocks.old }
    requires small { EachAtMost most_value forcing.now.from.now }
    ensures { EachBlock (IsMade (force_of forcing.now.mult (value_at forcing.now.from.now)))
        blocks.old blocks.new }
{
    for i in 0..blocks.len() {
        force_block(forcing, &mut blocks[i]);
    }
}

/// The force values of a field, in a lattice whose values don't matter, over its blocks, by the workers
/// of a team, each in a thread of its own where one can be made and pays: each value of the field
/// times the multiplier, rounded once. No memory is taken.
pub fn force_values<H: Threads + Sync, G>(
    team: &Team<H, G>,
    mult: Mult,
    from: &Lattice,
    to: Lattice,
) -> Lattice
    requires cells { to.cells ≡ from.now.cells }
    requires small { EachAtMost most_value from.now }
    ensures { result
        ≡ field_of from.now.side from.now.cells to.parts (force_of mult (value_at from.now)) }
{
    let cells = from.cells();
    let parts = to.parts();
    let mut blocks = to.into_blocks();
    let workers = useful(team.workers, cells, blocks.len());
    each_share(
        team.rt,
        workers,
        &Forcing { mult, from },
        &mut blocks,
        &mut [],
    );
    Lattice::of_blocks(cells, parts, blocks)
}
