//! A step of E over the blocks of a lattice, by workers.

ghost use Rattle.std.specs.Prelude.{◌≡◌, IfSome};
ghost use Rattle.std.specs.List.{All};
ghost use Rattle.std.specs.Option.{option_copied};
ghost use Rattle.pic_num.specs.Limits.{most_value};
ghost use Rattle.pic_grid.specs.declared.stop.Phase.TheVariants.{Electric};
ghost use Rattle.pic_grid.specs.Lattice.{EachAtMost};
ghost use Rattle.pic_field.specs.FieldPhases.{stop_of_full, no_drive, most_raised};
ghost use Rattle.pic_advance.specs.Blocks.{EachBlock};
ghost use Rattle.pic_advance.specs.Driven.{CanBeDriven, CanDrive, IsCurrent, IsDriven, current_in, driven_stop, full_all};
ghost use Rattle.pic_advance.specs.Phases.{Advances};

use crate::stops::earlier;
use crate::useful::useful;
use pic_block::Block;
use pic_field::{Rooms, free_e_in, full_e_in};
use pic_grid::{Lattice, Phase, Stop};
use pic_num::Scales;
use pic_team::{Team, Work, each_share};
use std::thread::Threads;

/// What a step of E is made from. The current is a lattice of the same cells, cut as it may be.
#[derive(Clone, Copy)]
struct FullStep<'a> {
    scales: &'a Scales,
    b: &'a Lattice,
    current: Option<&'a Lattice>,
}

impl<'a> Work<Block, Block, Option<Stop>> for FullStep<'a> {
    ghost use Rattle.std.specs.Prelude.{◌≡◌};
    ghost use Rattle.std.specs.List.{All};
    ghost use Rattle.std.specs.Option.{option_copied};
    ghost use Rattle.pic_advance.specs.Blocks.{EachBlock, earlier};
    ghost use Rattle.pic_advance.specs.Driven.{CanBeDriven, CanDrive, IsDriven, current_in, driven_stop};

    ghost can = { λ s _ es _.
        CanDrive s.b.now (option_copied s.current) × All (CanBeDriven s.b.now.cells) es };

    ghost does = { λ s _ es _ fs _ stop. let j = current_in (option_copied s.current) in
        EachBlock (IsDriven s.scales.now s.b.now j) es fs
        × (stop ≡ driven_stop s.scales.now s.b.now j es) };

    ghost both = { earlier };

    /// A step of E in blocks, one after another. The answer is their least stop.
    fn work(&self, _first: usize, items: &mut [Block], _beside: &mut [Block]) -> Option<Stop> {
        full_in_turn(self, items)
    }

    fn both(front: Option<Stop>, back: Option<Stop>) -> Option<Stop>
        ensures { result ≡ earlier front back }
    {
        earlier(front, back)
    }
}

/// A step of E in a block. The answer is its stop.
fn full_block(step: &FullStep, e: &mut Block, rooms: &mut Rooms) -> Option<Stop>
    requires can { CanBeDriven step.now.b.now.cells e.old }
    requires drive { CanDrive step.now.b.now (option_copied step.now.current) }
    ensures driven { IsDriven step.now.scales.now step.now.b.now
        (current_in (option_copied step.now.current)) e.old e.new }
    ensures stop { result ≡ stop_of_full step.now.scales.now step.now.b.now no_drive
        (current_in (option_copied step.now.current)) e.old }
{
    match step.current {
        Some(current) => full_e_in(step.scales, step.b, current, e, rooms).err(),
        None => free_e_in(step.scales, step.b, e, rooms).err(),
    }
}

/// A step of E in blocks, one after another. The answer is their least stop.
fn full_in_turn(step: &FullStep, blocks: &mut [Block]) -> Option<Stop>
    requires can { All (CanBeDriven step.now.b.now.cells) blocks.old }
    requires drive { CanDrive step.now.b.now (option_copied step.now.current) }
    ensures blocks { EachBlock (IsDriven step.now.scales.now step.now.b.now
        (current_in (option_copied step.now.current))) blocks.old blocks.new }
    ensures stop { result ≡ driven_stop step.now.scales.now step.now.b.now
        (current_in (option_copied step.now.current)) blocks.old }
{
    let mut rooms = Rooms::new();
    let mut least = None;
    for i in 0..blocks.len() {
        let stop = full_block(step, &mut blocks[i], &mut rooms);
        least = earlier(least, stop);
    }
    least
}

/// A step of E, from B and the current, if there is one, over the blocks of E, by the workers of a
/// team, each in a thread of its own where one can be made and pays. No memory is taken. The lattices
/// may be cut as they will. The values of E may be those that the curl of a drive was added to.
///
/// # Errors
/// The stop of the least place (the axis first, then z, y, x) whose new value is above 2^90 in
/// size, or else its force value above 2^44.
pub fn advance_e<H: Threads + Sync, G>(
    team: &Team<H, G>,
    scales: &Scales,
    b: &Lattice,
    current: Option<&Lattice>,
    e: Lattice,
) -> Result<Lattice, Stop>
    requires cells { e.cells ≡ b.now.cells }
    requires current { IfSome (option_copied current) (IsCurrent b.now.cells) }
    requires b_small { EachAtMost most_value b.now }
    requires e_small { EachAtMost most_raised e }
    ensures { Advances Phase.Electric scales.now.e_force b.now.side b.now.cells e.parts
        (full_all scales.now b.now (current_in (option_copied current.entry)) e) result }
{
    let cells = b.cells();
    let parts = e.parts();
    let mut blocks = e.into_blocks();
    let workers = useful(team.workers, cells, blocks.len());
    let step = FullStep { scales, b, current };
    match each_share(team.rt, workers, &step, &mut blocks, &mut []) {
        None => Ok(Lattice::of_blocks(cells, parts, blocks)),
        Some(stop) => Err(stop),
    }
}
