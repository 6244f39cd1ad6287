//! Both half steps of B of a step over the blocks of a lattice, and the force values between them, by
//! workers.

ghost use Rattle.std.specs.Prelude.{◌≡◌, None};
ghost use Rattle.pic_num.specs.Limits.{most_value};
ghost use Rattle.pic_grid.specs.declared.stop.Phase.TheVariants.{Half1};
ghost use Rattle.pic_grid.specs.Lattice.{EachAtMost};
ghost use Rattle.pic_field.specs.FieldPhases.{stop_of_half, stop_of_second};
ghost use Rattle.pic_advance.specs.Halves.{CanHalve, AreHalves, AreHalved, HalfSteps};
ghost use Rattle.pic_advance.specs.Pairs.{AllPairs};

use crate::stops::earlier;
use crate::useful::useful;
use pic_block::Block;
use pic_field::{Rooms, both_halves_in};
use pic_grid::{Lattice, Stop};
use pic_num::Scales;
use pic_team::{Team, Work, each_share};
use std::thread::Threads;

/// The stop of the first half step, and that of the second, which is known where there is no first.
type Stops = (Option<Stop>, Option<Stop>);

/// What both half steps leave: B after them, the force values between them, and what stops the second
/// one, if anything does. B is of no matter then.
#[derive(Drop)]
pub struct Halves {
    pub b: Lattice,
    pub force: Lattice,
    pub stop: Option<Stop>,
}

/// What both half steps of B are made from, and whether particles feel the force values between them,
/// which are measured then.
#[derive(Clone, Copy)]
struct BothHalves<'a> {
    scales: &'a Scales,
    e: &'a Lattice,
    felt: bool,
}

impl<'a> Work<Block, Block, Stops> for BothHalves<'a> {
    ghost use Rattle.std.specs.Prelude.{◌≡◌};
    ghost use Rattle.pic_num.specs.Limits.{most_value};
    ghost use Rattle.pic_grid.specs.Lattice.{EachAtMost};
    ghost use Rattle.pic_advance.specs.Blocks.{earlier};
    ghost use Rattle.pic_advance.specs.Halves.{CanHalve, AreHalved};
    ghost use Rattle.pic_advance.specs.Pairs.{AllPairs};

    ghost can = { λ s _ bs fs.
        EachAtMost most_value s.e.now × AllPairs (CanHalve s.e.now.cells) bs fs };

    ghost does = { λ s _ bs fs cs gs stops. AreHalved s.scales.now s.e.now bs fs cs gs stops };

    ghost both = { λ p q. (earlier p.0 q.0, earlier p.1 q.1) };

    /// Both half steps of B in blocks, one after another. The answer is their least stops.
    fn work(&self, _first: usize, items: &mut [Block], beside: &mut [Block]) -> Stops {
        halves_in_turn(self, items, beside)
    }

    fn both(front: Stops, back: Stops) -> Stops
        ensures { result ≡ (earlier front.0 back.0, earlier front.1 back.1) }
    {
        (earlier(front.0, back.0), earlier(front.1, back.1))
    }
}

/// Both half steps of B in a block, with the force values between them in the one beside it.
fn halves_of_block(step: &BothHalves, b: &mut Block, force: &mut Block, rooms: &mut Rooms) -> Stops
    requires can { CanHalve step.now.e.now.cells b.old force.old }
    requires e_small { EachAtMost most_value step.now.e.now }
    ensures halves { AreHalves step.now.scales.now step.now.e.now b.old force.old b.new force.new }
    ensures first { result.0 ≡ stop_of_half Half1 step.now.scales.now step.now.e.now b.old }
    ensures second { result.0 ≡ None
        → result.1 ≡ stop_of_second step.now.scales.now step.now.e.now b.old }
{
    let stops = match both_halves_in(step.scales, step.e, b, force, rooms) {
        Ok(second) => (None, second),
        Err(first) => (Some(first), None),
    };
    if step.felt {
        force.measure();
    }
    stops
}

/// Both half steps of B in blocks, one after another. The answer is their least stops.
fn halves_in_turn(step: &BothHalves, blocks: &mut [Block], force: &mut [Block]) -> Stops
    requires can { AllPairs (CanHalve step.now.e.now.cells) blocks.old force.old }
    requires e_small { EachAtMost most_value step.now.e.now }
    ensures { AreHalved step.now.scales.now step.now.e.now blocks.old force.old blocks.new
        force.new result }
{
    let mut rooms = Rooms::new();
    let mut first = None;
    let mut second = None;
    for i in 0..blocks.len() {
        let stops = halves_of_block(step, &mut blocks[i], &mut force[i], &mut rooms);
        first = earlier(first, stops.0);
        second = earlier(second, stops.1);
    }
    (first, second)
}

/// Both half steps of B of a step, between which E stays, over the blocks of B, by the workers of a
/// team, each in a thread of its own where one can be made and pays; and the force values of B between
/// the two, in a lattice that is cut as B is, whatever it held; where they are felt they are measured, for
/// the gather. No memory is taken.
///
/// # Errors
/// The first half step's stop: that of the least place (the axis first, then z, y, x) whose value
/// between the two is above 2^90 in size, or else its force value above 2^44.
pub fn advance_b<H: Threads + Sync, G>(
    team: &Team<H, G>,
    scales: &Scales,
    e: &Lattice,
    b: Lattice,
    force: Lattice,
    felt: bool,
) -> Result<Halves, Stop>
    requires cells { b.cells ≡ e.now.cells }
    requires force_cells { force.cells ≡ e.now.cells }
    requires parts { force.parts ≡ b.parts }
    requires e_small { EachAtMost most_value e.now }
    requires b_small { EachAtMost most_value b }
    ensures { HalfSteps scales.now e.now b result }
{
    let cells = e.cells();
    let parts = b.parts();
    let mut blocks = b.into_blocks();
    let mut beside = force.into_blocks();
    let workers = useful(team.workers, cells, blocks.len());
    let step = BothHalves { scales, e, felt };
    let (first, stop) = each_share(team.rt, workers, &step, &mut blocks, &mut beside);
    match first {
        None => Ok(Halves {
            b: Lattice::of_blocks(cells, parts, blocks),
            force: Lattice::of_blocks(cells, parts, beside),
            stop,
        }),
        Some(stop) => Err(stop),
    }
}
