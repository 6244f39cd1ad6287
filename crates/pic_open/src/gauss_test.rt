//! The test of Gauss's law that a deck has to pass.

ghost use Rattle.std.specs.Prelude.{◌≡◌, None, IfOk};
ghost use Rattle.pic_load.specs.Loading.{AreLoaded};
ghost use Rattle.pic_step.specs.Kept.{AreCut};
ghost use Rattle.pic_step.specs.SerialStep.{e_of};
ghost use Rattle.pic_step.specs.Sound.{IsSafe, IsSound};
ghost use Rattle.pic_step.specs.Start.{begun};
ghost use Rattle.pic_open.specs.Starting.{displaced_start, state_break};

use pic_charge::{Break, ChargeRoom};
use pic_deck::Deck;
use pic_num::NoMemory;
use pic_step::Start;
use std::alloc::Global;

/// The least node where Gauss's law fails for what the deck's run begins with, its E and the charge
/// of its particles, or `None` where it holds. The memory that this takes is given back.
pub fn find_break(alloc: Global, deck: &Deck, start: &Start) -> Result<Option<Break>, NoMemory>
    requires start { begun start.now ≡ displaced_start deck.now start.now.particles.items }
    requires cut { AreCut start.now.setup.map start.now.e start.now.b }
    requires loaded { AreLoaded deck.now start.now.particles.items }
    requires safe { IsSafe deck.now.scales.e_force (e_of (begun start.now)) }
    ensures value { IfOk result (λ found. found ≡ state_break (begun start.now)) }
    ensures sound { IfOk result (λ found. found ≡ None → IsSound (begun start.now)) }
{
    let cells = deck.cells();
    let mut room = ChargeRoom::new(alloc, cells, start.setup.filter)?;
    let kinds = start.setup.kinds.as_slice();
    Ok(room.find_break(kinds, &start.particles, &start.e))
}
