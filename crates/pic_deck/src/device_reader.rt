//! What drives the run of a deck and what watches it.

ghost use Rattle.std.specs.Prelude.{◌≤◌, IfOk};
ghost use Rattle.toml.specs.View.{table_view};
ghost use Rattle.pic_num.specs.Limits.{most_particles, allowance_of};
ghost use Rattle.pic_grid.specs.Loops.{AreLoops};
ghost use Rattle.pic_devices.specs.declared.devices.Devices.{Devices as DevicesView};
ghost use Rattle.pic_devices.specs.Probes.{AreProbes};
ghost use Rattle.pic_walk.specs.Walk.{WalksAs};
ghost use Rattle.pic_deck.specs.Keys.{devices};

use pic_devices::{Devices, optional_drive, optional_probes};
use pic_walk::{Terms, WalkStop};
use std::alloc::Global;
use toml::Table;

/// The loops and the probes of a run with so many particles: none in version 1.
pub(crate) fn read_devices(
    alloc: Global,
    table: &Table,
    terms: Terms,
    particles: usize,
) -> Result<Devices, WalkStop>
    requires { particles ≤ most_particles }
    ensures walks { WalksAs (λ (d : DevicesView). d)
        (devices terms particles (table_view table.now)) result }
    ensures loops { IfOk result (λ d. AreLoops terms.grid.n (allowance_of terms.version).loops
        d.loops) }
    ensures probes { IfOk result (λ d. AreProbes terms.grid.n particles d.probes) }
{
    if terms.version() == 1 {
        return Ok(Devices::none(alloc));
    }
    let loops = optional_drive(alloc, table, terms.cells())?;
    let probes = optional_probes(alloc, table, terms.cells(), particles as u32)?;
    Ok(Devices { loops, probes })
}
