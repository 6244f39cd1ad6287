//! The command `probe`: the run of a deck, as what its probes see.

ghost use Rattle.std.specs.Prelude.{◌≡◌, ◌<◌, ◌≤◌, IfOk};
ghost use Rattle.pic_crew.specs.Teams.{most_workers};
ghost use Rattle.pic_io.specs.Sinks.{sinks};
ghost use Rattle.pic_step.specs.Kept.{AreCut};
ghost use Rattle.pic_step.specs.Sound.{IsSound};
ghost use Rattle.pic_step.specs.Start.{begun};
ghost use Rattle.pic_report.specs.Ended.{ended_of};
ghost use Rattle.pic_states.specs.declared.output.Output.TheVariants as put;
ghost use Rattle.pic_states.specs.StatesOutcome.{shown_outcome};
ghost use Rattle.pic_report.specs.Leaves.{LeavesWhole};
ghost use Rattle.pic_report.specs.Finishes.{Finishes};
ghost use Rattle.pic_report.specs.Manner.{Performs};
ghost use Rattle.pic_run.specs.Probe.{probing};
ghost use Rattle.pic_states.specs.Rooms.{CanPut};

use pic_devices::{Ids, Places, Probes};
use pic_gate::Gate;
use pic_io::{Sink, Source};
use pic_num::NoMemory;
use pic_open::{Opened, end_early, open};
use pic_report::{Cut, Ended};
use pic_states::{Output, Plan, Threading, show};
use std::alloc::Global;
use std::thread::Threads;

/// Runs the deck that the source gives, on so many workers: what its probes see of each state goes to
/// `out`, a line of each, and then the line of its end. No dump is written.
pub fn probe<H: Threads + Sync, S: Source, O: Sink, R: Sink, G: Gate + Sync>(
    threading: Threading<'_, H, G>,
    alloc: Global,
    source: &mut S,
    out: &mut O,
    report: &mut R,
    workers: u32,
) -> Result<Ended, Cut>
    requires some { 0 < workers }
    requires most { workers ≤ most_workers }
    ensures { Performs (probing workers) (S.told source.old) (S.told source.new)
        (sinks (O.told out.old) (R.told report.old))
        (sinks (O.told out.new) (R.told report.new)) (ended_of result) }
{
    match open(alloc, source) {
        Ok(opened) => watch_deck(threading, alloc, opened, out, report, workers),
        Err(stop) => end_early(report, stop),
    }
}

// Runs a deck and shows what its probes see of each state.
fn watch_deck<H: Threads + Sync, O: Sink, R: Sink, G: Gate + Sync>(
    threading: Threading<'_, H, G>,
    alloc: Global,
    opened: Opened,
    out: &mut O,
    report: &mut R,
    workers: u32,
) -> Result<Ended, Cut>
    requires begins { (begun opened.start).step ≡ 0 }
    requires sound { IsSound (begun opened.start) }
    requires cut { AreCut opened.start.setup.map opened.start.e opened.start.b }
    requires probes { CanPut (put.Probe opened.deck.probes) (begun opened.start) }
    requires some { 0 < workers }
    requires most { workers ≤ most_workers }
    ensures { Finishes (LeavesWhole workers) (shown_outcome (put.Probe opened.deck.probes)
        opened.deck.steps 1 (begun opened.start))
        (sinks (O.told out.old) (R.told report.old))
        (sinks (O.told out.new) (R.told report.new)) result }
{
    let Opened { deck, start } = opened;
    let plan = Plan {
        output: Output::Probe(copy_of(alloc, deck.probes())?),
        steps: deck.steps(),
        every: 1,
        workers,
    };
    show(threading, alloc, &plan, start, out, report)
}

// The same probes once more.
fn copy_of(alloc: Global, probes: &Probes) -> Result<Probes, NoMemory>
    ensures { IfOk result (λ copy. copy ≡ probes.now) }
{
    Ok(Probes {
        places: Places::from_vec(Vec::from_slice(alloc, probes.places.as_slice())?),
        ids: Ids::from_vec(Vec::from_slice(alloc, probes.ids.as_slice())?),
    })
}
