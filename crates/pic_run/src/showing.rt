//! The command `demo`: the run of the deck that a number makes, as lines alone.

ghost use Rattle.std.specs.Prelude.{◌≡◌, ◌<◌, ◌≤◌};
ghost use Rattle.pic_crew.specs.Teams.{most_workers};
ghost use Rattle.pic_io.specs.Told.{Told};
ghost use Rattle.pic_io.specs.Sinks.{sinks};
ghost use Rattle.pic_demo.specs.Demo.{demo_deck};
ghost use Rattle.pic_step.specs.Kept.{AreCut};
ghost use Rattle.pic_step.specs.Sound.{IsSound};
ghost use Rattle.pic_step.specs.Start.{begun};
ghost use Rattle.pic_report.specs.Ended.{ended_of};
ghost use Rattle.pic_states.specs.declared.output.Output.TheVariants as put;
ghost use Rattle.pic_states.specs.StatesOutcome.{shown_outcome};
ghost use Rattle.pic_open.specs.Opened.{Tests};
ghost use Rattle.pic_report.specs.Leaves.{LeavesWhole};
ghost use Rattle.pic_report.specs.Finishes.{Finishes};
ghost use Rattle.pic_report.specs.Manner.{Performs};
ghost use Rattle.pic_run.specs.Demo.{demonstrating};

use pic_demo::deck_of;
use pic_gate::Gate;
use pic_io::Sink;
use pic_open::{Opened, StageStop, end_early, load_and_test};
use pic_report::{Cut, Ended};
use pic_states::{Output, Plan, Threading, show};
use std::alloc::Global;
use std::thread::Threads;

/// Runs the demonstration of a seed, on so many workers: the lines of its due frames and of its end
/// go to `out`, and no dump is written.
pub fn demo<H: Threads + Sync, O: Sink, R: Sink, G: Gate + Sync>(
    threading: Threading<'_, H, G>,
    alloc: Global,
    seed: u32,
    out: &mut O,
    report: &mut R,
    workers: u32,
) -> Result<Ended, Cut>
    requires some { 0 < workers }
    requires most { workers ≤ most_workers }
    ensures { (source : Told) → Performs (demonstrating seed workers) source source
        (sinks (O.told out.old) (R.told report.old))
        (sinks (O.told out.new) (R.told report.new)) (ended_of result) }
{
    match open_demo(alloc, seed) {
        Ok(opened) => show_deck(threading, alloc, opened, out, report, workers),
        Err(stop) => end_early(report, stop),
    }
}

// The demonstration's deck, through the stages that any deck passes behind its reading.
fn open_demo(alloc: Global, seed: u32) -> Result<Opened, StageStop>
    ensures { Tests (demo_deck seed) result }
{
    let deck = deck_of(alloc, seed)?;
    load_and_test(alloc, deck)
}

// Runs a deck and shows its lines.
fn show_deck<H: Threads + Sync, O: Sink, R: Sink, G: Gate + Sync>(
    threading: Threading<'_, H, G>,
    alloc: Global,
    opened: Opened,
    out: &mut O,
    report: &mut R,
    workers: u32,
) -> Result<Ended, Cut>
    requires begins { (begun opened.start).step ≡ 0 }
    requires sound { IsSound (begun opened.start) }
    requires cut { AreCut opened.start.setup.map opened.start.e opened.start.b }
    requires some { 0 < workers }
    requires most { workers ≤ most_workers }
    ensures { Finishes (LeavesWhole workers)
        (shown_outcome put.Lines opened.deck.steps opened.deck.every (begun opened.start))
        (sinks (O.told out.old) (R.told report.old))
        (sinks (O.told out.new) (R.told report.new)) result }
{
    let Opened { deck, start } = opened;
    let plan = Plan {
        output: Output::Lines,
        steps: deck.steps(),
        every: deck.every(),
        workers,
    };
    show(threading, alloc, &plan, start, out, report)
}
