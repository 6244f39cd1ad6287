//! The command `run`: the run of a deck, as a dump.

ghost use Rattle.std.specs.Prelude.{◌≡◌, ◌-◌, ◌<◌, ◌≤◌, [], IfOk};
ghost use Rattle.pic_crew.specs.Teams.{most_workers};
ghost use Rattle.pic_io.specs.Sinks.{sinks};
ghost use Rattle.pic_step.specs.Kept.{AreCut};
ghost use Rattle.pic_step.specs.Sound.{IsSound};
ghost use Rattle.pic_step.specs.Start.{begun};
ghost use Rattle.pic_run.specs.RunHeader.{header_of};
ghost use Rattle.pic_states.specs.Rooms.{HasShape};
ghost use Rattle.pic_report.specs.Ended.{ended_of};
ghost use Rattle.pic_states.specs.StatesOutcome.{dump_outcome};
ghost use Rattle.pic_report.specs.Leaves.{LeavesWhole};
ghost use Rattle.pic_report.specs.Finishes.{Finishes};
ghost use Rattle.pic_report.specs.Manner.{Performs};
ghost use Rattle.pic_run.specs.Run.{running};

use crate::run_header::header_of;
use pic_deck::Deck;
use pic_dump::{Header, put_header};
use pic_gate::Gate;
use pic_io::{Failed, Side, Sink, Source};
use pic_num::NoMemory;
use pic_open::{Opened, end_early, open};
use pic_report::{Cut, Ended};
use pic_states::{Output, Plan, Stage, Threading, stage_of, write_states};
use pic_step::Start;
use std::alloc::Global;
use std::thread::Threads;

/// Runs the deck that the source gives, on so many workers: header, due frames and end record on `out`,
/// the lines of frames and end on `report`.
pub fn run<H: Threads + Sync, S: Source, O: Sink, R: Sink, G: Gate + Sync>(
    threading: Threading<'_, H, G>,
    alloc: Global,
    source: &mut S,
    out: &mut O,
    report: &mut R,
    workers: u32,
) -> Result<Ended, Cut>
    requires some { 0 < workers }
    requires most { workers ≤ most_workers }
    ensures { Performs (running workers) (S.told source.old) (S.told source.new)
        (sinks (O.told out.old) (R.told report.old))
        (sinks (O.told out.new) (R.told report.new)) (ended_of result) }
{
    match open(alloc, source) {
        Ok(opened) => run_deck(threading, alloc, opened, out, report, workers),
        Err(stop) => end_early(report, stop),
    }
}

// Runs a deck. All memory that isn't a step's is taken before the header is put.
fn run_deck<H: Threads + Sync, O: Sink, R: Sink, G: Gate + Sync>(
    threading: Threading<'_, H, G>,
    alloc: Global,
    opened: Opened,
    out: &mut O,
    report: &mut R,
    workers: u32,
) -> Result<Ended, Cut>
    requires some { 0 < workers }
    requires most { workers ≤ most_workers }
    requires begins { (begun opened.start).step ≡ 0 }
    requires sound { IsSound (begun opened.start) }
    requires cut { AreCut opened.start.setup.map opened.start.e opened.start.b }
    ensures { Finishes (LeavesWhole workers)
        (dump_outcome (header_of opened.deck) (begun opened.start))
        (sinks (O.told out.old) (R.told report.old))
        (sinks (O.told out.new) (R.told report.new)) result }
{
    let Opened { deck, start } = opened;
    let ready = prepare(alloc, &deck, start)?;
    write_run(threading, alloc, out, report, ready, workers)
}

/// A run that has all its memory: the header of its dump, and its first state.
#[derive(Drop)]
struct Ready {
    header: Header,
    stage: Stage,
}

// Takes the memory of a run.
fn prepare(alloc: Global, deck: &Deck, start: Start) -> Result<Ready, NoMemory>
    requires sound { IsSound (begun start) }
    requires cut { AreCut start.setup.map start.e start.b }
    ensures header { IfOk result (λ ready. ready.header ≡ header_of deck.now) }
    ensures state { IfOk result (λ ready. ready.stage.state.world ≡ begun start) }
    ensures map { IfOk result (λ ready. ready.stage.state.map ≡ start.setup.map) }
    ensures followed { IfOk result (λ ready. ready.stage.state.followed ≡ []) }
    ensures room { IfOk result (λ ready. HasShape ready.stage.room ready.stage.state.world) }
{
    let header = header_of(alloc, deck)?;
    let stage = stage_of(alloc, start, &[])?;
    Ok(Ready { header, stage })
}

fn write_run<H: Threads + Sync, O: Sink, R: Sink, G: Gate + Sync>(
    threading: Threading<'_, H, G>,
    alloc: Global,
    out: &mut O,
    report: &mut R,
    ready: Ready,
    workers: u32,
) -> Result<Ended, Cut>
    requires some { 0 < workers }
    requires most { workers ≤ most_workers }
    requires begins { ready.stage.state.world.step ≡ 0 }
    requires room { HasShape ready.stage.room ready.stage.state.world }
    ensures { Finishes (LeavesWhole workers) (dump_outcome ready.header ready.stage.state.world)
        (sinks (O.told out.old) (R.told report.old))
        (sinks (O.told out.new) (R.told report.new)) result }
{
    let Ready { header, stage } = ready;
    match put_header(out, &header) {
        Ok(()) => {
            let plan = Plan {
                output: Output::Dump,
                steps: header.steps(),
                every: header.every(),
                workers,
            };
            write_states(threading, alloc, &plan, out, report, stage)
        }
        Err(Failed) => Err(Cut::Write(Side::Out)),
    }
}
