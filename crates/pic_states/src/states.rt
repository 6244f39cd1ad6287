//! The loop over the states of a run.

ghost use Rattle.std.specs.Prelude.{◌≡◌, ◌-◌, ◌<◌, ◌≤◌, [], All, IfOk, length};
ghost use Rattle.pic_num.specs.Limits.{most_steps};
ghost use Rattle.pic_crew.specs.Teams.{most_workers};
ghost use Rattle.pic_io.specs.Sinks.{sinks};
ghost use Rattle.pic_step.specs.Kept.{AreCut};
ghost use Rattle.pic_step.specs.Sound.{IsSound};
ghost use Rattle.pic_step.specs.Start.{begun};
ghost use Rattle.pic_report.specs.Outcome.{answer_of};
ghost use Rattle.pic_report.specs.Leaves.{LeavesWhole};
ghost use Rattle.pic_report.specs.Finishes.{Finishes};
ghost use Rattle.pic_states.specs.Frames.{frames_of, frames_behind, end_of_run};
ghost use Rattle.pic_states.specs.Rooms.{CanLook, CanPut, HasShape};
ghost use Rattle.pic_states.specs.Runs.{WritesFrames, WritesStates};
ghost use Rattle.pic_states.specs.StatesOutcome.{shown_outcome, states_outcome};

use crate::frame_writer::{put_last, write_due, write_frame};
use crate::output::{Output, Plan};
use crate::sorting::sort_due;
use crate::threading::Threading;
use pic_gate::Gate;
use pic_grid::{EndMark, Snapshot};
use pic_io::Sink;
use pic_num::NoMemory;
use pic_report::{Cut, Ended};
use pic_step::{Start, State, StepStop, step};
use std::alloc::Global;
use std::thread::Threads;

/// A state, and room for its frames.
#[derive(Drop)]
pub struct Stage {
    pub state: State,
    pub room: Snapshot,
}

/// The state that a run begins with, which follows the particles with these identities, and room for
/// a frame.
pub fn stage_of(alloc: Global, start: Start, ids: &[u32]) -> Result<Stage, NoMemory>
    requires sound { IsSound (begun start) }
    requires cut { AreCut start.setup.map start.e start.b }
    requires ids { All (λ id. id < length start.particles.items) ids.now }
    ensures state { IfOk result (λ stage. stage.state.world ≡ begun start) }
    ensures map { IfOk result (λ stage. stage.state.map ≡ start.setup.map) }
    ensures followed { IfOk result (λ stage. stage.state.followed ≡ ids.now) }
    ensures room { IfOk result (λ stage. HasShape stage.room stage.state.world) }
{
    let state = State::begin_following(alloc, start, ids)?;
    let room = Snapshot::new(alloc, state.cells(), state.count())?;
    Ok(Stage { state, room })
}

/// Runs what begins so and shows its states on `out`, with no head. All memory that isn't a step's is taken
/// before the first line.
pub fn show<H: Threads + Sync, O: Sink, R: Sink, G: Gate + Sync>(
    threading: Threading<'_, H, G>,
    alloc: Global,
    plan: &Plan,
    start: Start,
    out: &mut O,
    report: &mut R,
) -> Result<Ended, Cut>
    requires steps { plan.now.steps ≤ most_steps }
    requires every { 1 ≤ plan.now.every }
    requires some { 0 < plan.now.workers }
    requires most { plan.now.workers ≤ most_workers }
    requires begins { (begun start).step ≡ 0 }
    requires sound { IsSound (begun start) }
    requires cut { AreCut start.setup.map start.e start.b }
    requires probes { CanPut plan.now.output (begun start) }
    ensures { Finishes (LeavesWhole plan.now.workers)
        (shown_outcome plan.now.output plan.now.steps plan.now.every (begun start))
        (sinks (O.told out.old) (R.told report.old))
        (sinks (O.told out.new) (R.told report.new)) result }
{
    let stage = stage_for(alloc, start, &plan.output)?;
    write_states(threading, alloc, plan, out, report, stage)
}

// The state that begins so, with what an output needs of every state, and room that has it.
fn stage_for(alloc: Global, start: Start, output: &Output) -> Result<Stage, NoMemory>
    requires sound { IsSound (begun start) }
    requires cut { AreCut start.setup.map start.e start.b }
    requires probes { CanPut output.now (begun start) }
    ensures state { IfOk result (λ stage. stage.state.world ≡ begun start) }
    ensures map { IfOk result (λ stage. stage.state.map ≡ start.setup.map) }
    ensures room { IfOk result (λ stage. HasShape stage.room stage.state.world) }
    ensures look { IfOk result (λ stage. CanLook output.now stage.room stage.state.followed) }
{
    let mut stage = stage_of(alloc, start, output.followed())?;
    stage.state.fill(&mut stage.room);
    Ok(stage)
}

/// The due frames of a run from its first state, and then its end.
pub fn write_states<H: Threads + Sync, O: Sink, R: Sink, G: Gate + Sync>(
    threading: Threading<'_, H, G>,
    alloc: Global,
    plan: &Plan,
    out: &mut O,
    report: &mut R,
    stage: Stage,
) -> Result<Ended, Cut>
    requires steps { plan.now.steps ≤ most_steps }
    requires every { 1 ≤ plan.now.every }
    requires some { 0 < plan.now.workers }
    requires most { plan.now.workers ≤ most_workers }
    requires begins { stage.state.world.step ≡ 0 }
    requires room { HasShape stage.room stage.state.world }
    requires probes { CanPut plan.now.output stage.state.world }
    requires look { CanLook plan.now.output stage.room stage.state.followed }
    ensures { WritesStates 1 plan.now.workers
        (states_outcome plan.now.output []
        (frames_of plan.now.output plan.now.steps plan.now.every stage.state.world)
        (end_of_run plan.now.steps stage.state.world))
        (sinks (O.told out.old) (R.told report.old))
        (sinks (O.told out.new) (R.told report.new)) result }
{
    let Stage { state, mut room } = stage;
    write_frame(&plan.output, out, report, &state, &mut room)?;
    write_further(threading, alloc, plan, out, report, Stage { state, room })
}

/// The due frames of the states behind this one of a run, and then its end.
pub fn write_further<H: Threads + Sync, O: Sink, R: Sink, G: Gate + Sync>(
    threading: Threading<'_, H, G>,
    alloc: Global,
    plan: &Plan,
    out: &mut O,
    report: &mut R,
    stage: Stage,
) -> Result<Ended, Cut>
    requires steps { plan.now.steps ≤ most_steps }
    requires every { 1 ≤ plan.now.every }
    requires some { 0 < plan.now.workers }
    requires most { plan.now.workers ≤ most_workers }
    requires behind { stage.state.world.step ≤ plan.now.steps }
    requires room { HasShape stage.room stage.state.world }
    requires probes { CanPut plan.now.output stage.state.world }
    requires look { CanLook plan.now.output stage.room stage.state.followed }
    ensures { WritesStates 0 plan.now.workers
        (states_outcome plan.now.output []
        (frames_behind plan.now.output plan.now.steps plan.now.every stage.state.world)
        (end_of_run (plan.now.steps - stage.state.world.step) stage.state.world))
        (sinks (O.told out.old) (R.told report.old))
        (sinks (O.told out.new) (R.told report.new)) result }
{
    let end = write_frames(threading, alloc, plan, out, report, stage)?;
    put_last(&plan.output, out, report, end)?;
    Ok(answer_of(end))
}

// The due frames of the states behind this one, up to the last step, or to the one that stops.
fn write_frames<H: Threads + Sync, O: Sink, R: Sink, G: Gate + Sync>(
    threading: Threading<'_, H, G>,
    alloc: Global,
    plan: &Plan,
    out: &mut O,
    report: &mut R,
    stage: Stage,
) -> Result<EndMark, Cut>
    requires steps { plan.now.steps ≤ most_steps }
    requires every { 1 ≤ plan.now.every }
    requires some { 0 < plan.now.workers }
    requires most { plan.now.workers ≤ most_workers }
    requires behind { stage.state.world.step ≤ plan.now.steps }
    requires room { HasShape stage.room stage.state.world }
    requires probes { CanPut plan.now.output stage.state.world }
    requires look { CanLook plan.now.output stage.room stage.state.followed }
    ensures { WritesFrames plan.now.workers
        (frames_behind plan.now.output plan.now.steps plan.now.every stage.state.world)
        (end_of_run (plan.now.steps - stage.state.world.step) stage.state.world)
        (sinks (O.told out.old) (R.told report.old))
        (sinks (O.told out.new) (R.told report.new)) result }
{
    let Threading { rt, gate } = threading;
    let Stage {
        mut state,
        mut room,
    } = stage;
    let first = state.step_number();
    for done in 0..plan.steps - first {
        let number = first + done + 1;
        state = match step(rt, alloc, state, plan.workers, gate) {
            Ok(next) => next,
            Err(StepStop::Stop(stop)) => {
                return Ok(EndMark::Stopped { step: number, stop });
            }
            Err(StepStop::NoMemory) => return Err(Cut::NoMemory),
        };
        write_due(plan, out, report, &state, &mut room)?;
        sort_due(&plan.output, &mut state, &mut room);
    }
    Ok(EndMark::Done { steps: plan.steps })
}

// The answer of a run that ends so.
fn answer_of(end: EndMark) -> Ended
    ensures { result ≡ answer_of end }
{
    match end {
        EndMark::Done { steps } => Ended::Done { steps },
        EndMark::Stopped { step, stop } => Ended::Stopped { step, stop },
    }
}
