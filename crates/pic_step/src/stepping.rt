//! One step of the scheme, by its phases.

ghost use Rattle.std.specs.Prelude.{◌≡◌, ◌<◌, ◌≤◌, None, Err, IfOk};
ghost use Rattle.pic_num.specs.Limits.{most_steps};
ghost use Rattle.pic_grid.specs.declared.stop.Phase.TheVariants.{Half1};
ghost use Rattle.pic_step.specs.Keeps.{Keeps};
ghost use Rattle.pic_step.specs.SerialRun.{Steps};
ghost use Rattle.pic_step.specs.SerialStep.{half_stop};
ghost use Rattle.pic_step.specs.declared.stepping.StepStop.TheVariants as step_stop;
ghost use Rattle.pic_crew.specs.Teams.{most_workers};

use crate::halving::{Halved, halve_b};
use crate::push_phase::push_phase;
use crate::state::State;
use pic_drive::raise_e;
use pic_gate::Gate;
use pic_grid::Stop;
use pic_num::{NoMemory, Workers};
use pic_team::Team;
use std::alloc::Global;
use std::thread::Threads;

/// What ends a run in a step: a stop of the scheme, or want of memory.
#[derive(Clone, Copy, Debug, PartialEq, Eq)]
pub enum StepStop {
    Stop(Stop),
    NoMemory,
}

impl From<Stop> for StepStop {
    ghost from_gives = { λ stop result. result ≡ step_stop.Stop stop };

    fn from(stop: Stop) -> StepStop {
        StepStop::Stop(stop)
    }
}

impl From<NoMemory> for StepStop {
    ghost from_gives = { λ _ result. result ≡ step_stop.NoMemory };

    fn from(_refused: NoMemory) -> StepStop {
        StepStop::NoMemory
    }
}

/// One step of the scheme: half a step of B, the push, another half step of B, a step of E, which the
/// loops drive by the numbers of their waves in this step. So many workers, 1 to 64, push the
/// particles, tile by tile and each on a thread of its own where one can be made. Each passes the gate
/// after each claim of a tile and each post of a parcel. Whatever the tiles, the workers and the gate,
/// the answer is that of the serial step: the state after it, or the stop of the first phase that has
/// one. The state after it has one step more, and the same cells, loops, multipliers, kinds and tiles,
/// and follows the same particles; it meets Gauss's law at every node, and the divergence of its B is
/// what it was in every cell.
///
/// # Errors
/// `StepStop::Stop` as the serial step has it. `StepStop::NoMemory` where memory is refused to the
/// board at which two or more workers work, behind the first half step of B. Nothing is handed back
/// then.
pub fn step<H: Threads + Sync, G: Gate + Sync>(
    rt: &H,
    alloc: Global,
    state: State,
    workers: u32,
    gate: &G,
) -> Result<State, StepStop>
    requires early { state.world.step < most_steps }
    requires some { 0 < workers }
    requires most { workers ≤ most_workers }
    ensures steps { Steps state.world result }
    ensures keeps { IfOk result (λ next. Keeps state.world next.world) }
    ensures map { IfOk result (λ next. next.map ≡ state.map) }
    ensures followed { IfOk result (λ next. next.followed ≡ state.followed) }
    ensures memory { result ≡ Err step_stop.NoMemory
        → (1 < workers) × (half_stop Half1 state.world ≡ None) }
{
    let State {
        step,
        loops,
        scales,
        mut e,
        b,
        plasma,
    } = state;
    let workers = Workers::of(workers);
    let team = Team { rt, gate, workers };
    let Halved {
        b,
        plasma,
        stop: late,
    } = halve_b(&team, &scales, &e, b, plasma)?;
    let pushed = push_phase(&team, alloc, &scales, &e, plasma)?;
    let (plasma, stop) = pushed;
    match stop {
        Some(stop) => return Err(StepStop::Stop(stop)),
        None => {}
    }
    match late {
        Some(stop) => return Err(StepStop::Stop(stop)),
        None => {}
    }
    raise_e(loops.as_slice(), step, &mut e);
    let (e, plasma) = plasma.advance_e(&team, &scales, &b, e);
    let e = match e {
        Ok(e) => e,
        Err(stop) => return Err(StepStop::Stop(stop)),
    };
    Ok(State {
        step: step + 1,
        loops,
        scales,
        e,
        b,
        plasma,
    })
}
