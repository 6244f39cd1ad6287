//! The particles of a run, sorted in memory from time to time.

ghost use Rattle.std.specs.Prelude.{◌≡◌};
ghost use Rattle.pic_states.specs.Rooms.{CanLook, HasShape};

use crate::output::Output;
use pic_grid::Snapshot;
use pic_step::State;

/// After how many steps the particles are sorted in memory once more. It takes about a sixth of a step of
/// one worker; in the steps between, the faster ones leave the cells in whose order they lie.
const STEPS_BETWEEN: u32 = 32;

/// Sorts the particles of a state in memory, where that is due. The state stays as it is. What the room
/// held is lost then; its shape stays, and so does what an output needs of it.
pub(crate) fn sort_due(output: &Output, state: &mut State, room: &mut Snapshot)
    requires room { HasShape room.old state.old.world }
    requires look { CanLook output.now room.old state.old.followed }
    ensures state { state.new ≡ state.old }
    ensures room { HasShape room.new state.old.world }
    ensures look { CanLook output.now room.new state.old.followed }
{
    if state.step_number() % STEPS_BETWEEN != 0 {
        return;
    }
    state.sort(room);
    match output {
        Output::Dump => {}
        Output::Lines => {}
        Output::Probe(_) => state.fill(room),
    }
}
