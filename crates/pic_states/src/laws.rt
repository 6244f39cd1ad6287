//! Laws of runs. Each is the contract of a function that does nothing.

ghost use Rattle.pic_states.specs.Frames.{DueStatesJoin, EndsJoin};
ghost use Rattle.pic_states.specs.EachGauss.{EveryStateMeetsGauss};

/// Every state of a serial run that begins in a sound state meets Gauss's law exactly, at every node:
/// so does each frame of a dump, which is that of such a state.
#[tactic(auto, using(crate::proofs::StateLaws::each_gauss))]
pub fn every_state_meets_gauss()
    ensures { EveryStateMeetsGauss }
{}

/// A run goes on from a state that it came to as one that begins there: the states whose frames are
/// due are those up to that state and those that lead on from it, and it ends as one that begins
/// there, at its last step or at a stop.
#[tactic(auto, using(crate::proofs::FrameLaws::states_joined, crate::proofs::FrameLaws::end_joined))]
pub fn runs_go_on()
    ensures states { DueStatesJoin }
    ensures end { EndsJoin }
{}
