//! What the serial step keeps, how steps add up, what stops a push, and how far its flux reaches.
//! Each is the contract of a function that does nothing.

ghost use Rattle.pic_num.specs.Velocity.{PushKeepsVelocities};
ghost use Rattle.pic_step.specs.Keeps.{EveryStepKeeps};
ghost use Rattle.pic_grid.specs.LeastHalt.{LeastHalt};
ghost use Rattle.pic_step.specs.Reach.{ThreeImagesAreAll};
ghost use Rattle.pic_step.specs.SerialRun.{StepsAddUp, StepsAreCounted, EndsStay};

/// The serial step of a state that meets Gauss's law meets it at every node, and the divergence of B
/// is what it was in every cell, exactly.
pub fn law_of_the_step()
    ensures { EveryStepKeeps }
{}

/// Steps add up: after m + n of them a run stands where one stands that begins in the state after m
/// and takes n, be it at a state or at a stop. Each counts, and a run that has stopped stays so.
pub fn law_of_the_run()
    ensures add { StepsAddUp }
    ensures counted { StepsAreCounted }
    ensures stay { EndsStay }
{}

/// No path from the box passes an edge beyond three images on each axis. So the current of the periodic
/// grid, which adds up these images, adds up all edges that wrap to one.
pub fn three_images_are_all()
    ensures { ThreeImagesAreAll }
{}

/// There is no stop of the push phase exactly where no particle halts, and a stop is the answer exactly
/// where it is that of the least identity that halts: of all particles whose identities are 0, 1, ..
/// in order.
pub fn law_of_the_least_halt()
    ensures { LeastHalt }
{}

/// A push that doesn't halt leaves a velocity that leads at most a cell far: with S sub-cells a cell it
/// lies in -(4096 S + 2048)..=4096 S + 2047 on each axis.
pub fn law_of_velocities()
    ensures { PushKeepsVelocities }
{}
