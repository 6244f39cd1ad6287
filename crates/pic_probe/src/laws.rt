//! A law of the lines that probes put, as the contract of a function that does nothing.

ghost use Rattle.pic_probe.specs.Columns.{LinesHaveColumns};

/// The words between the spaces of a state's line are its step, then the value of each place, and then
/// the position and the velocity of each identity's particle, whatever their numbers are.
pub fn lines_have_columns()
    ensures { LinesHaveColumns }
{}
