//! The law of ways. It is the contract of a function that does nothing.

ghost use Rattle.pic_ways.specs.Way.{WaysKeepGauss};

/// Where E meets Gauss's law for particles at the beginnings of their ways, E less the current of the
/// ways, which is filtered as the charge is, meets it for the particles at the ends: whatever their
/// ways and charges, on every grid of at least two cells on each axis, with each filter.
pub fn law_of_ways()
    ensures { WaysKeepGauss }
{}
