//! The law of the least stop. It is the contract of a function that does nothing.

ghost use Rattle.pic_field.specs.LeastStop.{LeastStop};

/// What a field phase answers, said of its values alone. There is no stop exactly where no new
/// value in the box passes a bound. A stop is the answer exactly where it names the least place
/// whose value does (the axis first, then z, then y, then x), with the value where that is above
/// 2^90 in size, or else its force value, which is above 2^44. It holds in every phase, with every
/// multiplier, for all values on every box.
pub fn law_of_the_least_stop()
    ensures { LeastStop }
{}
