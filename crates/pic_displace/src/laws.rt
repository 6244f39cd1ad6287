//! The laws of the displaced start. Each is the contract of a function that does nothing.

ghost use Rattle.pic_displace.specs.Couples.{CouplesMeetGauss};
ghost use Rattle.pic_displace.specs.Displace.{DisplacedStartKeepsGauss};

/// Where a deck's own E meets Gauss's law for its particles with every displaced one at the place of
/// the one from which it is displaced, the E of the displaced start meets it for the particles as they
/// are loaded. So a start that is neutral at every node before species are displaced stays lawful.
pub fn law_of_displaced_start()
    ensures { DisplacedStartKeepsGauss }
{}

/// Where a deck says no E and its species come in disjoint couples, one named and one displaced from
/// it, the E of the displaced start meets Gauss's law for the particles as they are loaded: before the
/// displaced ones have gone their ways the charges of each couple cancel at every node.
pub fn law_of_couples()
    ensures { CouplesMeetGauss }
{}
