//! Laws of the definitions of the scheme, of decks and of dumps. Each is the contract of a function
//! that does nothing.

ghost use Rattle.pic_grid.specs.Differences.{CurlOfEHasNoDivergence, CurlOfBHasNoDivergence};
ghost use Rattle.pic_grid.specs.Gather.{ConstantIsGathered};
ghost use Rattle.pic_grid.specs.Hat.{HatsAddUp, WeightsAddUp};
ghost use Rattle.pic_laws.specs.FirstHalt.{LawOfTheFirstHalt};
ghost use Rattle.pic_laws.specs.LeastStrong.{LeastStrong};
ghost use Rattle.pic_laws.specs.ParticlesOfSpecies.{ParticlesAreThoseOfTheirSpecies};
ghost use Rattle.pic_laws.specs.SpeciesOfIdentity.{EachIdentityHasOneSpecies};

/// The divergence of a curl of E is 0 in every cell, so a field phase keeps the divergence of B.
pub fn curl_of_e_has_no_divergence()
    ensures { CurlOfEHasNoDivergence }
{}

/// The divergence of a curl of B is 0 at every node, so the curl keeps the divergence of E.
pub fn curl_of_b_has_no_divergence()
    ensures { CurlOfBHasNoDivergence }
{}

/// On an axis of at least two cells the weights of a point for all nodes add up to a cell's side.
pub fn hats_add_up()
    ensures { HatsAddUp }
{}

/// The weights of a point for all nodes of a grid add up to the cube of a cell's side, so a charge
/// is shared whole.
pub fn weights_add_up()
    ensures { WeightsAddUp }
{}

/// A component that is the same everywhere is gathered as it is, at every point.
pub fn constant_is_gathered()
    ensures { ConstantIsGathered }
{}

/// The species that a reader of dumps finds for an identity is one that there is, and the identity
/// is one of its particles', and of no other's: those of the first species come first, then those
/// of the next, and so on.
pub fn each_identity_has_one_species()
    ensures { EachIdentityHasOneSpecies }
{}

/// The particles that a deck begins with are those of its species, and no others. At the place of
/// each identity stands the particle of its species and of its index there: that point of the list,
/// that site of the lattice, one drawn after the words of the earlier ones, one that stands where the
/// particle of its index of the paired species does, or one moved by its way from where that of the
/// named species stands.
pub fn particles_are_those_of_their_species()
    ensures { ParticlesAreThoseOfTheirSpecies }
{}

/// Of a field that a deck begins with no force value is found to be too large exactly where none
/// is, and one is found exactly where it is that of the least place, by axis, z, y and x, which has
/// one too large.
pub fn law_of_the_least_strong_force()
    ensures { LeastStrong }
{}

/// A push is halted by the first of its three tests that fails: the velocity behind half the kick
/// against the greatest speed, then the turn against the greatest turn, then the move against the
/// side of a cell. It halts exactly where a component is above its limit in size, and names that
/// test, the first axis on which it fails, and the component there. It gives its new velocity and
/// move exactly where no component of the three is above its limit.
pub fn law_of_the_first_halt()
    ensures { LawOfTheFirstHalt }
{}
