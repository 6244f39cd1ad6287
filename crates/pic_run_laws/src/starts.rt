//! Laws of how runs begin. Each is the contract of a function that does nothing.

ghost use Rattle.pic_run_laws.specs.NeverGauss.{CouplesAreNeverGauss};
ghost use Rattle.pic_run_laws.specs.NoField.{NoFieldIsNoE};
ghost use Rattle.pic_run_laws.specs.Beginnings.{PlainDecksBeginAsSaid, DecksAreLoaded, WaysStayNear};

/// Where the source gives a deck that says no E and whose species come in disjoint couples, one
/// named and one displaced from it, no command that takes the deck answers that it doesn't meet
/// Gauss's law.
#[tactic(auto, using(crate::proofs::NeverGauss::couples_are_never_gauss))]
pub fn couples_are_never_gauss()
    ensures { CouplesAreNeverGauss }
{}

/// A deck whose document has no key `field` says no E.
#[tactic(auto, using(crate::proofs::NoField::no_field_is_no_e))]
pub fn no_field_is_no_e()
    ensures { NoFieldIsNoE }
{}

/// A run of a deck in which no species is displaced begins with the fields that the deck says and the
/// particles that are loaded.
#[tactic(auto, using(crate::proofs::Beginnings::plain_decks))]
pub fn plain_decks_begin_as_said()
    ensures { PlainDecksBeginAsSaid }
{}

/// The particles of each deck that its type keeps are within their limits.
#[tactic(auto, using(crate::proofs::Beginnings::decks_loaded))]
pub fn decks_are_loaded()
    ensures { DecksAreLoaded }
{}

/// A way leaves no flux beyond the three edges along each axis whose flux its current adds up.
#[tactic(auto, using(crate::proofs::Beginnings::ways_near))]
pub fn ways_stay_near()
    ensures { WaysStayNear }
{}
