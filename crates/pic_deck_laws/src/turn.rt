//! The law of walks of two parts.

ghost use Rattle.pic_deck_laws.specs.Tests.{TestsGoInTurn};

/// Where a walk makes some tests, and a further walk from its value makes others, the two together make
/// the tests of the first and then those of the second: the fault of the first test that fails is the
/// refusal, and where none fails all is accepted.
pub fn tests_go_in_turn<A, B>()
    ensures { TestsGoInTurn A B }
{}
