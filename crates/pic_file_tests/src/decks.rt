//! What the tests share: decks, a change in one, and its reading.

use pic_deck::{Deck, DeckFault, Refusal, read_deck};
use std::process::Abort;

/// The smallest deck: no field, no species and no step.
pub const SMALLEST: &str = "version = 1
[grid]
cells = [2, 2, 2]
tiles = [1, 1, 1]
[run]
steps = 0
every = 1
[scale]
e_to_b = [1, 4]
b_to_e = [1, 1]
e_force = [1, 0]
b_force = [1, 0]
";

/// A face of B.
pub const WAVE: &str = "version = 1
[grid]
cells = [4, 4, 4]
tiles = [2, 2, 2]
[run]
steps = 1
every = 1
[scale]
e_to_b = [0, 0]
b_to_e = [1, 1]
e_force = [1, 0]
b_force = [1, 0]
[field]
faces = [[2, 0, 0, 0, 8]]
";

/// An ion and an electron at one point.
pub const PAIR: &str = "version = 1
[grid]
cells = [4, 4, 4]
tiles = [2, 2, 2]
[run]
steps = 1
every = 1
[scale]
e_to_b = [0, 0]
b_to_e = [0, 0]
e_force = [1, 20]
b_force = [0, 0]
[[species]]
name = \"ion\"
charge = 1
mass = 1836
kick = [0, 0]
turn = [0, 0]
points = [[1024, 0, 0, 0, 0, 0]]
[[species]]
name = \"electron\"
charge = -1
mass = 1
kick = [0, 0]
turn = [0, 0]
points = [[1024, 0, 0, 8388608, 0, 0]]
";

/// A particle on a grid of coarse cells, of version 2.
pub const COARSE: &str = "version = 2
[grid]
cells = [4, 4, 4]
tiles = [2, 2, 2]
sub = 8
[run]
steps = 1
every = 1
[scale]
e_to_b = [0, 0]
b_to_e = [0, 0]
e_force = [1, 20]
b_force = [0, 0]
[[species]]
name = \"neutral\"
charge = 0
mass = 1836
kick = [0, 0]
turn = [0, 0]
points = [[64, 0, 0, 524288, 0, 0]]
";

/// Its source of particles.
pub const COARSE_POINTS: &str = "points = [[64, 0, 0, 524288, 0, 0]]";

/// Two uncharged particles in a uniform field.
pub const FAST: &str = "version = 1
[grid]
cells = [4, 4, 4]
tiles = [2, 2, 2]
[run]
steps = 5
every = 1
[scale]
e_to_b = [0, 0]
b_to_e = [0, 0]
e_force = [1, 0]
b_force = [0, 0]
[field]
e = [1, 0, 0]
[[species]]
name = \"neutral\"
charge = 0
mass = 1
kick = [8388608, 0]
turn = [0, 0]
points = [[8192, 0, 0, 16777216, 0, 0], [0, 0, 0, 16777216, 0, 0]]
";

/// A deck, with another text in place of the first `old`.
pub fn changed(rt: &(impl AllocGlobal + Abort), deck: &str, old: &str, new: &str) -> String {
    let (before, after) = deck.split_once(old).expect(rt, "a part of the deck");
    format!(in rt.alloc(); "{before}{new}{after}").expect(rt, "memory")
}

/// The deck of a text.
pub fn deck_of(rt: &(impl AllocGlobal + Abort), text: &str) -> Deck {
    read_deck(rt.alloc(), text.as_bytes()).expect(rt, "a deck")
}

/// A deck in all its parts.
pub fn shown(rt: &(impl AllocGlobal + Abort), deck: &Deck) -> String {
    format!(in rt.alloc(); "{deck:?}").expect(rt, "memory")
}

// the name of a fault, its path, and a limit's three numbers
fn parts(fault: &DeckFault) -> (&str, &str, [i128; 3]) {
    match fault {
        DeckFault::NoMemory => ("memory", "", [0; 3]),
        DeckFault::Refused(Refusal::Text) => ("text", "", [0; 3]),
        DeckFault::Refused(Refusal::Unknown { path }) => ("unknown", path.as_str(), [0; 3]),
        DeckFault::Refused(Refusal::Missing { path }) => ("missing", path.as_str(), [0; 3]),
        DeckFault::Refused(Refusal::Kind { path }) => ("kind", path.as_str(), [0; 3]),
        DeckFault::Refused(
            Refusal::Limit {
                path,
                value,
                low,
                high,
            },
        ) => ("limit", path.as_str(), [*value, *low, *high]),
        DeckFault::Refused(Refusal::Name { path }) => ("name", path.as_str(), [0; 3]),
    }
}

/// A fault in words: its name, its path, and the three numbers of a limit.
pub fn words(rt: &(impl AllocGlobal + Abort), fault: &DeckFault) -> String {
    let (name, path, numbers) = parts(fault);
    format!(in rt.alloc(); "{name} {path} {numbers:?}").expect(rt, "memory")
}

/// A text is this.
pub fn same(rt: &impl Abort, found: &str, wanted: &str) {
    assert_eq!(rt; found, wanted);
}
