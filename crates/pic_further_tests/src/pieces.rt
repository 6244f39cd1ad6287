//! What tests of decks in pieces share.

/// The pieces of a deck's text, one after another.
pub type Pieces<'a> = &'a [&'a str];

/// The end of a deck that is refused, and its refusal: its name, its path, and the three numbers of a
/// limit.
pub struct Case(pub &'static str, pub &'static str);

/// The front of some decks, and each one's end.
pub struct Table(pub Pieces<'static>, pub &'static [Case]);

pub const VERSION_1: &str =
    "version = 1\ngrid = { cells = [4, 4, 4], tiles = [2, 2, 2] }\nrun = { steps = 0, every = 1 }\n";

pub const VERSION_2: &str = "version = 2\n\
    grid = { cells = [4, 4, 4], tiles = [2, 2, 2], sub = 12 }\nrun = { steps = 0, every = 1 }\n";

/// Multipliers of charges whose fields act on nothing.
pub const SCALE: &str =
    "scale = { e_to_b = [0, 0], b_to_e = [0, 0], e_force = [1, 20], b_force = [0, 0] }\n";

/// An ion, but for the source of its particles.
pub const ION: &str =
    "[[species]]\nname = \"ion\"\ncharge = 1\nmass = 1836\nkick = [0, 0]\nturn = [0, 0]\n";

/// An electron, but for the source of its particles.
pub const ELECTRON: &str =
    "[[species]]\nname = \"electron\"\ncharge = -1\nmass = 1\nkick = [0, 0]\nturn = [0, 0]\n";

/// A quarter of a cell along x, at rest and at half a cell a step.
pub const STILL: &str = "points = [[1024, 0, 0, 0, 0, 0]]\n";

pub const MOVING: &str = "points = [[1024, 0, 0, 8388608, 0, 0]]\n";
