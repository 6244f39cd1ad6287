//! Decks in pieces.

/// A text, as its pieces one after another.
pub type Pieces<'a> = &'a [&'a [u8]];

pub const GRID_2: &[u8] = b"version = 1\ngrid = { cells = [2, 2, 2], tiles = [1, 1, 1] }\n";

pub const GRID_4: &[u8] = b"version = 1\ngrid = { cells = [4, 4, 4], tiles = [2, 2, 2] }\n";

/// The same cells in version 2, with a side of 2^12 sub-cells as in version 1, and with one of 2^8.
pub const GRID_OF_12: &[u8] =
    b"version = 2\ngrid = { cells = [4, 4, 4], tiles = [2, 2, 2], sub = 12 }\n";

pub const GRID_OF_8: &[u8] =
    b"version = 2\ngrid = { cells = [4, 4, 4], tiles = [2, 2, 2], sub = 8 }\n";

pub const NO_STEP: &[u8] = b"run = { steps = 0, every = 1 }\n";

pub const ONE_STEP: &[u8] = b"run = { steps = 1, every = 1 }\n";

/// The same with the filter of the current.
pub const FILTERED_STEP: &[u8] = b"run = { steps = 1, every = 1, filter = 1 }\n";

/// Multipliers of light waves, and of charges whose fields act on nothing.
pub const WAVES: &[u8] =
    b"scale = { e_to_b = [1, 4], b_to_e = [1, 1], e_force = [1, 0], b_force = [1, 0] }\n";

pub const CHARGES: &[u8] =
    b"scale = { e_to_b = [0, 0], b_to_e = [0, 0], e_force = [1, 20], b_force = [0, 0] }\n";

/// Species, but for their points.
pub const ION: &[u8] = b"[[species]]\nname = \"ion\"\ncharge = 1\nmass = 1836\n\
    kick = [0, 0]\nturn = [0, 0]\npoints = ";

pub const ELECTRON: &[u8] = b"[[species]]\nname = \"electron\"\ncharge = -1\nmass = 1\n\
    kick = [0, 0]\nturn = [0, 0]\npoints = ";

pub const STILL: &[u8] = b"[[1024, 0, 0, 0, 0, 0]]\n";

pub const MOVING: &[u8] = b"[[1024, 0, 0, 8388608, 0, 0]]\n";

/// The same points where a side has 2^8 sub-cells.
pub const STILL_OF_8: &[u8] = b"[[64, 0, 0, 0, 0, 0]]\n";

pub const MOVING_OF_8: &[u8] = b"[[64, 0, 0, 524288, 0, 0]]\n";

/// An empty grid of 2 by 2 by 2 cells, and no step.
pub const EMPTY: Pieces<'static> = &[GRID_2, NO_STEP, WAVES];

/// An ion and an electron at one point; the electron moves half a cell.
pub const PAIR: Pieces<'static> = &[GRID_4, ONE_STEP, CHARGES, ION, STILL, ELECTRON, MOVING];

/// The same in version 2.
pub const PAIR_OF_12: Pieces<'static> = &[
    GRID_OF_12, ONE_STEP, CHARGES, ION, STILL, ELECTRON, MOVING,
];

/// The same with the filter of the current.
pub const FILTERED: Pieces<'static> = &[
    GRID_OF_12,
    FILTERED_STEP,
    CHARGES,
    ION,
    STILL,
    ELECTRON,
    MOVING,
];

/// The report of the run of the two charges, without the filter.
pub const PAIR_REPORT: &[u8] = b"frame 0 kinetic 70368744177664 electric 0 magnetic 0\n\
    frame 1 kinetic 70368744177664 electric 154618822656 magnetic 0\n\
    done 1\n";

/// The ion alone, with no field: its charge breaks Gauss's law.
pub const LONE: Pieces<'static> = &[GRID_4, ONE_STEP, CHARGES, ION, STILL];
