//! The limits of the scheme, and what each version of decks and dumps allows. They stand apart from the
//! definitions of the same numbers, so that no clause can follow a wrong one.

ghost use Rattle.std.specs.Prelude.{◌≡◌};
ghost use Rattle.pic_num.specs.Limits.{allowance_of};

/// The fewest cells of an axis.
pub const MIN_CELLS: u32 = 2;

/// The most cells of an axis.
pub const MAX_CELLS: u32 = 1 << 7;

/// The most cells of an axis in a deck or a dump of version 1.
pub const MAX_CELLS_1: u32 = 1 << 6;

/// The side of a cell has at least 2^8 sub-cells.
pub const MIN_BITS: u32 = 8;

/// The side of a cell has at most 2^14 sub-cells.
pub const MAX_BITS: u32 = 14;

/// The side of a cell of version 1 has 2^12 sub-cells.
pub const BITS_1: u32 = 12;

/// The greatest size of a multiplier's numerator.
pub const MAX_NUMERATOR: i32 = i32::MAX;

/// The greatest power of two in a multiplier's denominator.
pub const MAX_SHIFT: u32 = 62;

/// The most particles of a run.
pub const MAX_PARTICLES: u32 = 1 << 22;

/// The most particles of a deck or a dump of version 1.
pub const MAX_PARTICLES_1: u32 = 1 << 20;

/// The most species of a run.
pub const MAX_SPECIES: u32 = 1 << 4;

/// The most steps of a run, and from one frame to the next.
pub const MAX_STEPS: u32 = 1000000;

/// The most bytes of a species' name.
pub const MAX_LETTERS: usize = 1 << 5;

/// The least charge of a species.
pub const MIN_CHARGE: i32 = -(1 << 15);

/// The greatest charge of a species.
pub const MAX_CHARGE: i32 = (1 << 15) - 1;

/// The greatest mass of a species.
pub const MAX_MASS: u32 = 1 << 16;

/// The greatest size of a value of E and B.
pub const MAX_VALUE: u128 = 1 << 90;

/// The greatest size of a force value.
pub const MAX_FORCE: u128 = 1 << 44;

/// The greatest size of a velocity after half of the kick.
pub const MAX_SPEED: u128 = 1 << 40;

/// The greatest size of a turn.
pub const MAX_TURN: u128 = 1 << 24;

/// How many of its units a velocity of a sub-cell a step has.
pub const VELOCITY_UNIT: u32 = 1 << 12;

/// The greatest version of decks and dumps that is accepted.
pub const MAX_VERSION: u32 = 2;

/// The filter of the current: none, or the binomial one.
pub const MAX_FILTER: u32 = 1;

/// The most driven loops of a run.
pub const MAX_LOOPS: u32 = 1 << 4;

/// The most numbers of a loop's wave.
pub const MAX_WAVE: u32 = 1 << 6;

/// The greatest size of a number of a loop's wave.
pub const MAX_DRIVE: i64 = 1 << 60;

/// What a version of decks and dumps allows: the most cells of an axis, the most particles, the least
/// and the greatest power of two of sub-cells that a side has, the greatest number of a filter, and the
/// most driven loops.
#[derive(Clone, Copy, Debug, PartialEq, Eq)]
pub struct Allowance {
    pub cells: u32,
    pub particles: u32,
    pub least_bits: u32,
    pub greatest_bits: u32,
    pub filter: u32,
    pub loops: u32,
}

/// What a version allows: version 1 less than the scheme, version 2 all of it.
pub fn allowance_of(version: u32) -> Allowance
    ensures { result ≡ allowance_of version }
{
    if version == 1 {
        Allowance {
            cells: MAX_CELLS_1,
            particles: MAX_PARTICLES_1,
            least_bits: BITS_1,
            greatest_bits: BITS_1,
            filter: 0,
            loops: 0,
        }
    } else {
        Allowance {
            cells: MAX_CELLS,
            particles: MAX_PARTICLES,
            least_bits: MIN_BITS,
            greatest_bits: MAX_BITS,
            filter: MAX_FILTER,
            loops: MAX_LOOPS,
        }
    }
}
