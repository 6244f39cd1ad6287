//! A species of a deck, and what particles it has.

ghost use Rattle.std.specs.Prelude.{◌≡◌, ◌^◌, ◌<◌};
ghost use Rattle.pic_num.specs.Space.{triple};
ghost use Rattle.pic_block.specs.Cells.{count_of};
ghost use Rattle.pic_deck.specs.Species.{species_at};

use pic_grid::Name;
use pic_num::{Kind, Listed};
use pic_walk::Points;

/// What particles a species has.
#[derive(Debug, Drop)]
pub enum Fill {
    /// These, one by one.
    Points(Points),
    /// One at each site of a lattice: the first site, the way from one site to the next and the number
    /// of sites on each axis, x fastest, and the velocity of all.
    Lattice {
        first: [u32; 3],
        gap: [u32; 3],
        count: [u32; 3],
        v: [i32; 3],
    },
    /// So many at random places: the generator by its seed and its stream, and the mean and the spread
    /// of the velocities on each axis.
    Random {
        count: u32,
        seed: u64,
        stream: u64,
        drift: [i32; 3],
        spread: [u32; 3],
    },
    /// One where each particle of the earlier species of this number stands, with velocities of its
    /// own.
    Pair {
        of: u32,
        seed: u64,
        stream: u64,
        drift: [i32; 3],
        spread: [u32; 3],
    },
    /// One beside each particle of the earlier species of this number: this way from where that one
    /// stands on each axis, in the periodic box, with the velocity of all.
    Displace {
        of: u32,
        by: [i32; 3],
        v: [i32; 3],
    },
}

fn count_of(count: [u32; 3]) -> u128
    ensures value { result ≡ count_of (triple count) }
    ensures size { result < 2 ^ 96 }
{
    let [x, y, z] = count;
    u128::from(x) * u128::from(y) * u128::from(z)
}

// how many particles the species of a number has
fn count_at(species: &[Species], number: usize) -> u32
    ensures { result ≡ (species_at species.now number).count }
{
    match species.get(number) {
        Some(one) => one.count,
        None => 0,
    }
}

impl Fill {
    ghost use Rattle.pic_deck.specs.Species.{filled_count};

    /// How many particles these are in a species after earlier ones.
    pub fn count(&self, earlier: &[Species]) -> u128
        ensures value { result ≡ filled_count earlier.now self.now }
        ensures size { result < 2 ^ 96 }
    {
        match self {
            Fill::Points(points) => points.as_slice().len() as u128,
            Fill::Lattice { count, .. } => count_of(*count),
            Fill::Random { count, .. } => u128::from(*count),
            Fill::Pair { of, .. } | Fill::Displace { of, .. } => {
                u128::from(count_at(earlier, *of as usize))
            }
        }
    }
}

/// A species: its name, what its particles have in common, how many they are, and which.
#[derive(Debug, Drop)]
pub struct Species {
    pub name: Name,
    pub kind: Kind,
    pub count: u32,
    pub fill: Fill,
}

/// The species of a deck, as a list.
pub type SpeciesList = Listed<Species>;
