//! One state: fields and particles.

ghost use Rattle.std.specs.Prelude.{◌≡◌, ℕ, ℤ, pos, ◌*◌, [], ◌∷◌, replicate, IfOk};
ghost use Rattle.pic_block.specs.Cells.{count_of};

use crate::cells::Cells;
use crate::lattice::Lattice;
use pic_num::{NoMemory, Particle};
use std::alloc::Global;

/// One state: the fields and the particles, in the order of their identities. E and positions are
/// those of a step, B and velocities half a step before.
#[derive(Drop)]
pub struct Snapshot {
    pub e: Lattice,
    pub b: Lattice,
    pub particles: Vec<Particle>,
}

impl Snapshot {
    /// Fields of zeros, each in one part, and as many particles at rest in the corner of the grid,
    /// with the identity and species 0.
    pub fn new(alloc: Global, cells: Cells, particles: u32) -> Result<Snapshot, NoMemory>
        ensures e { IfOk result (λ s. s.e ≡ record {
          cells = cells.n;
          side = cells.side;
          parts = record { x = 1; y = 1; z = 1 };
          values =
              replicate (3 * count_of cells.n) (pos 0);
        }) }
        ensures b { IfOk result (λ s. s.b ≡ s.e) }
        ensures particles { IfOk result (λ s. s.particles.items
            ≡ replicate particles (record {
              id = 0;
              species = 0;
              x = 0 ∷ 0 ∷ 0 ∷ [];
              v = pos 0 ∷ pos 0 ∷ pos 0 ∷ [];
            })) }
    {
        let none = Particle {
            id: 0,
            species: 0,
            x: [0; 3],
            v: [0; 3],
        };
        let e = Lattice::new(alloc, cells, [1; 3])?;
        let b = Lattice::new(alloc, cells, [1; 3])?;
        let particles = vec![in alloc; none; particles as usize]?;
        Ok(Snapshot { e, b, particles })
    }
}
