//! A boxed particle, and what stands behind it in its chain.

ghost use Rattle.std.specs.Prelude.{◌≡◌, IfOk};
ghost use Rattle.pic_chain.specs.Links.{home_of, particle_of};

use pic_num::{NoMemory, Particle};
use std::alloc::Global;

/// A node of a chain: it has one particle, and knows where it was made, which lists of particles don't
/// show.
#[derive(Drop)]
pub struct Node {
    pub(crate) particle: Particle,
    pub(crate) next: Option<Box<Node>>,
    pub(crate) home: usize,
}

impl Node {
    /// A node for this particle, in no chain yet. It is the one call on chains that takes memory.
    ///
    /// # Errors
    /// `NoMemory` where its memory is refused.
    pub fn boxed(alloc: Global, particle: Particle) -> Result<Box<Node>, NoMemory>
        ensures { IfOk result (λ node. particle_of node.value ≡ particle) }
    {
        let node = Box::new(
            alloc,
            Node {
                particle,
                next: None,
                home: 0,
            },
        )?;
        Ok(node)
    }

    /// The node's particle.
    pub fn particle(&self) -> Particle
        ensures { result ≡ particle_of self.now }
    {
        self.particle
    }

    /// Puts another particle in the place of its own.
    pub fn put(&mut self, particle: Particle)
        ensures particle { particle_of self.new ≡ particle }
        ensures home { home_of self.new ≡ home_of self.old }
    {
        self.particle = particle;
    }

    /// Its number in the order in which the run's nodes were made, so far as it was told.
    pub fn home(&self) -> usize
        ensures { result ≡ home_of self.now }
    {
        self.home
    }

    /// Tells it its number in the order in which nodes were made.
    pub fn set_home(&mut self, home: usize)
        ensures home { home_of self.new ≡ home }
        ensures particle { particle_of self.new ≡ particle_of self.old }
    {
        self.home = home;
    }

    /// Puts the particle at `x`, in sub-cells, with the velocity `v`, in 1/4096 sub-cell a step.
    /// Its identity and its species stay.
    pub fn set(&mut self, x: [u32; 3], v: [i32; 3])
        ensures { particle_of self.new ≡ record (particle_of self.old) { x = x; v = v } }
    {
        self.particle.x = x;
        self.particle.v = v;
    }
}
