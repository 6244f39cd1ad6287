//! A list of particles in boxed nodes.

ghost use Rattle.std.specs.Prelude.{◌≡◌, [], ◌∷◌, ◌↔◌, IsTrue, MatchOption};
ghost use Rattle.pic_chain.specs.Links.{particle_of};
ghost use Rattle.pic_chain.specs.Left.{left_of};

use crate::chain_iter::ChainIter;
use crate::node::Node;
use std::marker::Model;
use std::mem;

/// Some boxed particles, which contracts see as the list of them. No call on it takes memory.
pub struct Chain {
    head: Option<Box<Node>>,
}

impl Model for Chain {
    ghost use Rattle.std.specs.Prelude.{List};
    ghost use Rattle.pic_num.specs.declared.motion.Particle.{Particle};

    ghost Value = { List Particle };

    ghost use Rattle.pic_chain.specs.Links.{linked};

    ghost view = { λ chain. linked chain.head };
}

impl Drop for Chain {
    // A loop, so that a long chain needs no deep stack.
    fn drop(self) {
        let Chain { mut head } = self;
        while let Some(node) = head {
            let Node { next, .. } = Box::into_inner(node);
            head = next;
        }
    }
}

impl Chain {
    /// A chain of no particles.
    pub fn new() -> Chain
        ensures { result ≡ [] }
    {
        Chain { head: None }
    }

    /// Puts the node at the front.
    pub fn push(&mut self, node: Box<Node>)
        ensures { self.new ≡ particle_of node.value ∷ self.old }
    {
        let mut node = node;
        let rest = self.head.take();
        let behind = mem::replace(&mut node.next, rest);
        drop(Chain { head: behind });
        self.head = Some(node);
    }

    /// Takes the node at the front, or answers None where there is none.
    pub fn pop(&mut self) -> Option<Box<Node>>
        ensures { MatchOption result
            ((self.old ≡ []) × (self.new ≡ []))
            (λ node. self.old ≡ particle_of node.value ∷ self.new) }
    {
        let mut node = self.head.take()?;
        self.head = node.next.take();
        Some(node)
    }

    /// The whole list, of which this chain keeps nothing.
    pub fn take(&mut self) -> Chain
        ensures taken { result ≡ self.old }
        ensures left { self.new ≡ [] }
    {
        Chain {
            head: self.head.take(),
        }
    }

    /// Whether it has no particles.
    #[tactic(auto, using(crate::proofs::EmptyLaws::never_empty))]
    pub fn is_empty(&self) -> bool
        ensures { IsTrue result ↔ (self.now ≡ []) }
    {
        self.head.is_none()
    }

    /// Its particles, the front first.
    pub fn iter(&self) -> ChainIter<'_>
        ensures { left_of result ≡ self.now }
    {
        ChainIter { next: &self.head }
    }
}
