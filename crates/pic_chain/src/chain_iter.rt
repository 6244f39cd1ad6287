//! The particles of a chain in turn.

ghost use Rattle.std.specs.Iterator.{YieldsFirst, item_count};
ghost use Rattle.pic_chain.specs.Left.{left_of};

use crate::node::Node;
use pic_num::Particle;

/// Gives the particles of a chain, the front first.
#[derive(Drop)]
pub struct ChainIter<'a> {
    pub(crate) next: &'a Option<Box<Node>>,
}

impl<'a> Iterator for ChainIter<'a> {
    type Item = Particle;

    ghost next_gives = { YieldsFirst left_of };

    ghost remaining = { item_count left_of };

    fn next(&mut self) -> Option<Particle> {
        let node = self.next.as_ref()?;
        self.next = &node.next;
        Some(node.particle)
    }
}
