//! Nodes in chains.

use pic_chain::{Chain, Node};
use pic_num::{NoMemory, Particle};
use std::alloc::Global;

fn particle(id: u32) -> Particle {
    Particle {
        id,
        species: 1,
        x: [id, 2, 3],
        v: [-1, 0, 1],
    }
}

// particles 0, 1, .. below `count`, the last at the front
fn chain_of(alloc: Global, count: u32) -> Result<Chain, NoMemory> {
    let mut chain = Chain::new();
    for id in 0..count {
        chain.push(Node::boxed(alloc, particle(id))?);
    }
    Ok(chain)
}

#[test]
fn nodes_come_last_in_first_out(rt: HostRuntime) -> Result<(), NoMemory> {
    let mut chain = chain_of(rt.alloc(), 3)?;
    assert!(rt; !chain.is_empty());
    let mut walk = chain.iter();
    assert_eq!(rt; walk.next(), Some(particle(2)));
    assert_eq!(rt; walk.next(), Some(particle(1)));
    assert_eq!(rt; walk.next(), Some(particle(0)));
    assert_eq!(rt; walk.next(), None);
    let mut taken = chain.take();
    assert!(rt; chain.is_empty());
    assert!(rt; chain.pop().is_none());
    for id in [2, 1, 0] {
        let front = taken.pop().map(|node| node.particle());
        assert_eq!(rt; front, Some(particle(id)));
    }
    assert!(rt; taken.is_empty());
    Ok(())
}

#[test]
fn a_node_goes_from_chain_to_chain(rt: HostRuntime) -> Result<(), NoMemory> {
    let mut old = chain_of(rt.alloc(), 2)?;
    let mut new = Chain::new();
    let Some(mut node) = old.pop() else {
        return Ok(());
    };
    node.set([7, 8, 9], [4, -5, 6]);
    new.push(node);
    assert_eq!(rt; old.iter().next(), Some(particle(0)));
    let moved = Particle {
        id: 1,
        species: 1,
        x: [7, 8, 9],
        v: [4, -5, 6],
    };
    assert_eq!(rt; new.iter().next(), Some(moved));
    Ok(())
}

// the most particles of a run in one chain, which is dropped without a deep stack
#[test]
fn a_long_chain_is_dropped(rt: HostRuntime) -> Result<(), NoMemory> {
    let chain = chain_of(rt.alloc(), 4194304)?;
    assert_eq!(rt; chain.iter().next(), Some(particle(4194303)));
    drop(chain);
    Ok(())
}
