//! A thousand random orders of the events of a push.

use crate::alike::{are_alike, particle_in};
use crate::draws::Draws;
use crate::opening::begin;
use pic_core::Core;
use pic_gate::Open;
use pic_num::NoMemory;
use pic_tile::Tile;
use std::alloc::Global;

// lets events come as they are drawn until all tiles are shut; one not allowed changes nothing
fn run_drawn(core: &mut Core, draws: &mut Draws) {
    for _ in 0..100000 {
        if core.finished() {
            return;
        }
        let _refused = core.apply(draws.event()).is_err();
    }
}

// the tiles after the events in a random order, or none where they don't finish
fn end_drawn(alloc: Global, order: u64) -> Result<Vec<Tile>, NoMemory> {
    let mut core = begin(alloc)?;
    let mut draws = Draws { state: order };
    run_drawn(&mut core, &mut draws);
    if !core.finished() {
        return Ok(Vec::new(alloc));
    }
    let (_, tiles) = core.close();
    Ok(tiles)
}

// the tiles when one worker has let all events come
fn end_in_turn(alloc: Global) -> Result<Vec<Tile>, NoMemory> {
    let mut core = begin(alloc)?;
    core.run_in_turn(&Open);
    let (_, tiles) = core.close();
    Ok(tiles)
}

#[test]
fn a_thousand_random_orders_end_as_one_worker_does(rt: HostRuntime) -> Result<(), NoMemory> {
    let wanted = end_in_turn(rt.alloc())?;
    let corner = wanted.get(7).and_then(|tile| particle_in(tile, 0));
    assert_eq!(rt; corner.map(|particle| particle.x), Some([16284; 3]));
    for order in 0..1000 {
        let tiles = end_drawn(rt.alloc(), order)?;
        assert!(rt; are_alike(&tiles, &wanted), "order {order}");
    }
    Ok(())
}
