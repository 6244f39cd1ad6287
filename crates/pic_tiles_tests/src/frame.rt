//! What a frame has, and what stays in a run.

ghost use Rattle.std.specs.Prelude.{◌≡◌, IfOk};
ghost use Rattle.pic_grid.specs.Species.{IsKind};
ghost use Rattle.pic_tile.specs.Frame.{IsForceField};

use pic_grid::{Cells, Lattice, Loops};
use pic_num::{Axis, Kind, Mult, NoMemory, Scales, Sub};
use pic_tile::{Frame, Kinds, Setup, TileMap};
use std::alloc::Global;

// a lattice of force values on these cells
#[tactic(auto, using(pic_grid::proofs::SmallLaws::each_zeros))]
fn forces(alloc: Global, cells: Cells) -> Result<Lattice, NoMemory>
    ensures force { IfOk result (IsForceField cells) }
    ensures parts { IfOk result (λ f. f.parts ≡ record { x = 1; y = 1; z = 1 }) }
{
    let [_, _, _] = cells.numbers();
    Lattice::new(alloc, cells, [1; 3])
}

#[test]
fn a_frame_has_what_it_was_made_of(rt: HostRuntime) -> Result<(), NoMemory> {
    let cells = Cells::new([4, 4, 4], Sub::of_bits(8));
    let map = TileMap::new(cells, [2, 1, 1]);
    let kinds = Kinds::from_vec(Vec::new(rt.alloc()));
    let force_e = forces(rt.alloc(), cells)?;
    let force_b = forces(rt.alloc(), cells)?;
    let frame = Frame::new(map, kinds, force_e, force_b);
    assert_eq!(rt; frame.cells(), cells);
    assert_eq!(rt; frame.map().count(), 2);
    assert!(rt; frame.kinds().is_empty());
    assert_eq!(rt; frame.force_e().at(Axis::X, [1, 2, 3]), 0);
    assert_eq!(rt; frame.force_b().at(Axis::X, [1, 2, 3]), 0);
    let (kinds, _, _) = frame.into_parts();
    assert!(rt; kinds.as_slice().is_empty());
    Ok(())
}

/// What stays in a run of electrons, in two tiles.
#[tactic(auto, using(crate::proofs::SmallMapLaws::one_kind))]
fn setup_of(alloc: Global, electron: Kind) -> Result<Setup, NoMemory>
    requires { IsKind electron }
{
    let none = Mult::new(0, 0);
    let cells = Cells::new([4, 4, 4], Sub::of_bits(8));
    Ok(Setup {
        map: TileMap::new(cells, [2, 1, 1]),
        filter: 0,
        loops: Loops::from_vec(Vec::new(alloc)),
        scales: Scales {
            e_to_b: none,
            b_to_e: none,
            e_force: none,
            b_force: none,
        },
        kinds: Kinds::from_vec(Vec::from_slice(alloc, &[electron])?),
    })
}

#[test]
fn species_are_copied(rt: HostRuntime) -> Result<(), NoMemory> {
    let none = Mult::new(0, 0);
    let electron = Kind {
        charge: -1,
        mass: 1,
        kick: none,
        turn: none,
    };
    let setup = setup_of(rt.alloc(), electron)?;
    let copy = setup.kinds.copy(rt.alloc())?;
    assert_eq!(rt; setup.map.count(), 2);
    assert_eq!(rt; setup.kinds.as_slice().first(), Some(&electron));
    assert_eq!(rt; copy.as_slice().first(), Some(&electron));
    assert_eq!(rt; copy.as_slice().len(), 1);
    Ok(())
}
