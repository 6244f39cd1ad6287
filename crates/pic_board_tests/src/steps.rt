//! One step of a pair, by the side of a cell: numbers worked by hand.

ghost use Rattle.std.specs.Prelude.{◌≡◌, ◌<◌, ◌≤◌, IfOk, length};
ghost use Rattle.pic_num.specs.Limits.{most_loops};
ghost use Rattle.pic_grid.specs.Loops.{AreLoops};
ghost use Rattle.pic_crew.specs.Teams.{most_workers};

use pic_devices::optional_drive;
use pic_gate::{Gate, Hold, Open};
use pic_grid::{Cells, Lattice, Loops, Snapshot};
use pic_num::{Axis, Kind, Mult, NoMemory, Particle, Scales, Sub};
use pic_step::{Start, State, step};
use pic_tile::{Dir, Kinds, Setup, TileMap};
use std::alloc::Global;
use std::process::Abort;
use std::thread::Threads;
use toml::table_from_str;

/// A charge of either sign, which no field drives.
fn kind_of(charge: i32) -> Kind
    ensures charge { result.charge ≡ charge }
    ensures mass { result.mass ≡ 1 }
{
    let none = Mult::new(0, 0);
    Kind {
        charge,
        mass: 1,
        kick: none,
        turn: none,
    }
}

/// A loop round the face on z of the first cell, whose wave has two numbers.
const ONE_LOOP: &str = "drive = [{ axis = 2, cell = [0, 0, 0], wave = [8, -5] }]";

/// The loops that a text says, on 4 by 4 by 4 cells.
fn loops_of(alloc: Global, text: &str) -> Result<Loops, NoMemory>
    ensures { IfOk result (AreLoops (record { x = 4; y = 4; z = 4 }) most_loops) }
{
    let Ok(table) = table_from_str(alloc, text) else {
        return Err(NoMemory);
    };
    match optional_drive(alloc, &table, Cells::new([4; 3], Sub::of_bits(12))) {
        Ok(loops) => Ok(loops),
        Err(_) => Err(NoMemory),
    }
}

/// An ion at rest and an electron on one place, a quarter of a cell along x, after 41 steps. The
/// electron moves half a cell along x in a step.
fn pair_of(alloc: Global, sub: Sub, loops: Loops) -> Result<State, NoMemory>
    requires { AreLoops (record { x = 4; y = 4; z = 4 }) most_loops loops }
    ensures { IfOk result (λ s. s.world.step ≡ 41) }
{
    let none = Mult::new(0, 0);
    let scales = Scales {
        e_to_b: none,
        b_to_e: none,
        e_force: none,
        b_force: none,
    };
    let cells = Cells::new([4; 3], sub);
    let side = sub.side();
    let ion = Particle {
        id: 0,
        species: 0,
        x: [side / 4, 0, 0],
        v: [0; 3],
    };
    let electron = Particle {
        id: 1,
        species: 1,
        x: [side / 4, 0, 0],
        v: [side as i32 * 2048, 0, 0],
    };
    let kinds = Kinds::from_vec(Vec::from_slice(alloc, &[kind_of(1), kind_of(-1)])?);
    let particles = Vec::from_slice(alloc, &[ion, electron])?;
    let e = Lattice::new(alloc, cells, [1, 1, 4])?;
    let b = Lattice::new(alloc, cells, [1, 1, 4])?;
    let map = TileMap::new(cells, [2, 1, 1]);
    let setup = Setup {
        map,
        filter: 0,
        loops,
        scales,
        kinds,
    };
    let start = Start {
        setup,
        step: 41,
        e,
        b,
        particles,
    };
    State::begin(alloc, start)
}

/// The value of a lattice at a cell, or 0 outside.
fn value_in(field: &Lattice, axis: Axis, cell: [u32; 3]) -> i128 {
    let [nx, ny, nz] = field.cells().numbers();
    let [x, y, z] = cell;
    if x >= nx || y >= ny || z >= nz {
        return 0;
    }
    field.at(axis, cell)
}

/// Whether a tile has particles.
fn is_peopled(state: &State, number: usize) -> Option<bool> {
    let (_, tiles) = state.tiles();
    let parcel = tiles.get(number)?.parcel(Dir::HERE)?;
    Some(!parcel.chain.is_empty())
}

/// The fields and the particles of a state.
fn shown(alloc: Global, state: &State) -> Result<Snapshot, NoMemory>
    ensures { IfOk result (λ s. length s.particles.items ≡ length state.now.world.particles) }
{
    let mut seen = Snapshot::new(alloc, state.cells(), state.count())?;
    state.fill(&mut seen);
    Ok(seen)
}

/// E has these values at the four edges of the current of a loop, and at two others.
fn check_edges(rt: &(impl AllocGlobal + Abort), state: &State, wanted: &[i128; 6]) {
    let seen = shown(rt.alloc(), state).expect(rt, "memory");
    let found = [
        value_in(&seen.e, Axis::X, [0, 0, 0]),
        value_in(&seen.e, Axis::X, [0, 1, 0]),
        value_in(&seen.e, Axis::Y, [0, 0, 0]),
        value_in(&seen.e, Axis::Y, [1, 0, 0]),
        value_in(&seen.e, Axis::Z, [0, 0, 0]),
        value_in(&seen.e, Axis::X, [0, 3, 0]),
    ];
    assert_eq!(rt; found, *wanted);
}

/// E is 0 along x in the second cell.
fn check_second_cell(rt: &(impl AllocGlobal + Abort), state: &State) {
    let seen = shown(rt.alloc(), state).expect(rt, "memory");
    assert!(rt; value_in(&seen.e, Axis::X, [1, 0, 0]) == 0);
}

/// The electron is at this place along x.
fn check_electron(rt: &(impl AllocGlobal + Abort), state: &State, place: u32) {
    let seen = shown(rt.alloc(), state).expect(rt, "memory");
    let electron = seen.particles.get(1).expect(rt, "an electron");
    assert_eq!(rt; electron.x, [place, 0, 0]);
}

/// The pair that no loop drives, after a step of so many workers.
fn stepped<H: AllocGlobal + Abort + Threads + Sync, G: Gate + Sync>(
    rt: &H,
    sub: Sub,
    workers: u32,
    gate: &G,
) -> State
    requires some { 0 < workers }
    requires most { workers ≤ most_workers }
{
    let loops = loops_of(rt.alloc(), "").expect(rt, "no loops");
    let pair = pair_of(rt.alloc(), sub, loops).expect(rt, "memory");
    step(rt, rt.alloc(), pair, workers, gate).expect(rt, "a step")
}

/// A power of two as the side of a cell, the current of half a cell, and where the electron is then.
struct Side {
    bits: u32,
    current: i128,
    place: u32,
}

const SIDES: [Side; 3] = [
    Side {
        bits: 8,
        current: 100663296,
        place: 192,
    },
    Side {
        bits: 12,
        current: 412316860416,
        place: 3072,
    },
    Side {
        bits: 14,
        current: 26388279066624,
        place: 12288,
    },
];

/// A step of so many workers is as its side says, where the particles are sorted in memory behind it.
fn check_side<H: AllocGlobal + Abort + Threads + Sync>(rt: &H, side: &Side, workers: u32)
    requires some { 0 < workers }
    requires most { workers ≤ most_workers }
{
    let sub = Sub::new(side.bits).expect(rt, "a side");
    let mut state = stepped(rt, sub, workers, &Open);
    let mut room = shown(rt.alloc(), &state).expect(rt, "memory");
    state.sort(&mut room);
    assert!(rt; state.step_number() == 42);
    assert!(rt; state.cells().sub() == sub);
    check_edges(rt, &state, &[side.current, 0, 0, 0, 0, 0]);
    check_second_cell(rt, &state);
    check_electron(rt, &state, side.place);
    assert!(rt; is_peopled(&state, 0) == Some(true));
    assert!(rt; is_peopled(&state, 1) == Some(false));
}

#[test]
fn a_step_by_the_side_of_a_cell(rt: HostRuntime) {
    for side in &SIDES {
        check_side(&rt, side, 1);
        check_side(&rt, side, 2);
    }
}

// the step from the 41st state takes the second number of the wave, and the next one the first; the
// electron goes half a cell in the first cell, and then a quarter
#[test]
fn a_loop_drives_by_the_number_of_the_step(rt: HostRuntime) {
    let loops = loops_of(rt.alloc(), ONE_LOOP).expect(&rt, "a loop");
    let pair = pair_of(rt.alloc(), Sub::of_bits(12), loops).expect(&rt, "memory");
    assert!(rt; pair.loops().len() == 1);
    let first = step(&rt, rt.alloc(), pair, 1, &Open).expect(&rt, "a step");
    check_edges(&rt, &first, &[412316860416 - 5, 5, 5, -5, 0, 0]);
    let second = step(&rt, rt.alloc(), first, 1, &Open).expect(&rt, "a step");
    check_edges(&rt, &second, &[618475290624 + 3, -3, -3, 3, 0, 0]);
}

#[test]
fn two_workers_are_at_work_at_once(rt: HostRuntime) {
    let hold = Hold::new();
    let _next = stepped(&rt, Sub::of_bits(12), 2, &hold);
    assert!(rt; hold.met());
}
