//! Tests of energies and lines on worked numbers.

ghost use Rattle.std.specs.Prelude.{◌≡◌, ◌^◌, ◌≤◌, unsigned_abs, IfOk};
ghost use Rattle.pic_num.specs.Multiplier.{Multiplier};
ghost use Rattle.pic_num.specs.Sizes.{IsAtMost};
ghost use Rattle.pic_energy.specs.Energies.{IsBounded};

use pic_energy::{end_line, energies, frame_line};
use pic_grid::{Bound, Cells, EndMark, Lattice, Phase, Snapshot, Stop};
use pic_num::{Axis, Kind, Mult, NoMemory, Particle, Scales, Sub, What};
use std::alloc::Global;
use std::test::Fail;

// A field on 4 by 4 by 4 cells with one value, along x in the first cell.
fn lone_value(alloc: Global, value: i128) -> Result<Lattice, NoMemory>
    requires { IsAtMost value (2 ^ 44) }
    ensures { IfOk result (λ f. (by : Multiplier) → unsigned_abs by.n ≤ 1 → IsBounded by f) }
{
    let mut field = Lattice::new(alloc, Cells::new([4, 4, 4], Sub::of_bits(12)), [2, 1, 1])?;
    field.set(Axis::X, [0, 0, 0], value);
    Ok(field)
}

// A particle at x = 3072.
fn particle(id: u32, species: u8, v: [i32; 3]) -> Particle
    ensures { result.species ≡ species }
{
    Particle {
        id,
        species,
        x: [3072, 0, 0],
        v,
    }
}

fn kind(charge: i32, mass: u32) -> Kind
    ensures { result.mass ≡ mass }
{
    Kind {
        charge,
        mass,
        kick: Mult::new(0, 0),
        turn: Mult::new(0, 0),
    }
}

// An ion of mass 1836 at rest and an electron of mass 1, and the field that the electron's move left.
#[test]
fn a_frame_has_its_energies(rt: HostRuntime) -> Result<(), Fail> {
    let scales = Scales {
        e_to_b: Mult::new(0, 0),
        b_to_e: Mult::new(0, 0),
        e_force: Mult::new(1, 20),
        b_force: Mult::new(0, 0),
    };
    let kinds = [kind(1, 1836), kind(-1, 1)];
    let state = Snapshot {
        e: lone_value(rt.alloc(), 412316860416)?,
        b: lone_value(rt.alloc(), 0)?,
        particles: vec![in rt.alloc(); particle(0, 0, [0, 0, 0]), particle(1, 1, [8388608, 0, 0])]?,
    };
    let line = frame_line(1, energies(&scales, &kinds, &state));
    assert_eq!(rt;
        line.bytes(),
        b"frame 1 kinetic 70368744177664 electric 154618822656 magnetic 0\n".as_slice()
    );
    Ok(())
}

const LINES: [(EndMark, &[u8]); 3] = [
    (EndMark::Done { steps: 1 }, b"done 1\n"),
    (
        EndMark::Stopped {
            step: 1,
            stop: Stop::Field {
                phase: Phase::Electric,
                bound: Bound::Force,
                axis: Axis::X,
                cell: [0, 0, 0],
                value: 17596481003518,
            },
        },
        b"stopped 1 field electric force 0 0 0 0 17596481003518\n",
    ),
    (
        EndMark::Stopped {
            step: 1,
            stop: Stop::Push {
                id: 0,
                what: What::Far,
                axis: Axis::X,
                value: 8192,
            },
        },
        b"stopped 1 particle 0 far 0 8192\n",
    ),
];

#[test]
fn an_end_has_its_line(rt: HostRuntime) {
    for (mark, line) in &LINES {
        assert_eq!(rt; end_line(*mark).bytes(), *line);
    }
}
