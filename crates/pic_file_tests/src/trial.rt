//! What the tests share: two charges, and their dump.

ghost use Rattle.std.specs.Prelude.{◌≡◌, ◌≤◌, length, map};
ghost use Rattle.std.specs.List.{range_with_len};

use pic_dump::{Head, Header, HeaderSettings, Heads, put_end, put_frame, put_header};
use pic_energy::Energies;
use pic_grid::{Cells, EndMark, Lattice, Loops, Name, Snapshot};
use pic_io::MemSink;
use pic_num::{Axis, Kind, Mult, Particle, Scales, Sub};
use std::process::Abort;

fn none() -> Mult {
    Mult::new(0, 0)
}

// A species of one particle.
fn head(rt: &(impl AllocGlobal + Abort), name: &[u8], charge: i32, mass: u32) -> Head
    ensures { (result.name ≡ name.now) × (result.kind.charge ≡ charge)
        × (result.kind.mass ≡ mass) × (result.count ≡ 1) }
{
    let kind = Kind {
        charge,
        mass,
        kick: none(),
        turn: none(),
    };
    Head {
        name: Name::from_vec(Vec::from_slice(rt.alloc(), name).expect(rt, "memory")),
        kind,
        count: 1,
    }
}

/// An ion, and an electron that moves along x, at most one step.
pub fn two_charges(rt: &(impl AllocGlobal + Abort)) -> Header {
    let scales = Scales {
        e_to_b: none(),
        b_to_e: none(),
        e_force: Mult::new(1, 20),
        b_force: none(),
    };
    let ion = head(rt, b"ion", 1, 1836);
    let electron = head(rt, b"electron", -1, 1);
    let species = vec![in rt.alloc(); ion, electron].expect(rt, "memory");
    let species = Heads::from_vec(species);
    let settings = HeaderSettings {
        version: 1,
        cells: Cells::new([4, 4, 4], Sub::of_bits(12)),
        steps: 1,
        every: 1,
        filter: 0,
        scales,
    };
    let loops = Loops::from_vec(Vec::new(rt.alloc()));
    Header::new(settings, species, loops)
}

// Their state with the electron at x, and this value of E along x in the first cell.
fn state(rt: &(impl AllocGlobal + Abort), x: u32, value: i128) -> Snapshot
    ensures { map (λ particle. particle.id) result.particles.items
        ≡ range_with_len 0 (length result.particles.items) }
{
    let cells = Cells::new([4, 4, 4], Sub::of_bits(12));
    let mut e = Lattice::new(rt.alloc(), cells, [1, 1, 1]).expect(rt, "memory");
    let b = Lattice::new(rt.alloc(), cells, [1, 1, 1]).expect(rt, "memory");
    e.set(Axis::X, [0, 0, 0], value);
    let ion = Particle {
        id: 0,
        species: 0,
        x: [1024, 0, 0],
        v: [0, 0, 0],
    };
    let electron = Particle {
        id: 1,
        species: 1,
        x: [x, 0, 0],
        v: [8388608, 0, 0],
    };
    let particles = vec![in rt.alloc(); ion, electron].expect(rt, "memory");
    Snapshot { e, b, particles }
}

fn energies(electric: u128) -> Energies {
    Energies {
        kinetic: 70368744177664,
        electric,
        magnetic: 0,
    }
}

/// The bytes of their dump: 184 of the header, two frames of 6245, and 6 of the end record.
pub fn dump(rt: &(impl AllocGlobal + Abort)) -> Vec<u8> {
    let mut out = MemSink::new(rt.alloc(), 12681, Vec::new(rt.alloc())).expect(rt, "memory");
    let first = state(rt, 1024, 0);
    let second = state(rt, 3072, 412316860416);
    put_header(&mut out, &two_charges(rt)).expect(rt, "a header");
    put_frame(&mut out, 0, &first, energies(0)).expect(rt, "a frame");
    put_frame(&mut out, 1, &second, energies(154618822656)).expect(rt, "a frame");
    put_end(&mut out, EndMark::Done { steps: 1 }).expect(rt, "an end");
    Vec::from_slice(rt.alloc(), out.bytes()).expect(rt, "memory")
}
