//! The lines of probes, byte by byte.

ghost use Rattle.std.specs.Prelude.{◌≡◌, length, map};
ghost use Rattle.std.specs.List.{range_with_len};
ghost use Rattle.pic_devices.specs.Probes.{AreProbes};

use pic_devices::{Probes, optional_probes};
use pic_grid::{Cells, Lattice, Snapshot};
use pic_io::{Failed, MemSink};
use pic_num::{Axis, Particle, Sub};
use pic_probe::put_line;
use std::process::Abort;
use toml::table_from_str;

// the probes that a text says of two particles on 4 by 4 by 4 cells
fn probes_of(rt: &(impl AllocGlobal + Abort), text: &str) -> Probes
    ensures { AreProbes (record { x = 4; y = 4; z = 4 }) 2 result }
{
    let table = table_from_str(rt.alloc(), text).expect(rt, "a table");
    let cells = Cells::new([4; 3], Sub::of_bits(12));
    optional_probes(rt.alloc(), &table, cells, 2).expect(rt, "probes")
}

// An ion at rest and an electron, and this value of E along x in the first cell. B is 7 along z in the
// last one.
fn state(rt: &(impl AllocGlobal + Abort), x: [u32; 3], v: [i32; 3], value: i128) -> Snapshot
    ensures e { result.e.cells ≡ record { x = 4; y = 4; z = 4 } }
    ensures b { result.b.cells ≡ record { x = 4; y = 4; z = 4 } }
    ensures count { length result.particles.items ≡ 2 }
    ensures ids { map (λ particle. particle.id) result.particles.items ≡ range_with_len 0 2 }
{
    let cells = Cells::new([4; 3], Sub::of_bits(12));
    let mut e = Lattice::new(rt.alloc(), cells, [1; 3]).expect(rt, "memory");
    let mut b = Lattice::new(rt.alloc(), cells, [1; 3]).expect(rt, "memory");
    e.set(Axis::X, [0, 0, 0], value);
    b.set(Axis::Z, [3, 3, 3], 7);
    let ion = Particle {
        id: 0,
        species: 0,
        x: [1024, 0, 0],
        v: [0, 0, 0],
    };
    let electron = Particle {
        id: 1,
        species: 1,
        x,
        v,
    };
    let particles = vec![in rt.alloc(); ion, electron].expect(rt, "memory");
    Snapshot { e, b, particles }
}

// The probes, the step, the electron's position and velocity, and the value of E.
#[derive(Drop)]
struct Seen<'a>(&'a str, u32, [u32; 3], [i32; 3], i128);

// A sink of so much room whose listed puts fail.
struct Room(usize, &'static [(u64, usize)]);

fn check_put(
    rt: &impl Abort,
    out: &MemSink,
    put: Result<(), Failed>,
    is_whole: bool,
    wanted: &[u8],
) {
    assert!(rt; put.is_ok() == is_whole && out.bytes() == wanted);
}

// A line is put as this, whole or not.
fn check_line(
    rt: &(impl AllocGlobal + Abort),
    seen: &Seen<'_>,
    room: &Room,
    is_whole: bool,
    wanted: &[u8],
) {
    let probes = probes_of(rt, seen.0);
    let state = state(rt, seen.2, seen.3, seen.4);
    let fails = Vec::from_slice(rt.alloc(), room.1).expect(rt, "memory");
    let mut out = MemSink::new(rt.alloc(), room.0, fails).expect(rt, "memory");
    let put = put_line(&mut out, &probes, seen.1, &state);
    check_put(rt, &out, put, is_whole, wanted);
}

const FIRST: &str = "probe = { places = [[0, 0, 0, 0, 0]], ids = [1] }";

const MANY: &str =
    "probe = { places = [[1, 2, 3, 3, 3], [0, 2, 3, 3, 3], [1, 0, 0, 0, 0], [0, 0, 0, 0, 0]], \
    ids = [1, 0, 1] }";

const AT_FIRST: Seen<'static> = Seen(FIRST, 0, [1024, 0, 0], [8388608, 0, 0], 0);

const WIDE: Room = Room(100, &[]);

// What is seen, the sink, whether the line is put whole, and what it is put as.
struct Case(Seen<'static>, Room, bool, &'static [u8]);

// The last rows: a line that is not put is told, and what it was put of stands.
const LINES: [Case; 10] = [
    Case(AT_FIRST, WIDE, true, b"0 0 1024 0 0 8388608 0 0\n"),
    Case(
        Seen(FIRST, 1, [3072, 0, 0], [8388608, 0, 0], 412316860416),
        WIDE,
        true,
        b"1 412316860416 3072 0 0 8388608 0 0\n",
    ),
    Case(
        Seen(MANY, 17, [3, 20, 100], [-1, 0, 9], -5),
        WIDE,
        true,
        b"17 7 0 0 -5 3 20 100 -1 0 9 1024 0 0 0 0 0 3 20 100 -1 0 9\n",
    ),
    Case(Seen("", 0, [0; 3], [0; 3], 1), WIDE, true, b"0\n"),
    Case(Seen("probe = {}", 1, [0; 3], [0; 3], 1), WIDE, true, b"1\n"),
    Case(
        Seen("probe = { ids = [0] }", 1000000, [0; 3], [0; 3], 1),
        WIDE,
        true,
        b"1000000 1024 0 0 0 0 0\n",
    ),
    Case(
        Seen(
            "probe = { places = [[0, 0, 0, 0, 0]] }",
            2,
            [0; 3],
            [0; 3],
            1,
        ),
        WIDE,
        true,
        b"2 1\n",
    ),
    Case(AT_FIRST, Room(100, &[(0, 0)]), false, b""),
    Case(AT_FIRST, Room(100, &[(0, 5)]), false, b"0 0 1"),
    Case(AT_FIRST, Room(24, &[]), false, b"0 0 1024 0 0 8388608 0 0"),
];

#[test]
fn a_line_has_its_columns(rt: HostRuntime) {
    for case in &LINES {
        check_line(&rt, &case.0, &case.1, case.2, case.3);
    }
}

// Probes of one place and of one particle, each so many times.
fn many_probes(rt: &(impl AllocGlobal + Abort), count: usize) -> String {
    let places = "[0, 0, 0, 0, 0], "
        .repeat(rt.alloc(), count)
        .expect(rt, "memory");
    let ids = "1, ".repeat(rt.alloc(), count).expect(rt, "memory");
    let text = format!(in rt.alloc(); "probe = {{ places = [{places}], ids = [{ids}] }}");
    text.expect(rt, "memory")
}

const VALUE: &str = " -170141183460469231731687303715884105728";

const TRACK: &str = " 4294967295 4294967295 4294967295 -2147483648 -2147483648 -2147483648";

fn many_columns(rt: &(impl AllocGlobal + Abort), count: usize) -> String {
    let values = VALUE.repeat(rt.alloc(), count).expect(rt, "memory");
    let tracks = TRACK.repeat(rt.alloc(), count).expect(rt, "memory");
    format!(in rt.alloc(); "4294967295{values}{tracks}\n").expect(rt, "memory")
}

// 64 places and 64 particles, each number as wide as its type allows: 10 digits of the step, 40 of each
// value with its sign, 10 of each place and 11 of each velocity, with a space before each but the first.
const WIDEST: usize = 10 + 64 * 41 + 64 * (3 * 11 + 3 * 12) + 1;

#[test]
fn the_widest_line(rt: HostRuntime) {
    let text = many_probes(&rt, 64);
    let wanted = many_columns(&rt, 64);
    assert!(rt; wanted.as_str().len() == WIDEST);
    let seen = Seen(
        text.as_str(),
        4294967295,
        [4294967295; 3],
        [-2147483648; 3],
        i128::MIN,
    );
    check_line(&rt, &seen, &Room(WIDEST, &[]), true, wanted.as_bytes());
}
