//! Worked rows of the deposition of currents.

ghost use Rattle.std.specs.Prelude.{◌≡◌, ◌^◌, ◌≤◌, ◌+ℤ◌, ◌*ℤ◌, ◌≤ℤ◌, pos, IsTrue, IfOk};
ghost use Rattle.pic_num.specs.Sizes.{IsAtMost};
ghost use Rattle.pic_num.specs.Space.{along, spot};
ghost use Rattle.std.specs.List.{All};
ghost use Rattle.pic_block.specs.Block.{AllAtMost};
ghost use Rattle.pic_grid.specs.Segment.{IsInside, IsInCell};

use pic_block::{Block, Zone};
use pic_flux::{deposit, deposit_track};
use pic_grid::{Segment, Track};
use pic_num::{Axis, NoMemory, Sub};
use std::alloc::Global;
use std::process::Abort;

type Edge = (Axis, [i32; 3], i128);

const AXES: [Axis; 3] = [Axis::X, Axis::Y, Axis::Z];

/// The 4 by 4 by 4 cells from (-1, -1, -1) on.
const AROUND: Zone = Zone {
    low: [-1; 3],
    size: [4; 3],
};

/// A block of zeros.
fn zeros(alloc: Global, zone: Zone) -> Result<Block, NoMemory>
    ensures { IfOk result (AllAtMost 0) }
{
    Block::new(alloc, zone)
}

/// The coordinate on `axis`.
fn along(axis: Axis, p: [i32; 3]) -> i32
    ensures { result ≡ along axis (spot p) }
{
    let [x, y, z] = p;
    match axis {
        Axis::X => x,
        Axis::Y => y,
        Axis::Z => z,
    }
}

/// The low face of the cell `c`.
fn low_face(side: u32, c: i32) -> i64
    requires { side ≤ 2 ^ 14 }
    ensures value { result ≡ c *ℤ pos side }
    ensures size { IsAtMost result (2 ^ 45) }
{
    i64::from(c) * i64::from(side)
}

/// Whether `p` is at least `low`, and at most a side more.
fn is_between(p: i32, low: i64, side: u32) -> bool
    requires low { IsAtMost low (2 ^ 45) }
    requires side { side ≤ 2 ^ 14 }
    ensures low { IsTrue result → low ≤ℤ p }
    ensures high { IsTrue result → p ≤ℤ (low +ℤ pos side) }
{
    if i64::from(p) < low {
        return false;
    }
    if i64::from(p) > low + i64::from(side) {
        return false;
    }
    true
}

/// Whether the coordinate `p` lies in the closed cell `c`.
fn is_inside(side: u32, c: i32, p: i32) -> bool
    requires { side ≤ 2 ^ 14 }
    ensures { IsTrue result → IsInside side c p }
{
    is_between(p, low_face(side, c), side)
}

/// Whether both ends of a segment lie in its closed cell, on one axis.
fn is_inside_on(sub: Sub, seg: &Segment, axis: Axis) -> bool
    ensures from { IsTrue result
        → IsInside sub (along axis seg.now.cell) (along axis seg.now.from) }
    ensures to { IsTrue result → IsInside sub (along axis seg.now.cell) (along axis seg.now.to) }
{
    let c = along(axis, seg.cell);
    let from = along(axis, seg.from);
    let to = along(axis, seg.to);
    let side = sub.side();
    let from_inside = is_inside(side, c, from);
    let to_inside = is_inside(side, c, to);
    if !from_inside {
        return false;
    }
    to_inside
}

/// Whether both ends of a segment lie in its closed cell.
fn is_in_cell(sub: Sub, seg: &Segment) -> bool
    ensures { IsTrue result → IsInCell sub seg.now }
{
    is_inside_on(sub, seg, Axis::X)
        && is_inside_on(sub, seg, Axis::Y)
        && is_inside_on(sub, seg, Axis::Z)
}

/// Deposits a segment of a deck's charge in a block of zeros.
fn deposit_first(sub: Sub, seg: &Segment, q: i32, to: &mut Block)
    requires inside { IsInCell sub seg.now }
    requires charge { IsAtMost q (2 ^ 15) }
    requires zeros { AllAtMost 0 to.old }
{
    let _side = sub.side();
    deposit(sub, seg, q, to);
}

/// Deposits a track of a deck's charge in a block of zeros.
fn deposit_first_track(sub: Sub, track: &Track, q: i32, to: &mut Block)
    requires inside { All (IsInCell sub) track.now }
    requires charge { IsAtMost q (2 ^ 15) }
    requires zeros { AllAtMost 0 to.old }
{
    let _segments = track.segments();
    let _side = sub.side();
    deposit_track(sub, track, q, to);
}

/// The value at an edge, or 0 outside the zone.
fn value_at(block: &Block, axis: Axis, cell: [i32; 3]) -> i128 {
    if block.has(cell) {
        block.at(axis, cell)
    } else {
        0
    }
}

/// The value that the list gives to an edge, or 0.
fn wanted_at(edges: &[Edge], axis: Axis, cell: [i32; 3]) -> i128 {
    for (at_axis, at_cell, value) in edges {
        if *at_axis == axis && *at_cell == cell {
            return *value;
        }
    }
    0
}

/// Looks at every edge of the cells -1 to 2 on each axis.
fn assert_holds(rt: &impl Abort, block: &Block, edges: &[Edge]) {
    for x in -1..3 {
        for y in -1..3 {
            for z in -1..3 {
                let cell = [x, y, z];
                for axis in AXES {
                    let value = value_at(block, axis, cell);
                    assert_eq!(rt; value, wanted_at(edges, axis, cell), "{axis:?} {cell:?}");
                }
            }
        }
    }
}

#[test]
fn a_segment_adds_its_flux_and_nothing_else(rt: HostRuntime) -> Result<(), NoMemory> {
    let sub = Sub::of_bits(12);
    let first = Segment {
        from: [1024, 0, 0],
        to: [3072, 0, 0],
        cell: [0; 3],
    };
    let flat = Segment {
        from: [0; 3],
        to: [2048, 2048, 0],
        cell: [0; 3],
    };
    let diagonal = Segment {
        from: [0; 3],
        to: [2048; 3],
        cell: [0; 3],
    };
    let down = Segment {
        from: [8192, 0, 0],
        to: [4096, 0, 0],
        cell: [1, 0, 0],
    };
    let cases: [(Segment, i32, &[Edge]); 5] = [
        (first, 1, &[(Axis::X, [0, 0, 0], 412316860416)]),
        (first, -2, &[(Axis::X, [0, 0, 0], -824633720832)]),
        (
            flat,
            1,
            &[
                (Axis::X, [0, 0, 0], 309237645312),
                (Axis::X, [0, 1, 0], 103079215104),
                (Axis::Y, [0, 0, 0], 309237645312),
                (Axis::Y, [1, 0, 0], 103079215104),
            ],
        ),
        (
            diagonal,
            1,
            &[
                (Axis::X, [0, 0, 0], 240518168576),
                (Axis::X, [0, 1, 0], 68719476736),
                (Axis::X, [0, 0, 1], 68719476736),
                (Axis::X, [0, 1, 1], 34359738368),
                (Axis::Y, [0, 0, 0], 240518168576),
                (Axis::Y, [1, 0, 0], 68719476736),
                (Axis::Y, [0, 0, 1], 68719476736),
                (Axis::Y, [1, 0, 1], 34359738368),
                (Axis::Z, [0, 0, 0], 240518168576),
                (Axis::Z, [1, 0, 0], 68719476736),
                (Axis::Z, [0, 1, 0], 68719476736),
                (Axis::Z, [1, 1, 0], 34359738368),
            ],
        ),
        (down, 1, &[(Axis::X, [1, 0, 0], -824633720832)]),
    ];
    for (seg, q, edges) in cases {
        let mut block = zeros(rt.alloc(), AROUND)?;
        assert!(rt; is_in_cell(sub, &seg));
        assert!(rt; q.unsigned_abs() <= 1 << 15);
        deposit_first(sub, &seg, q, &mut block);
        assert_holds(&rt, &block, edges);
    }
    Ok(())
}

#[test]
fn a_zone_gets_only_its_own_edges(rt: HostRuntime) -> Result<(), NoMemory> {
    let sub = Sub::of_bits(12);
    let seg = Segment {
        from: [0; 3],
        to: [2048; 3],
        cell: [0; 3],
    };
    let zone = Zone {
        low: [0, 1, 0],
        size: [1; 3],
    };
    let mut block = zeros(rt.alloc(), zone)?;
    assert!(rt; is_in_cell(sub, &seg));
    deposit_first(sub, &seg, 1, &mut block);
    let edges = [
        (Axis::X, [0, 1, 0], 68719476736),
        (Axis::Z, [0, 1, 0], 68719476736),
    ];
    assert_holds(&rt, &block, &edges);
    Ok(())
}

#[test]
fn a_track_adds_the_flux_of_its_segments(rt: HostRuntime) -> Result<(), NoMemory> {
    let sub = Sub::of_bits(12);
    let upper = Segment {
        from: [100, 0, 0],
        to: [0, 0, 0],
        cell: [0; 3],
    };
    let lower = Segment {
        from: [0, 0, 0],
        to: [-100, 0, 0],
        cell: [-1, 0, 0],
    };
    let mut block = zeros(rt.alloc(), AROUND)?;
    assert!(rt; is_in_cell(sub, &upper));
    assert!(rt; is_in_cell(sub, &lower));
    let track = Track::new([upper, lower, lower, lower], 2);
    deposit_first_track(sub, &track, 1, &mut block);
    let edges = [
        (Axis::X, [0, 0, 0], -20132659200),
        (Axis::X, [-1, 0, 0], -20132659200),
    ];
    assert_holds(&rt, &block, &edges);
    Ok(())
}

#[test]
fn the_side_of_a_cell_gives_the_weights(rt: HostRuntime) -> Result<(), NoMemory> {
    let cases: [(u32, i32, [i128; 3]); 2] = [
        (8, 128, [58720256, 16777216, 8388608]),
        (14, 8192, [15393162788864, 4398046511104, 2199023255552]),
    ];
    for (bits, half, [near, beside, far]) in cases {
        let sub = Sub::of_bits(bits);
        let diagonal = Segment {
            from: [0; 3],
            to: [half; 3],
            cell: [0; 3],
        };
        let mut block = zeros(rt.alloc(), AROUND)?;
        assert!(rt; is_in_cell(sub, &diagonal));
        deposit_first(sub, &diagonal, 1, &mut block);
        assert_eq!(rt; value_at(&block, Axis::X, [0, 0, 0]), near);
        assert_eq!(rt; value_at(&block, Axis::X, [0, 1, 0]), beside);
        assert_eq!(rt; value_at(&block, Axis::X, [0, 0, 1]), beside);
        assert_eq!(rt; value_at(&block, Axis::Y, [1, 0, 1]), far);
        assert_eq!(rt; value_at(&block, Axis::Z, [1, 1, 0]), far);
    }
    Ok(())
}
