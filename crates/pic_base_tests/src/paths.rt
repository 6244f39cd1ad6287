//! Worked rows of the path of a particle.

ghost use Rattle.std.specs.Prelude.{◌≡◌, ◌^◌, ◌<◌, slice_index, EachIndex};
ghost use Rattle.pic_num.specs.Space.{spot, AreAtMost};

use pic_grid::Segment;
use pic_num::Sub;
use pic_split::{lone, split};
use std::process::Abort;

/// A piece of the path.
fn segment(from: [i32; 3], to: [i32; 3], cell: [i32; 3]) -> Segment {
    Segment { from, to, cell }
}

/// The path from `p0` by `d` has these pieces.
fn expect_path(rt: &impl Abort, sub: Sub, p0: [u32; 3], d: [i32; 3], pieces: &[Segment])
    requires start { EachIndex p0 (λ k. slice_index p0 k < 2 ^ 30) }
    requires small { AreAtMost (spot d) sub }
{
    let track = split(sub, p0, d);
    let segments = track.segments();
    assert_eq!(rt; segments.len(), pieces.len());
    for (segment, piece) in segments.iter().zip(pieces) {
        assert_eq!(rt; segment.from, piece.from);
        assert_eq!(rt; segment.to, piece.to);
        assert_eq!(rt; segment.cell, piece.cell);
    }
}

#[test]
fn break_points_are_rounded_towards_the_start(rt: HostRuntime) {
    let up = [
        segment([4000, 100, 0], [4096, 101, 0], [0, 0, 0]),
        segment([4096, 101, 0], [4200, 103, 0], [1, 0, 0]),
    ];
    expect_path(&rt, Sub::of_bits(12), [4000, 100, 0], [200, 3, 0], &up);
    let down = [
        segment([4000, 100, 0], [4096, 99, 0], [0, 0, 0]),
        segment([4096, 99, 0], [4200, 97, 0], [1, 0, 0]),
    ];
    expect_path(&rt, Sub::of_bits(12), [4000, 100, 0], [200, -3, 0], &down);
}

#[test]
fn faces_are_passed_by_fraction_and_then_by_axis(rt: HostRuntime) {
    let corner = [4096; 3];
    let through = [
        segment([4090; 3], corner, [0, 0, 0]),
        segment(corner, corner, [1, 0, 0]),
        segment(corner, corner, [1, 1, 0]),
        segment(corner, [4102; 3], [1, 1, 1]),
    ];
    expect_path(&rt, Sub::of_bits(12), [4090; 3], [12; 3], &through);
    let back = [
        segment(corner, corner, [1, 1, 1]),
        segment(corner, corner, [0, 1, 1]),
        segment(corner, corner, [0, 0, 1]),
        segment(corner, [4095; 3], [0, 0, 0]),
    ];
    expect_path(&rt, Sub::of_bits(12), [4096; 3], [-1; 3], &back);
    let y_first = [
        segment([4000, 4090, 0], [4060, 4096, 0], [0, 0, 0]),
        segment([4060, 4096, 0], [4096, 4099, 0], [0, 1, 0]),
        segment([4096, 4099, 0], [4200, 4110, 0], [1, 1, 0]),
    ];
    expect_path(
        &rt,
        Sub::of_bits(12),
        [4000, 4090, 0],
        [200, 20, 0],
        &y_first,
    );
}

#[test]
fn a_face_at_an_end_is_passed(rt: HostRuntime) {
    let at_start = [
        segment([8192, 0, 0], [8192, 0, 0], [2, 0, 0]),
        segment([8192, 0, 0], [4096, 0, 0], [1, 0, 0]),
    ];
    expect_path(
        &rt,
        Sub::of_bits(12),
        [8192, 0, 0],
        [-4096, 0, 0],
        &at_start,
    );
    let at_end = [
        segment([0, 0, 0], [4096, 0, 0], [0, 0, 0]),
        segment([4096, 0, 0], [4096, 0, 0], [1, 0, 0]),
    ];
    expect_path(&rt, Sub::of_bits(12), [0, 0, 0], [4096, 0, 0], &at_end);
}

#[test]
fn nothing_is_wrapped(rt: HostRuntime) {
    let out = [
        segment([100, 0, 0], [0, 0, 0], [0, 0, 0]),
        segment([0, 0, 0], [-100, 0, 0], [-1, 0, 0]),
    ];
    expect_path(&rt, Sub::of_bits(12), [100, 0, 0], [-200, 0, 0], &out);
}

#[test]
fn a_particle_that_stands_still_has_one_segment(rt: HostRuntime) {
    let still = [segment([4096, 5, 9000], [4096, 5, 9000], [1, 0, 2])];
    expect_path(&rt, Sub::of_bits(12), [4096, 5, 9000], [0, 0, 0], &still);
}

#[test]
fn a_cell_ends_at_its_side(rt: HostRuntime) {
    let short = [
        segment([250, 255, 0], [253, 256, 0], [0, 0, 0]),
        segment([253, 256, 0], [256, 257, 0], [0, 1, 0]),
        segment([256, 257, 0], [262, 259, 0], [1, 1, 0]),
    ];
    expect_path(&rt, Sub::of_bits(8), [250, 255, 0], [12, 4, 0], &short);
    let long = [
        segment([16380, 0, 16383], [16384, 0, 16382], [0, 0, 0]),
        segment([16384, 0, 16382], [16388, 0, 16381], [1, 0, 0]),
    ];
    expect_path(&rt, Sub::of_bits(14), [16380, 0, 16383], [8, 0, -2], &long);
}

#[test]
fn a_path_in_one_cell_is_one_piece(rt: HostRuntime) {
    let whole = lone(Sub::of_bits(8), [250, 0, 511], [5, 0, -255]);
    assert!(rt; whole.is_some());
    if let Some(piece) = whole {
        assert_eq!(rt; piece.from, [250, 0, 511]);
        assert_eq!(rt; piece.to, [255, 0, 256]);
        assert_eq!(rt; piece.cell, [0, 0, 1]);
    }
    assert!(rt; lone(Sub::of_bits(8), [250, 0, 511], [6, 0, 0]).is_none());
    assert!(rt; lone(Sub::of_bits(14), [250, 0, 511], [6, 0, 0]).is_some());
}
