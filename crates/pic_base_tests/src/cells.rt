//! Cells and their order, the places that a point lies between, and paths.

use pic_grid::{Cells, Pair, Segment, Track};
use pic_num::{Axis, Sub};

#[test]
fn cells_keep_their_limits(rt: HostRuntime) {
    let sub = Sub::of_bits(14);
    for (n, good) in [
        ([2, 2, 2], true),
        ([128, 128, 128], true),
        ([1, 2, 2], false),
        ([2, 129, 2], false),
        ([2, 2, 0], false),
    ] {
        let made = Cells::try_new(n, sub).map(|cells| (cells.numbers(), cells.sub()));
        assert_eq!(rt; made, good.then_some((n, sub)), "{n:?}");
    }
}

#[test]
fn places_go_by_axis_then_z_then_y_then_x(rt: HostRuntime) {
    let cells = Cells::new([2, 3, 4], Sub::of_bits(8));
    let last = [1, 2, 3];
    let numbers = [
        cells.index([1, 0, 0]),
        cells.index([0, 1, 0]),
        cells.index([0, 0, 1]),
        cells.place(Axis::X, [0, 0, 0]),
        cells.place(Axis::Y, last),
        cells.place(Axis::Z, last),
    ];
    assert_eq!(rt; numbers, [1, 2, 6, 0, 47, 71]);
    let back = (
        cells.count(),
        cells.cell_at(23),
        cells.place_at(47),
        cells.unwrapped(last),
    );
    assert_eq!(rt; back, (24, last, (Axis::Y, last), [1, 2, 3]));
}

#[test]
fn cells_follow_each_other_round_an_axis(rt: HostRuntime) {
    let cells = Cells::new([2, 3, 4], Sub::of_bits(8));
    let up = [
        cells.up(Axis::X, [1, 2, 3]),
        cells.up(Axis::Y, [1, 2, 3]),
        cells.up(Axis::Z, [1, 2, 0]),
    ];
    assert_eq!(rt; up, [[0, 2, 3], [1, 0, 3], [1, 2, 1]]);
    let down = [
        cells.down(Axis::X, [1, 2, 3]),
        cells.down(Axis::Y, [1, 2, 3]),
        cells.down(Axis::Z, [1, 2, 0]),
    ];
    assert_eq!(rt; down, [[0, 2, 3], [1, 1, 3], [1, 2, 3]]);
}

// the places and weights of a point of four cells
fn parts(pair: Pair) -> [u32; 4] {
    [pair.low, pair.high, pair.low_weight, pair.high_weight]
}

#[test]
fn a_point_lies_between_two_places(rt: HostRuntime) {
    for (bits, point, nodes, middles) in [
        (12, 0, [0, 1, 4096, 0], [3, 0, 2048, 2048]),
        (12, 2048, [0, 1, 2048, 2048], [0, 1, 4096, 0]),
        (12, 16383, [3, 0, 1, 4095], [3, 0, 2049, 2047]),
        (8, 1023, [3, 0, 1, 255], [3, 0, 129, 127]),
        (14, 16385, [1, 2, 16383, 1], [0, 1, 8191, 8193]),
    ] {
        let sub = Sub::of_bits(bits);
        let found = [
            parts(Pair::of_nodes(sub, 4, point)),
            parts(Pair::of_middles(sub, 4, point)),
        ];
        assert_eq!(rt; found, [nodes, middles], "{point}");
    }
}

#[test]
fn a_track_has_its_segments_in_order(rt: HostRuntime) {
    let segment = |from, to, cell| Segment { from, to, cell };
    let first = segment([4000, 100, 0], [4096, 100, 0], [0, 0, 0]);
    let second = segment([4096, 100, 0], [4200, 100, 0], [1, 0, 0]);
    let track = Track::new([first, second, first, first], 2);
    if let [start, end] = track.segments() {
        let met = start.to;
        let from = end.from;
        let cell = end.cell;
        assert_eq!(rt;
            [met, from, cell],
            [[4096, 100, 0], [4096, 100, 0], [1, 0, 0]]
        );
        return;
    }
    panic!(rt; "two segments");
}
