//! How far the box of a grid reaches.

use pic_grid::Cells;
use pic_num::Sub;
use pic_walk::extent;

#[test]
fn a_box_reaches_as_far_as_its_cells(rt: HostRuntime) {
    let coarse = extent(Cells::new([2, 3, 128], Sub::of_bits(8)));
    let fine = extent(Cells::new([2, 3, 128], Sub::of_bits(14)));
    let wanted = [[512, 768, 32768], [32768, 49152, 2097152]];
    assert!(rt; [coarse, fine] == wanted);
}
