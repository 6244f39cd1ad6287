//! Programs that compute the definitions of the weights and of the gather place by place, with no
//! cell and no stencil: what a test can hold a fast program against.

ghost use Rattle.std.specs.Prelude.{◌≡◌, pos, ◌+◌, ◌*◌, ◌^◌, ◌<◌, ◌≤◌, ◌*ℤ◌, All, slice_index};
ghost use Rattle.pic_num.specs.Limits.{most_cells_of_axis, most_side, most_force};
ghost use Rattle.pic_num.specs.Sizes.{IsAtMost};
ghost use Rattle.pic_num.specs.Space.{triple};
ghost use Rattle.pic_grid.specs.Gather.{shifted_weight, weighted, gathered, laid_out};
ghost use Rattle.pic_grid.specs.Sums.{sum_below, sum_cells};
ghost use Rattle.pic_grid.specs.Hat.{periodic_hat, weight};

use pic_num::rdiv;

// the weight of a point for a place of a periodic axis
#[tactic(auto, unfolding(pic_grid::specs::Hat::periodic_hat))]
fn hat(side: u32, cells: u32, point: u32, place: u64) -> u64
    ensures value { result ≡ periodic_hat side (cells * side) point place }
    ensures most { result ≤ side }
{
    let length = u64::from(cells) * u64::from(side);
    let there = u64::from(point);
    let gap = there.saturating_sub(place) + place.saturating_sub(there);
    let round = length.saturating_sub(gap);
    u64::from(side).saturating_sub(gap.min(round))
}

// the weight of a point for the cell `index` of an axis that is shifted by `offset`
fn shifted_hat(side: u32, cells: u32, offset: u32, point: u32, index: u32) -> u64
    ensures value { result ≡ periodic_hat side (cells * side) point (index * side + offset) }
    ensures most { result ≤ side }
{
    let place = u64::from(index) * u64::from(side) + u64::from(offset);
    hat(side, cells, point, place)
}

// three weights of at most a side each
fn product(x: u64, y: u64, z: u64) -> u64
    requires x_most { x ≤ most_side }
    requires y_most { y ≤ most_side }
    requires z_most { z ≤ most_side }
    ensures value { result ≡ x * y * z }
    ensures most { result ≤ 2 ^ 42 }
{
    x * y * z
}

/// The weight of a point for the place of a cell on the grid that is shifted by `offset`.
#[tactic(auto, unfolding(pic_grid::specs::Gather::shifted_weight))]
pub fn slow_shifted_weight(
    side: u32,
    cells: [u32; 3],
    offset: [u32; 3],
    point: [u32; 3],
    cell: [u32; 3],
) -> u64
    requires { side ≤ most_side }
    ensures value { result ≡ shifted_weight side (triple cells) (triple offset) (triple point)
        (triple cell) }
    ensures most { result ≤ 2 ^ 42 }
{
    let x = shifted_hat(side, cells[0], offset[0], point[0], cell[0]);
    let y = shifted_hat(side, cells[1], offset[1], point[1], cell[1]);
    let z = shifted_hat(side, cells[2], offset[2], point[2], cell[2]);
    product(x, y, z)
}

/// The weight of a point for a node.
#[tactic(auto, unfolding(pic_grid::specs::Hat::weight))]
pub fn slow_weight(side: u32, cells: [u32; 3], point: [u32; 3], node: [u32; 3]) -> u64
    requires { side ≤ most_side }
    ensures value { result ≡ weight side (triple cells) (triple point) (triple node) }
    ensures most { result ≤ 2 ^ 42 }
{
    let x = hat(
        side,
        cells[0],
        point[0],
        u64::from(node[0]) * u64::from(side),
    );
    let y = hat(
        side,
        cells[1],
        point[1],
        u64::from(node[1]) * u64::from(side),
    );
    let z = hat(
        side,
        cells[2],
        point[2],
        u64::from(node[2]) * u64::from(side),
    );
    product(x, y, z)
}

// the value of a component at a cell
#[tactic(auto, unfolding(pic_grid::specs::Gather::laid_out, pic_block::specs::Cells::index_of))]
fn listed_value(cells: [u32; 3], values: &[i128], cell: [u32; 3]) -> i128
    requires x_most { slice_index cells 0 ≤ most_cells_of_axis }
    requires y_most { slice_index cells 1 ≤ most_cells_of_axis }
    requires x_inside { slice_index cell 0 ≤ most_cells_of_axis }
    requires y_inside { slice_index cell 1 ≤ most_cells_of_axis }
    requires z_inside { slice_index cell 2 ≤ most_cells_of_axis }
    requires values_most { All (λ v. IsAtMost v most_force) values.now }
    ensures value { result ≡ laid_out (triple cells) values.now (triple cell) }
    ensures size { IsAtMost result most_force }
{
    let index = (cell[2] * cells[1] + cell[1]) * cells[0] + cell[0];
    let place = index as usize;
    if place < values.len() {
        values[place]
    } else {
        0
    }
}

// a value times a weight
fn times(value: i128, weight: u64) -> i128
    requires value_most { IsAtMost value most_force }
    requires weight_most { weight ≤ 2 ^ 42 }
    ensures value { result ≡ value *ℤ pos weight }
    ensures size { IsAtMost result (2 ^ 86) }
{
    value * i128::from(weight)
}

// what one place adds
fn place(
    side: u32,
    cells: [u32; 3],
    offset: [u32; 3],
    values: &[i128],
    point: [u32; 3],
    cell: [u32; 3],
) -> i128
    requires side_most { side ≤ most_side }
    requires x_most { slice_index cells 0 ≤ most_cells_of_axis }
    requires y_most { slice_index cells 1 ≤ most_cells_of_axis }
    requires z_most { slice_index cells 2 ≤ most_cells_of_axis }
    requires values_most { All (λ v. IsAtMost v most_force) values.now }
    requires x_inside { slice_index cell 0 ≤ most_cells_of_axis }
    requires y_inside { slice_index cell 1 ≤ most_cells_of_axis }
    requires z_inside { slice_index cell 2 ≤ most_cells_of_axis }
    ensures value { result ≡ weighted side (triple cells) (triple offset)
        (laid_out (triple cells) values.now) (triple point) (triple cell) }
    ensures size { IsAtMost result (2 ^ 86) }
{
    let value = listed_value(cells, values, cell);
    let weight = slow_shifted_weight(side, cells, offset, point, cell);
    times(value, weight)
}

// what the row of places that begins at a cell adds
fn row(
    side: u32,
    cells: [u32; 3],
    offset: [u32; 3],
    values: &[i128],
    point: [u32; 3],
    first: [u32; 3],
) -> i128
    requires side_most { side ≤ most_side }
    requires x_most { slice_index cells 0 ≤ most_cells_of_axis }
    requires y_most { slice_index cells 1 ≤ most_cells_of_axis }
    requires z_most { slice_index cells 2 ≤ most_cells_of_axis }
    requires values_most { All (λ v. IsAtMost v most_force) values.now }
    requires y_inside { slice_index first 1 ≤ most_cells_of_axis }
    requires z_inside { slice_index first 2 ≤ most_cells_of_axis }
    ensures value { result ≡ sum_below (slice_index cells 0)
        (λ x. weighted side (triple cells) (triple offset) (laid_out (triple cells) values.now)
        (triple point) (record { x = x; y = slice_index first 1; z = slice_index first 2 })) }
    ensures size { IsAtMost result (2 ^ 93) }
{
    let mut total = 0i128;
    for x in 0..cells[0] {
        let part = place(side, cells, offset, values, point, [x, first[1], first[2]]);
        total = total + part;
    }
    total
}

// what a layer of places adds
fn layer(
    side: u32,
    cells: [u32; 3],
    offset: [u32; 3],
    values: &[i128],
    point: [u32; 3],
    z: u32,
) -> i128
    requires side_most { side ≤ most_side }
    requires x_most { slice_index cells 0 ≤ most_cells_of_axis }
    requires y_most { slice_index cells 1 ≤ most_cells_of_axis }
    requires z_most { slice_index cells 2 ≤ most_cells_of_axis }
    requires values_most { All (λ v. IsAtMost v most_force) values.now }
    requires z_inside { z ≤ most_cells_of_axis }
    ensures value { result ≡ sum_below (slice_index cells 1)
        (λ y. sum_below (slice_index cells 0)
        (λ x. weighted side (triple cells) (triple offset) (laid_out (triple cells) values.now)
        (triple point) (record { x = x; y = y; z = z }))) }
    ensures size { IsAtMost result (2 ^ 100) }
{
    let mut total = 0i128;
    for y in 0..cells[1] {
        let part = row(side, cells, offset, values, point, [0, y, z]);
        total = total + part;
    }
    total
}

// what all places add
#[tactic(auto, unfolding(pic_grid::specs::Sums::sum_cells))]
fn whole(side: u32, cells: [u32; 3], offset: [u32; 3], values: &[i128], point: [u32; 3]) -> i128
    requires side_most { side ≤ most_side }
    requires x_most { slice_index cells 0 ≤ most_cells_of_axis }
    requires y_most { slice_index cells 1 ≤ most_cells_of_axis }
    requires z_most { slice_index cells 2 ≤ most_cells_of_axis }
    requires values_most { All (λ v. IsAtMost v most_force) values.now }
    ensures value { result ≡ sum_cells (triple cells)
        (λ p. weighted side (triple cells) (triple offset) (laid_out (triple cells) values.now)
        (triple point) p) }
    ensures size { IsAtMost result (2 ^ 107) }
{
    let mut total = 0i128;
    for z in 0..cells[2] {
        let part = layer(side, cells, offset, values, point, z);
        total = total + part;
    }
    total
}

/// A component at a point, of its force values in the order of cells (x fastest), on the grid that
/// is shifted by `offset`: the mean over all places, rounded once.
#[tactic(auto, unfolding(pic_grid::specs::Gather::gathered))]
pub fn slow_gather(
    side: u32,
    cells: [u32; 3],
    offset: [u32; 3],
    values: &[i128],
    point: [u32; 3],
) -> i128
    requires side_least { 0 < side }
    requires side_most { side ≤ most_side }
    requires x_most { slice_index cells 0 ≤ most_cells_of_axis }
    requires y_most { slice_index cells 1 ≤ most_cells_of_axis }
    requires z_most { slice_index cells 2 ≤ most_cells_of_axis }
    requires values_most { All (λ v. IsAtMost v most_force) values.now }
    ensures { result ≡ gathered side (triple cells) (triple offset)
        (laid_out (triple cells) values.now) (triple point) }
{
    let sum = whole(side, cells, offset, values, point);
    let side = i128::from(side);
    rdiv(sum, side * side * side)
}

#[cfg(test)]
mod tests {
    use super::*;

    const CELLS: [u32; 3] = [2, 2, 2];

    #[test]
    fn a_point_on_a_node_has_its_whole_weight(rt: HostRuntime) {
        for (node, weight) in [([0, 0, 0], 68719476736), ([1, 0, 0], 0)] {
            assert_eq!(rt; slow_weight(4096, CELLS, [0, 0, 0], node), weight);
        }
    }

    #[test]
    fn a_point_in_the_middle_has_eight_equal_weights(rt: HostRuntime) {
        for x in 0..2 {
            for y in 0..2 {
                for z in 0..2 {
                    let weight = slow_weight(4096, CELLS, [2048, 2048, 2048], [x, y, z]);
                    assert_eq!(rt; weight, 8589934592);
                }
            }
        }
    }

    #[test]
    fn a_lone_force_value_is_gathered_near_its_place(rt: HostRuntime) {
        let offset = [2048, 0, 0];
        for (value, point, gathered) in [
            (8, [0, 0, 0], 4),
            (8, [2048, 0, 0], 8),
            (8, [0, 4096, 0], 0),
            (1, [0, 0, 0], 1),
            (-1, [0, 0, 0], 0),
        ] {
            let values = [value, 0, 0, 0, 0, 0, 0, 0];
            assert_eq!(rt; slow_gather(4096, CELLS, offset, &values, point), gathered);
        }
    }
}
