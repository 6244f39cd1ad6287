//! Reader of the rows of a field.

ghost use Rattle.std.specs.Prelude.{◌≡◌, ℕ, ℤ, pos, ◌<◌, ◌≤ℤ◌, List, None, IfOk, length, unsigned_abs, slice_index_or};
ghost use Rattle.toml.specs.View.{view};
ghost use Rattle.pic_block.specs.Cells.{axis_of};
ghost use Rattle.pic_walk.specs.Path.{path_of};
ghost use Rattle.pic_walk.specs.Limits.{MeetsLimits, limits_at};
ghost use Rattle.pic_walk.specs.Walk.{WalksAs, list_by};
ghost use Rattle.pic_walk.specs.declared.row.Row.{Row as RowView};
ghost use Rattle.pic_walk.specs.Rows.{IsRow, AreRows, no_row, row_limits, row_from, row, row_list};

use crate::address::Address;
use crate::bounds::MAX_ROWS;
use crate::fault::WalkStop;
use crate::limits::Limits;
use crate::numbers::{check_within, read_elements, read_numbers};
use crate::row::{Row, Rows};
use pic_grid::Cells;
use pic_num::Axis;
use std::alloc::Global;
use toml::Value;

fn row_limits(cells: Cells) -> [Limits; 5]
    ensures { result ≡ row_limits cells.n }
{
    let [nx, ny, nz] = cells.numbers();
    [
        Limits::new(0, 2),
        Limits::below(nx),
        Limits::below(ny),
        Limits::below(nz),
        Limits::any(),
    ]
}

fn axis_at(number: i64) -> Axis
    requires low { pos 0 ≤ℤ number }
    requires high { number ≤ℤ pos 2 }
    ensures { result ≡ axis_of (unsigned_abs number) }
{
    match number {
        0 => Axis::X,
        1 => Axis::Y,
        _ => Axis::Z,
    }
}

#[tactic(auto, unfolding(crate::specs::Limits::limits_at))]
fn row_of(cells: Cells, numbers: [i64; 5]) -> Row
    requires { (k : ℕ) → k < 5 → MeetsLimits (limits_at (row_limits cells.n) k)
        (slice_index_or numbers k (pos 0)) }
    ensures value { result ≡ row_from numbers }
    ensures limits { IsRow cells.n result }
{
    let _ = cells;
    Row {
        axis: axis_at(numbers[0]),
        cell: [numbers[1] as u32, numbers[2] as u32, numbers[3] as u32],
        value: numbers[4],
    }
}

// the row at an address
fn read_row(
    alloc: Global,
    address: Address<'_>,
    value: &Value,
    cells: Cells,
) -> Result<Row, WalkStop>
    requires { address.column ≡ None }
    ensures walks { (done : List RowView)
        → WalksAs (λ (r : RowView). r) (row cells.n done (path_of address.entry) (view value.now))
        result }
    ensures limits { IfOk result (λ r. IsRow cells.n r) }
{
    let numbers = read_numbers(alloc, address, value, row_limits(cells))?;
    Ok(row_of(cells, numbers))
}

// the rows at an address, one by one
fn read_each_row(
    alloc: Global,
    address: Address<'_>,
    value: &Value,
    cells: Cells,
) -> Result<Vec<Row>, WalkStop>
    requires whole { address.row ≡ None }
    requires plain { address.column ≡ None }
    ensures walks { WalksAs (λ rs. rs.items)
        (list_by (row cells.n) (path_of address.entry) (view value.now)) result }
    ensures limits { IfOk result (λ rs. (k : ℕ) → k < length rs.items
        → IsRow cells.n (slice_index_or rs.items k no_row)) }
{
    let items = read_elements(alloc, address, value)?;
    let mut rows = Vec::new(alloc);
    for i in 0..items.len() {
        let row = read_row(alloc, address.element(i), &items[i], cells)?;
        rows.push(row)?;
    }
    Ok(rows)
}

/// The rows at an address: `[axis, i, j, k, value]`, the cell among those of the grid.
pub fn read_rows(
    alloc: Global,
    address: Address<'_>,
    value: &Value,
    cells: Cells,
) -> Result<Rows, WalkStop>
    requires whole { address.row ≡ None }
    requires plain { address.column ≡ None }
    ensures walks { WalksAs (λ (rs : List RowView). rs)
        (row_list cells.n (path_of address.entry) (view value.now)) result }
    ensures limits { IfOk result (λ rs. AreRows cells.n rs) }
{
    let rows = read_each_row(alloc, address, value, cells)?;
    check_within(alloc, address, rows.len() as i128, Limits::new(0, MAX_ROWS))?;
    Ok(Rows::from_vec(rows))
}
