//! The test of the force values of the fields that a deck begins with.

ghost use Rattle.std.specs.Prelude.{◌≡◌, pos, ◌^◌, IsTrue, codes, None, IfOk, OnOk};
ghost use Rattle.pic_num.specs.Limits.{most_value};
ghost use Rattle.pic_num.specs.declared.axis.Axis.{Axis};
ghost use Rattle.pic_num.specs.Sizes.{IsAtMost};
ghost use Rattle.pic_num.specs.Space.{Triple, spot};
ghost use Rattle.pic_block.specs.Cells.{IsWithin};
ghost use Rattle.pic_grid.specs.Lattice.{value_at};
ghost use Rattle.pic_walk.specs.Path.{key_at};
ghost use Rattle.pic_walk.specs.Rows.{AreRows};
ghost use Rattle.pic_walk.specs.Walk.{WalksAs};
ghost use Rattle.pic_deck.specs.Initial.{IsMild, strong, first_strong, set_up};
ghost use Rattle.pic_deck.specs.Keys.{force_allowed, forces};

use crate::fields::InitialFields;
use crate::filling::fill;
use pic_grid::{Cells, Lattice};
use pic_num::{MAX_FORCE, Mult, NoMemory, scale};
use pic_settings::Settings;
use pic_walk::{Address, Limits, Row, WalkStop};
use std::alloc::Global;

// the force value of a value, where it is too large
#[tactic(auto, unfolding(crate::specs::Initial::strong))]
fn strong(by: Mult, value: i128) -> Option<i128>
    requires { IsAtMost value most_value }
    ensures { result ≡ strong by value }
{
    let force = scale(value, by);
    if force.unsigned_abs() <= MAX_FORCE {
        None
    } else {
        Some(force)
    }
}

/// The force value of the least place that has one above 2^44 in size, if there is one.
pub fn first_strong(by: Mult, field: &Lattice) -> Option<i128>
    requires { (a : Axis) (p : Triple) → IsWithin p field.now.cells
        → IsAtMost (value_at field.now a p) most_value }
    ensures { result ≡ first_strong field.now.cells by (value_at field.now) }
{
    let cells = field.cells();
    for place in 0..3 * cells.count() as usize {
        let (axis, cell) = cells.place_at(place);
        if let Some(force) = strong(by, field.at(axis, cell)) {
            return Some(force);
        }
    }
    None
}

// refuses the scale at a key where a force value is too large
fn check_strong(alloc: Global, key: &str, strong: Option<i128>) -> Result<(), WalkStop>
    ensures walks { WalksAs (λ _. tt) (force_allowed (key_at (codes "scale") key.now) strong)
        result }
    ensures none { OnOk result (strong ≡ None) }
{
    match strong {
        Some(force) => {
            let most = MAX_FORCE as i64;
            let limits = Limits::new(-most, most);
            Err(Address::new("scale", key).limit_fault(alloc, force, limits))
        }
        None => Ok(()),
    }
}

fn is_zero(numbers: [i64; 3]) -> bool
    ensures { IsTrue result → spot numbers ≡ record { x = pos 0; y = pos 0; z = pos 0 } }
{
    let [x, y, z] = numbers;
    x == 0 && y == 0 && z == 0
}

// the force value of the least place of a field that a deck begins with, where it is too strong; a
// field of zeros takes no room
fn find_strong(
    alloc: Global,
    by: Mult,
    cells: Cells,
    numbers: [i64; 3],
    rows: &[Row],
) -> Result<Option<i128>, NoMemory>
    requires { AreRows cells.n rows.now }
    ensures value { IfOk result (λ found.
        found ≡ first_strong cells.n by (set_up (spot numbers) rows.now)) }
    ensures mild { IfOk result (λ found. found ≡ None
        → IsMild cells.n by (set_up (spot numbers) rows.now)) }
{
    if is_zero(numbers) && rows.is_empty() {
        return Ok(None);
    }
    let mut field = Lattice::new(alloc, cells, [1; 3])?;
    fill(numbers, rows, &mut field);
    Ok(first_strong(by, &field))
}

// refuses the scale at a key where a field that a deck begins with is too strong by it
fn check_field(
    alloc: Global,
    key: &str,
    by: Mult,
    cells: Cells,
    numbers: [i64; 3],
    rows: &[Row],
) -> Result<(), WalkStop>
    requires { AreRows cells.n rows.now }
    ensures walks { WalksAs (λ _. tt) (force_allowed (key_at (codes "scale") key.now)
        (first_strong cells.n by (set_up (spot numbers) rows.now))) result }
    ensures mild { OnOk result (IsMild cells.n by (set_up (spot numbers) rows.now)) }
{
    let found = find_strong(alloc, by, cells, numbers, rows)?;
    check_strong(alloc, key, found)
}

/// Refuses a deck whose fields begin with a force value above 2^44 in size: E first, then B.
pub(crate) fn check_forces(
    alloc: Global,
    settings: &Settings,
    field: &InitialFields,
) -> Result<(), WalkStop>
    requires edges { AreRows settings.now.cells.n field.now.edges }
    requires faces { AreRows settings.now.cells.n field.now.faces }
    ensures walks { WalksAs (λ _. tt) (forces settings.now field.now) result }
    ensures e { OnOk result (IsMild settings.now.cells.n settings.now.scales.e_force
        (set_up (spot field.now.e) field.now.edges)) }
    ensures b { OnOk result (IsMild settings.now.cells.n settings.now.scales.b_force
        (set_up (spot field.now.b) field.now.faces)) }
{
    let cells = settings.cells;
    let scales = settings.scales;
    let e = field.edges.as_slice();
    let b = field.faces.as_slice();
    check_field(alloc, "e_force", scales.e_force, cells, field.e, e)?;
    check_field(alloc, "b_force", scales.b_force, cells, field.b, b)
}
