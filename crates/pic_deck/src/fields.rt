//! The table `field` of a deck.

ghost use Rattle.std.specs.Prelude.{◌≡◌, List, [], codes, IfOk};
ghost use Rattle.toml.specs.View.{view, table_view};
ghost use Rattle.pic_walk.specs.declared.row.Row.{Row};
ghost use Rattle.pic_walk.specs.Rows.{AreRows, row_list};
ghost use Rattle.pic_walk.specs.Walk.{WalksAs, table_of, optional};
ghost use Rattle.pic_deck.specs.declared.fields.InitialFields.{InitialFields as FieldsView};
ghost use Rattle.pic_deck.specs.Keys.{field_keys, fields, no_field};

use pic_grid::Cells;
use pic_walk::{Address, Rows, WalkStop, find_value, optional_three, read_rows, read_table};
use std::alloc::Global;
use toml::{Table, Value};

/// The fields that a deck begins with: the uniform parts of E and B, and the rows that are added.
#[derive(Debug, Drop)]
pub struct InitialFields {
    pub e: [i64; 3],
    pub b: [i64; 3],
    pub edges: Rows,
    pub faces: Rows,
}

impl InitialFields {
    /// Fields of zeros.
    pub fn none(alloc: Global) -> InitialFields
        ensures { result ≡ no_field }
    {
        InitialFields {
            e: [0; 3],
            b: [0; 3],
            edges: Rows::from_vec(Vec::new(alloc)),
            faces: Rows::from_vec(Vec::new(alloc)),
        }
    }
}

fn field_table(alloc: Global, value: &Value) -> Result<&Table, WalkStop>
    ensures { WalksAs (λ t. table_view t.now) (table_of field_keys (codes "field") (view value.now))
        result }
{
    read_table(
        alloc,
        Address::new("", "field"),
        "field",
        &["e", "b", "edges", "faces"],
        value,
    )
}

// the rows at a key of `field`; none where the key is absent
fn optional_rows(alloc: Global, key: &str, table: &Table, cells: Cells) -> Result<Rows, WalkStop>
    ensures walks { WalksAs (λ (rs : List Row). rs)
        (optional [] (row_list cells.n) key.now (codes "field") (table_view table.now)) result }
    ensures limits { IfOk result (λ rs. AreRows cells.n rs) }
{
    match find_value(key, table) {
        Some(value) => read_rows(alloc, Address::new("field", key), value, cells),
        None => Ok(Rows::from_vec(Vec::new(alloc))),
    }
}

// the table `field` of a deck
fn read_fields(alloc: Global, value: &Value, cells: Cells) -> Result<InitialFields, WalkStop>
    ensures walks { WalksAs (λ (f : FieldsView). f)
        (fields cells.n (codes "field") (view value.now)) result }
    ensures edges { IfOk result (λ f. AreRows cells.n f.edges) }
    ensures faces { IfOk result (λ f. AreRows cells.n f.faces) }
{
    let table = field_table(alloc, value)?;
    let e = optional_three(alloc, "field", "e", table)?;
    let b = optional_three(alloc, "field", "b", table)?;
    let edges = optional_rows(alloc, "edges", table, cells)?;
    let faces = optional_rows(alloc, "faces", table, cells)?;
    Ok(InitialFields { e, b, edges, faces })
}

/// The fields of a deck, zeros where it has no table `field`.
pub(crate) fn optional_fields(
    alloc: Global,
    table: &Table,
    cells: Cells,
) -> Result<InitialFields, WalkStop>
    ensures walks { WalksAs (λ (f : FieldsView). f)
        (optional no_field (fields cells.n) (codes "field") [] (table_view table.now)) result }
    ensures edges { IfOk result (λ f. AreRows cells.n f.edges) }
    ensures faces { IfOk result (λ f. AreRows cells.n f.faces) }
{
    match find_value("field", table) {
        Some(value) => read_fields(alloc, value, cells),
        None => Ok(InitialFields::none(alloc)),
    }
}
