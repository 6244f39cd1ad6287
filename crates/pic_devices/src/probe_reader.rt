//! The table `probe` of a deck.

ghost use Rattle.std.specs.Prelude.{◌≡◌, ℕ, ℤ, pos, ◌<◌, ◌≤◌, List, [], All, None, codes, length, slice_index_or, IfOk};
ghost use Rattle.toml.specs.View.{view, table_view};
ghost use Rattle.pic_block.specs.Cells.{IsCells};
ghost use Rattle.pic_walk.specs.Path.{path_of};
ghost use Rattle.pic_walk.specs.Limits.{MeetsLimits, limits_at};
ghost use Rattle.pic_walk.specs.Walk.{WalksAs, list_by, table_of, optional};
ghost use Rattle.pic_devices.specs.declared.place.Place.{Place as PlaceView};
ghost use Rattle.pic_devices.specs.declared.probes.Probes.{Probes as ProbesView};
ghost use Rattle.pic_devices.specs.Probes.{IsPlace, AreProbes, most_places, most_ids, no_probes, probe_keys};
ghost use Rattle.pic_devices.specs.Probes.{place_limits, id_limits, place_from, place, place_list, id, id_list, probes};

use crate::list_reader::counted;
use crate::place::{Place, Places};
use crate::probes::{Ids, MAX_FIELD, MAX_IDS, MAX_PLACES, Probes};
use pic_grid::Cells;
use pic_num::Axis;
use pic_walk::{
    Address, Limits, WalkStop, find_value, read_elements, read_numbers, read_table, read_whole,
};
use std::alloc::Global;
use toml::{Table, Value};

fn place_limits(cells: Cells) -> [Limits; 5]
    ensures value { result ≡ place_limits cells.n }
    ensures limits { IsCells cells.n }
{
    let [nx, ny, nz] = cells.numbers();
    [
        Limits::from_to(0, MAX_FIELD),
        Limits::new(0, 2),
        Limits::below(nx),
        Limits::below(ny),
        Limits::below(nz),
    ]
}

fn id_limits(particles: u32) -> Limits
    ensures { result ≡ id_limits particles }
{
    Limits::new(0, i64::from(particles) - 1)
}

#[tactic(auto, unfolding(pic_walk::specs::Limits::limits_at))]
fn place_of(cells: Cells, numbers: [i64; 5]) -> Place
    requires { (k : ℕ) → k < 5 → MeetsLimits (limits_at (place_limits cells.n) k)
        (slice_index_or numbers k (pos 0)) }
    ensures value { result ≡ place_from numbers }
    ensures limits { IsPlace cells.n result }
{
    let _ = cells.numbers();
    Place {
        field: numbers[0] as u32,
        axis: Axis::of_number(numbers[1] as u32),
        cell: [numbers[2] as u32, numbers[3] as u32, numbers[4] as u32],
    }
}

// the place at an address
fn read_place(
    alloc: Global,
    address: Address<'_>,
    value: &Value,
    cells: Cells,
) -> Result<Place, WalkStop>
    requires { address.column ≡ None }
    ensures walks { (done : List PlaceView) → WalksAs (λ (p : PlaceView). p)
        (place cells.n done (path_of address.entry) (view value.now)) result }
    ensures limits { IfOk result (λ p. IsPlace cells.n p) }
{
    let numbers = read_numbers(alloc, address, value, place_limits(cells))?;
    Ok(place_of(cells, numbers))
}

// the places at an address, one by one
fn read_each_place(
    alloc: Global,
    address: Address<'_>,
    value: &Value,
    cells: Cells,
) -> Result<Vec<Place>, WalkStop>
    requires whole { address.row ≡ None }
    requires plain { address.column ≡ None }
    ensures walks { WalksAs (λ ps. ps.items)
        (list_by (place cells.n) (path_of address.entry) (view value.now)) result }
    ensures limits { IfOk result (λ ps. All (IsPlace cells.n) ps.items) }
{
    let items = read_elements(alloc, address, value)?;
    let mut places = Vec::new(alloc);
    for i in 0..items.len() {
        let place = read_place(alloc, address.element(i), &items[i], cells)?;
        places.push(place)?;
    }
    Ok(places)
}

// the places at an address
fn read_places(
    alloc: Global,
    address: Address<'_>,
    value: &Value,
    cells: Cells,
) -> Result<Places, WalkStop>
    requires whole { address.row ≡ None }
    requires plain { address.column ≡ None }
    ensures walks { WalksAs (λ (ps : List PlaceView). ps)
        (place_list cells.n (path_of address.entry) (view value.now)) result }
    ensures few { IfOk result (λ ps. length ps ≤ most_places) }
    ensures limits { IfOk result (λ ps. All (IsPlace cells.n) ps) }
{
    let places = read_each_place(alloc, address, value, cells)?;
    counted(alloc, address, places, Limits::from_to(0, MAX_PLACES))
}

// the identities at an address, one by one
fn read_each_id(
    alloc: Global,
    address: Address<'_>,
    value: &Value,
    particles: u32,
) -> Result<Vec<u32>, WalkStop>
    requires whole { address.row ≡ None }
    requires plain { address.column ≡ None }
    ensures walks { WalksAs (λ is. is.items)
        (list_by (id particles) (path_of address.entry) (view value.now)) result }
    ensures limits { IfOk result (λ is. All (λ i. i < particles) is.items) }
{
    let items = read_elements(alloc, address, value)?;
    let mut ids = Vec::new(alloc);
    for i in 0..items.len() {
        let id = read_whole(alloc, address.element(i), &items[i], id_limits(particles))?;
        ids.push(id)?;
    }
    Ok(ids)
}

// the identities at an address
fn read_ids(
    alloc: Global,
    address: Address<'_>,
    value: &Value,
    particles: u32,
) -> Result<Ids, WalkStop>
    requires whole { address.row ≡ None }
    requires plain { address.column ≡ None }
    ensures walks { WalksAs (λ (is : List ℕ). is)
        (id_list particles (path_of address.entry) (view value.now)) result }
    ensures few { IfOk result (λ is. length is ≤ most_ids) }
    ensures limits { IfOk result (λ is. All (λ i. i < particles) is) }
{
    let ids = read_each_id(alloc, address, value, particles)?;
    counted(alloc, address, ids, Limits::from_to(0, MAX_IDS))
}

// the places of the table `probe`, none where the key is absent
fn optional_places(alloc: Global, table: &Table, cells: Cells) -> Result<Places, WalkStop>
    ensures walks { WalksAs (λ (ps : List PlaceView). ps)
        (optional [] (place_list cells.n) (codes "places") (codes "probe") (table_view table.now))
        result }
    ensures few { IfOk result (λ ps. length ps ≤ most_places) }
    ensures limits { IfOk result (λ ps. All (IsPlace cells.n) ps) }
{
    match find_value("places", table) {
        Some(value) => read_places(alloc, Address::new("probe", "places"), value, cells),
        None => Ok(Places::from_vec(Vec::new(alloc))),
    }
}

// the identities of the table `probe`, none where the key is absent
fn optional_ids(alloc: Global, table: &Table, particles: u32) -> Result<Ids, WalkStop>
    ensures walks { WalksAs (λ (is : List ℕ). is)
        (optional [] (id_list particles) (codes "ids") (codes "probe") (table_view table.now))
        result }
    ensures few { IfOk result (λ is. length is ≤ most_ids) }
    ensures limits { IfOk result (λ is. All (λ i. i < particles) is) }
{
    match find_value("ids", table) {
        Some(value) => read_ids(alloc, Address::new("probe", "ids"), value, particles),
        None => Ok(Ids::from_vec(Vec::new(alloc))),
    }
}

fn probe_table(alloc: Global, value: &Value) -> Result<&Table, WalkStop>
    ensures { WalksAs (λ t. table_view t.now) (table_of probe_keys (codes "probe") (view value.now))
        result }
{
    read_table(
        alloc,
        Address::new("", "probe"),
        "probe",
        &["places", "ids"],
        value,
    )
}

/// The probes of a run on these cells with so many particles: the table `probe` of a deck.
pub fn read_probes(
    alloc: Global,
    value: &Value,
    cells: Cells,
    particles: u32,
) -> Result<Probes, WalkStop>
    ensures walks { WalksAs (λ (p : ProbesView). p)
        (probes cells.n particles (codes "probe") (view value.now)) result }
    ensures limits { IfOk result (λ p. AreProbes cells.n particles p) }
{
    let table = probe_table(alloc, value)?;
    let places = optional_places(alloc, table, cells)?;
    let ids = optional_ids(alloc, table, particles)?;
    Ok(Probes { places, ids })
}

/// The probes of a deck, none where it has no table `probe`.
pub fn optional_probes(
    alloc: Global,
    table: &Table,
    cells: Cells,
    particles: u32,
) -> Result<Probes, WalkStop>
    ensures walks { WalksAs (λ (p : ProbesView). p)
        (optional no_probes (probes cells.n particles) (codes "probe") [] (table_view table.now))
        result }
    ensures limits { IfOk result (λ p. AreProbes cells.n particles p) }
{
    match find_value("probe", table) {
        Some(value) => read_probes(alloc, value, cells, particles),
        None => Ok(Probes::none(alloc)),
    }
}
