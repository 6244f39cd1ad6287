//! The sources that a species may have its particles from.

ghost use Rattle.std.specs.Prelude.{◌≡◌, find};
ghost use Rattle.toml.specs.View.{table_view};
ghost use Rattle.pic_walk.specs.Walk.{WalksAs};
ghost use Rattle.pic_walk.specs.declared.fill_kind.FillKind.{FillKind as FillKindView};
ghost use Rattle.pic_walk.specs.FillKind.{sources, source_key, has, alone, only};

use crate::address::Address;
use crate::fault::WalkStop;
use crate::tables::find_value;
use FillKind::{Displace, Lattice, Pair, Points, Random};
use std::alloc::Global;
use toml::Table;

/// What a species may have its particles from.
#[derive(Clone, Copy, Debug, PartialEq, Eq)]
pub enum FillKind {
    Points,
    Lattice,
    Random,
    Pair,
    Displace,
}

impl FillKind {
    /// The key of the source.
    pub fn key(self) -> &'static str
        ensures { result.now ≡ source_key self }
    {
        match self {
            Points => "points",
            Lattice => "lattice",
            Random => "random",
            Pair => "pair",
            Displace => "displace",
        }
    }
}

const SOURCES_1: [FillKind; 4] = [Points, Lattice, Random, Pair];

const SOURCES: [FillKind; 5] = [Points, Lattice, Random, Pair, Displace];

fn sources(version: u32) -> &'static [FillKind]
    ensures { result.now ≡ sources version }
{
    if version == 1 { &SOURCES_1 } else { &SOURCES }
}

fn has(table: &Table, source: FillKind) -> bool
    ensures { result ≡ has (table_view table.now) source }
{
    find_value(source.key(), table).is_some()
}

// the first of some sources that is there
fn first_there(table: &Table, some: &[FillKind]) -> Option<FillKind>
    ensures { result ≡ find (has (table_view table.now)) some.now }
{
    some.iter().copied().find(|source| has(table, *source))
}

// a source, where no further one is there
fn alone(
    alloc: Global,
    path: &str,
    source: FillKind,
    further: Option<FillKind>,
) -> Result<FillKind, WalkStop>
    ensures { WalksAs (λ (s : FillKindView). s) (alone path.now source further) result }
{
    match further {
        Some(other) => Err(Address::new(path, other.key()).unknown_fault(alloc)),
        None => Ok(source),
    }
}

/// The source of the species that the table at a path is, in a deck of a version: the first that is
/// there, and no further one may be.
pub fn find_fill_kind(
    alloc: Global,
    path: &str,
    table: &Table,
    version: u32,
) -> Result<FillKind, WalkStop>
    ensures { WalksAs (λ (s : FillKindView). s)
        (only path.now (table_view table.now) (sources version)) result }
{
    let all = sources(version);
    for i in 0..all.len() {
        if has(table, all[i]) {
            let further = first_there(table, &all[i + 1..]);
            return alone(alloc, path, all[i], further);
        }
    }
    Err(Address::new(path, "points").missing_fault(alloc))
}
