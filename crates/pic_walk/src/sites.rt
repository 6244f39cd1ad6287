//! Particles at the sites of a lattice.

ghost use Rattle.std.specs.Prelude.{◌≡◌, ◌≤◌, IfOk};
ghost use Rattle.toml.specs.View.{table_view};
ghost use Rattle.pic_num.specs.Limits.{most_side};
ghost use Rattle.pic_walk.specs.Bounds.{fastest, widest_gap};
ghost use Rattle.pic_walk.specs.Extent.{extent_of, most_extent, IsExtent};
ghost use Rattle.pic_walk.specs.declared.sites.Sites.{Sites as SitesView};
ghost use Rattle.pic_walk.specs.Limits.{thrice};
ghost use Rattle.pic_walk.specs.Points.{speed_limits};
ghost use Rattle.pic_walk.specs.Sites.{AreSites, place_limits, gap_limits, count_limits, sites};
ghost use Rattle.pic_walk.specs.Walk.{WalksAs};

use crate::bounds::{fastest, widest_gap};
use crate::extents::extent;
use crate::fault::WalkStop;
use crate::limits::Limits;
use crate::tables::{need_signed_three, need_three};
use crate::terms::Terms;
use pic_grid::Cells;
use pic_num::allowance_of;
use std::alloc::Global;
use toml::Table;

/// The sites of a lattice on which particles stand: the first of them and the way from one to the
/// next on each axis, in sub-cells, how many there are on each axis, and the velocity of all, in
/// 1/4096 sub-cell per step.
#[derive(Clone, Copy, Debug, PartialEq, Eq)]
pub struct Sites {
    pub first: [u32; 3],
    pub gap: [u32; 3],
    pub count: [u32; 3],
    pub v: [i32; 3],
}

fn place_limits(terms: Terms) -> [Limits; 3]
    ensures value { result ≡ place_limits terms.grid }
    ensures extent { IsExtent (extent_of terms.grid) }
{
    let [x, y, z] = extent(terms.cells());
    [Limits::below(x), Limits::below(y), Limits::below(z)]
}

fn gap_limits(terms: Terms) -> [Limits; 3]
    ensures value { result ≡ gap_limits terms }
    ensures most { widest_gap terms.version terms.grid.side ≤ most_extent }
{
    [Limits::from_to(0, widest_gap(terms)); 3]
}

fn count_limits(terms: Terms) -> [Limits; 3]
    ensures { result ≡ count_limits terms.version }
{
    [Limits::from_to(1, allowance_of(terms.version()).particles); 3]
}

/// The limits of a velocity on each axis.
pub(crate) fn velocity_limits(cells: Cells) -> [Limits; 3]
    ensures value { result ≡ thrice (speed_limits cells.side) }
    ensures most { fastest cells.side ≤ fastest most_side }
{
    [Limits::either_way(fastest(cells)); 3]
}

/// The keys of a lattice of sites in the table at a path; the first site is in the box.
pub fn read_sites(alloc: Global, path: &str, table: &Table, terms: Terms) -> Result<Sites, WalkStop>
    ensures walks { WalksAs (λ (s : SitesView). s) (sites terms path.now (table_view table.now))
        result }
    ensures limits { IfOk result (λ s. AreSites terms s) }
{
    let first = need_three(alloc, path, "first", table, place_limits(terms))?;
    let gap = need_three(alloc, path, "gap", table, gap_limits(terms))?;
    let count = need_three(alloc, path, "count", table, count_limits(terms))?;
    let v = need_signed_three(alloc, path, "v", table, velocity_limits(terms.cells()))?;
    Ok(Sites {
        first,
        gap,
        count,
        v,
    })
}
