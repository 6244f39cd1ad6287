//! Particles that are drawn at random.

ghost use Rattle.std.specs.Prelude.{◌≡◌, ◌≤◌, IfOk};
ghost use Rattle.pic_num.specs.Limits.{most_side};
ghost use Rattle.toml.specs.View.{table_view};
ghost use Rattle.pic_walk.specs.declared.draw.Draw.{Draw as DrawView};
ghost use Rattle.pic_walk.specs.Bounds.{fastest_drift, widest_spread};
ghost use Rattle.pic_walk.specs.Draw.{IsDraw, seed_limits, drift_limits, spread_limits, draw};
ghost use Rattle.pic_walk.specs.Walk.{WalksAs};

use crate::bounds::{fastest_drift, widest_spread};
use crate::fault::WalkStop;
use crate::limits::Limits;
use crate::tables::{need_long, need_signed_three, need_three};
use pic_grid::Cells;
use std::alloc::Global;
use toml::Table;

/// How particles are drawn at random: the generator by its seed and its stream, and on each axis
/// the mean of the velocities and their spread (standard deviation), in 1/4096 sub-cell per step.
#[derive(Clone, Copy, Debug, PartialEq, Eq)]
pub struct Draw {
    pub seed: u64,
    pub stream: u64,
    pub drift: [i32; 3],
    pub spread: [u32; 3],
}

fn seed_limits() -> Limits
    ensures { result ≡ seed_limits }
{
    Limits::new(0, i64::MAX)
}

fn drift_limits(cells: Cells) -> [Limits; 3]
    ensures value { result ≡ drift_limits cells.side }
    ensures most { fastest_drift cells.side ≤ fastest_drift most_side }
{
    [Limits::either_way(fastest_drift(cells)); 3]
}

fn spread_limits(cells: Cells) -> [Limits; 3]
    ensures value { result ≡ spread_limits cells.side }
    ensures most { widest_spread cells.side ≤ widest_spread most_side }
{
    [Limits::from_to(0, widest_spread(cells)); 3]
}

/// The keys of a draw in the table at a path, by the side of the cells.
pub fn read_draw(alloc: Global, path: &str, table: &Table, cells: Cells) -> Result<Draw, WalkStop>
    ensures walks { WalksAs (λ (d : DrawView). d)
        (draw cells.side path.now (table_view table.now)) result }
    ensures limits { IfOk result (λ d. IsDraw cells.side d) }
{
    let seed = need_long(alloc, path, "seed", table, seed_limits())?;
    let stream = need_long(alloc, path, "stream", table, seed_limits())?;
    let drift = need_signed_three(alloc, path, "drift", table, drift_limits(cells))?;
    let spread = need_three(alloc, path, "spread", table, spread_limits(cells))?;
    Ok(Draw {
        seed,
        stream,
        drift,
        spread,
    })
}
