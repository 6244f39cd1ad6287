//! The version of a deck, and its tables of the grid, the run and the scales.

ghost use Rattle.std.specs.Prelude.{IfOk};
ghost use Rattle.pic_num.specs.Space.{triple};
ghost use Rattle.toml.specs.View.{table_view};
ghost use Rattle.pic_walk.specs.Walk.{WalksAs};
ghost use Rattle.pic_settings.specs.declared.settings.Settings.{Settings as SettingsView};
ghost use Rattle.pic_settings.specs.Settings.{AreSettings};
ghost use Rattle.pic_settings.specs.Keys.{settings};

use crate::grid::read_grid;
use crate::run::read_run;
use crate::scale::read_scale;
use pic_grid::Cells;
use pic_num::{MAX_VERSION, Scales};
use pic_walk::{Limits, WalkStop, need_whole};
use std::alloc::Global;
use toml::Table;

/// What a deck says of the grid, the run and the scales.
#[derive(Clone, Copy, Debug)]
pub struct Settings {
    pub version: u32,
    pub cells: Cells,
    pub tiles: [u32; 3],
    pub steps: u32,
    pub every: u32,
    pub filter: u32,
    pub scales: Scales,
}

/// The version of a deck and its tables of the grid, the run and the scales.
pub fn read_settings(alloc: Global, table: &Table) -> Result<Settings, WalkStop>
    ensures walks { WalksAs (λ (s : SettingsView). s) (settings (table_view table.now)) result }
    ensures limits { IfOk result (λ s. AreSettings s.version s.cells (triple s.tiles) s.steps
        s.every s.filter) }
{
    let versions = Limits::from_to(1, MAX_VERSION);
    let version = need_whole(alloc, "", "version", table, versions)?;
    let (cells, tiles) = read_grid(alloc, table, version)?;
    let course = read_run(alloc, table, version)?;
    let scales = read_scale(alloc, table)?;
    Ok(Settings {
        version,
        cells,
        tiles,
        steps: course.steps,
        every: course.every,
        filter: course.filter,
        scales,
    })
}
