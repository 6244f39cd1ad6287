//! The table `scale` of a deck.

ghost use Rattle.std.specs.Prelude.{[], codes};
ghost use Rattle.toml.specs.View.{table_view};
ghost use Rattle.pic_num.specs.declared.mult.Scales.{Scales as ScalesView};
ghost use Rattle.pic_walk.specs.Walk.{WalksAs, table_of, need};
ghost use Rattle.pic_settings.specs.Keys.{scale_keys, scale};

use pic_num::Scales;
use pic_walk::{WalkStop, need_multiplier, need_table};
use std::alloc::Global;
use toml::Table;

fn scale_table(alloc: Global, table: &Table) -> Result<&Table, WalkStop>
    ensures { WalksAs (λ t. table_view t.now)
        (need (table_of scale_keys) (codes "scale") [] (table_view table.now)) result }
{
    need_table(
        alloc,
        "scale",
        &["e_to_b", "b_to_e", "e_force", "b_force"],
        table,
    )
}

/// The table `scale` of a deck.
pub fn read_scale(alloc: Global, table: &Table) -> Result<Scales, WalkStop>
    ensures { WalksAs (λ (s : ScalesView). s) (scale (table_view table.now)) result }
{
    let table = scale_table(alloc, table)?;
    let e_to_b = need_multiplier(alloc, "scale", "e_to_b", table)?;
    let b_to_e = need_multiplier(alloc, "scale", "b_to_e", table)?;
    let e_force = need_multiplier(alloc, "scale", "e_force", table)?;
    let b_force = need_multiplier(alloc, "scale", "b_force", table)?;
    Ok(Scales {
        e_to_b,
        b_to_e,
        e_force,
        b_force,
    })
}
