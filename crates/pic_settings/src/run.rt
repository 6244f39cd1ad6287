//! The table `run` of a deck.

ghost use Rattle.std.specs.Prelude.{ℕ, ◌≤◌, [], codes, IfOk, OkIff};
ghost use Rattle.toml.specs.View.{table_view};
ghost use Rattle.pic_num.specs.Limits.{most_steps, allowance_of};
ghost use Rattle.pic_walk.specs.Walk.{WalksAs, table_of, need};
ghost use Rattle.pic_settings.specs.declared.run.Course.{Course as CourseView};
ghost use Rattle.pic_settings.specs.Keys.{run_keys, filter_in, run, steps_fit};

use pic_num::{MAX_STEPS, allowance_of};
use pic_walk::{Address, Limits, WalkStop, check_within, need_table, need_whole, optional_whole};
use std::alloc::Global;
use toml::Table;

/// How a run goes: how many steps it has, after how many a frame is due, and the filter of the current.
#[derive(Clone, Copy, Debug)]
pub struct Course {
    pub steps: u32,
    pub every: u32,
    pub filter: u32,
}

fn run_table(alloc: Global, table: &Table, version: u32) -> Result<&Table, WalkStop>
    ensures { WalksAs (λ t. table_view t.now)
        (need (table_of (run_keys version)) (codes "run") [] (table_view table.now)) result }
{
    if version == 1 {
        need_table(alloc, "run", &["steps", "every"], table)
    } else {
        need_table(alloc, "run", &["steps", "every", "filter"], table)
    }
}

// the filter of the current
fn read_filter(alloc: Global, table: &Table, version: u32) -> Result<u32, WalkStop>
    ensures walks { WalksAs (λ (n : ℕ). n) (filter_in version (table_view table.now)) result }
    ensures most { IfOk result (λ n. n ≤ (allowance_of version).filter) }
{
    if version == 1 {
        return Ok(0);
    }
    let allowed = allowance_of(version);
    let limits = Limits::from_to(0, allowed.filter);
    optional_whole(alloc, "run", "filter", table, 0, limits)
}

/// The table `run` of a deck of a version.
pub fn read_run(alloc: Global, table: &Table, version: u32) -> Result<Course, WalkStop>
    ensures walks { WalksAs (λ (c : CourseView). c) (run version (table_view table.now)) result }
    ensures steps { IfOk result (λ c. c.steps ≤ most_steps) }
    ensures every_low { IfOk result (λ c. 1 ≤ c.every) }
    ensures every_high { IfOk result (λ c. c.every ≤ most_steps) }
    ensures filter { IfOk result (λ c. c.filter ≤ (allowance_of version).filter) }
{
    let table = run_table(alloc, table, version)?;
    let steps = need_whole(
        alloc,
        "run",
        "steps",
        table,
        Limits::new(0, MAX_STEPS as i64),
    )?;
    let every = need_whole(
        alloc,
        "run",
        "every",
        table,
        Limits::new(1, MAX_STEPS as i64),
    )?;
    let filter = read_filter(alloc, table, version)?;
    Ok(Course {
        steps,
        every,
        filter,
    })
}

/// Refuses the steps of a run that goes on behind `least` steps, where they are fewer or too many, as
/// a deck with such a `run.steps` is refused.
pub fn check_steps(alloc: Global, least: u32, steps: u32) -> Result<(), WalkStop>
    ensures walks { WalksAs (λ _. tt) (steps_fit least steps) result }
    ensures exactly { OkIff result ((least ≤ steps) × (steps ≤ most_steps)) tt }
{
    let limits = Limits::from_to(least, MAX_STEPS);
    let address = Address::new("run", "steps");
    check_within(alloc, address, i128::from(steps), limits)?;
    Ok(())
}
