//! The limits of a deck's walk by its terms: version 1 and version 2, and the side of a cell.

use crate::decks::{changed, same, words};
use pic_deck::DeckFault;
use pic_grid::Cells;
use pic_num::Sub;
use pic_walk::{Terms, WalkStop, read_draw, read_sites};
use std::process::Abort;
use toml::{Table, table_from_str};

// a version and a power of two, a key and what is wrong there, and the refusal: its path and the
// three numbers of a limit
struct Case(u32, u32, &'static str, &'static str, &'static str);

const SITES: [Case; 9] = [
    Case(
        1,
        12,
        "gap",
        "[0, 262145, 0]",
        "limit s.gap[1] [262145, 0, 262144]",
    ),
    Case(
        2,
        12,
        "gap",
        "[0, 524289, 0]",
        "limit s.gap[1] [524289, 0, 524288]",
    ),
    Case(
        2,
        8,
        "gap",
        "[32769, 0, 0]",
        "limit s.gap[0] [32769, 0, 32768]",
    ),
    Case(
        1,
        12,
        "count",
        "[1048577, 1, 1]",
        "limit s.count[0] [1048577, 1, 1048576]",
    ),
    Case(
        2,
        14,
        "count",
        "[1, 4194305, 1]",
        "limit s.count[1] [4194305, 1, 4194304]",
    ),
    Case(
        1,
        12,
        "v",
        "[16777217, 0, 0]",
        "limit s.v[0] [16777217, -16777216, 16777216]",
    ),
    Case(
        2,
        8,
        "v",
        "[0, 0, -1048577]",
        "limit s.v[2] [-1048577, -1048576, 1048576]",
    ),
    Case(
        2,
        14,
        "v",
        "[67108865, 0, 0]",
        "limit s.v[0] [67108865, -67108864, 67108864]",
    ),
    Case(
        2,
        8,
        "first",
        "[0, 0, 512]",
        "limit s.first[2] [512, 0, 511]",
    ),
];

const DRAWS: [Case; 4] = [
    Case(
        1,
        12,
        "drift",
        "[8388609, 0, 0]",
        "limit s.drift[0] [8388609, -8388608, 8388608]",
    ),
    Case(
        2,
        8,
        "drift",
        "[524289, 0, 0]",
        "limit s.drift[0] [524289, -524288, 524288]",
    ),
    Case(
        1,
        12,
        "spread",
        "[0, 1048577, 0]",
        "limit s.spread[1] [1048577, 0, 1048576]",
    ),
    Case(
        2,
        14,
        "spread",
        "[0, 4194305, 0]",
        "limit s.spread[1] [4194305, 0, 4194304]",
    ),
];

// A table that is right.
const RIGHT: &str = "seed = 1
stream = 1
first = [1, 1, 1]
gap = [1, 1, 1]
count = [1, 1, 1]
v = [1, 1, 1]
drift = [1, 1, 1]
spread = [1, 1, 1]
";

// The same but for one value.
fn table(rt: &(impl AllocGlobal + Abort), wrong: &str, value: &str) -> Table {
    let old = format!(in rt.alloc(); "{wrong} = [1, 1, 1]").expect(rt, "memory");
    let new = format!(in rt.alloc(); "{wrong} = {value}").expect(rt, "memory");
    let text = changed(rt, RIGHT, old.as_str(), new.as_str());
    table_from_str(rt.alloc(), text.as_str()).expect(rt, "a table")
}

fn terms(rt: &(impl AllocGlobal + Abort), version: u32, bits: u32) -> Terms {
    let sub = Sub::new(bits).expect(rt, "a side");
    Terms::new(version, Cells::new([2; 3], sub))
}

fn is_refused(rt: &(impl AllocGlobal + Abort), stop: Option<WalkStop>, wanted: &str) {
    let fault = DeckFault::from(stop.expect(rt, "a limit"));
    same(rt, words(rt, &fault).as_str(), wanted);
}

fn check_sites(rt: &(impl AllocGlobal + Abort), case: &Case) {
    let by = terms(rt, case.0, case.1);
    let sites = read_sites(rt.alloc(), "s", &table(rt, case.2, case.3), by);
    is_refused(rt, sites.err(), case.4);
}

fn check_draw(rt: &(impl AllocGlobal + Abort), case: &Case) {
    let cells = terms(rt, case.0, case.1).cells();
    let draw = read_draw(rt.alloc(), "s", &table(rt, case.2, case.3), cells);
    is_refused(rt, draw.err(), case.4);
}

#[test]
fn limits_go_by_the_version_and_the_side(rt: HostRuntime) {
    for case in &SITES {
        check_sites(&rt, case);
    }
    for case in &DRAWS {
        check_draw(&rt, case);
    }
}
