//! Decks that are refused for their ends.

use crate::displaced_decks::DISPLACED;
use crate::loop_decks::LOOPS;
use crate::pieces::{Case, Table};
use crate::probe_decks::PROBES;
use crate::reading::{same, words};
use pic_deck::read_deck;
use std::process::Abort;

fn reading(rt: &(impl AllocGlobal + Abort), text: &str) -> String {
    match read_deck(rt.alloc(), text.as_bytes()).err() {
        Some(fault) => words(rt, &fault),
        None => "read".to_string(rt.alloc()).expect(rt, "memory"),
    }
}

fn check_end(rt: &(impl AllocGlobal + Abort), front: &str, case: &Case) {
    let Case(end, wanted) = case;
    let text = format!(in rt.alloc(); "{front}{end}").expect(rt, "memory");
    same(rt, reading(rt, text.as_str()).as_str(), wanted);
}

fn check_table(rt: &(impl AllocGlobal + Abort), table: &Table) {
    let front = table.0.concat(rt.alloc()).expect(rt, "memory");
    for case in table.1 {
        check_end(rt, front.as_str(), case);
    }
}

fn check_tables(rt: &(impl AllocGlobal + Abort), tables: &[Table]) {
    for table in tables {
        check_table(rt, table);
    }
}

#[test]
fn ends_are_refused(rt: HostRuntime) {
    check_tables(&rt, &DISPLACED);
    check_tables(&rt, &LOOPS);
    check_tables(&rt, &PROBES);
}
