//! The demonstration's deck, against the text that says it.

use crate::decks::{deck_of, same, shown};
use std::process::Abort;

fn text_of(rt: &(impl AllocGlobal + Abort), seed: u32) -> String {
    let text = format!(in rt.alloc();
        "version = 1
[grid]
cells = [16, 16, 16]
tiles = [4, 4, 4]
[run]
steps = 16
every = 4
[scale]
e_to_b = [1, 4]
b_to_e = [1, 1]
e_force = [1, 30]
b_force = [1, 30]
[[species]]
name = \"electron\"
charge = -1
mass = 1
kick = [-1, 2]
turn = [-1, 0]
random = {{ count = 8192, seed = {seed}, stream = 54, drift = [0, 0, 0], spread = [1048576, 1048576, 1048576] }}
[[species]]
name = \"ion\"
charge = 1
mass = 1836
kick = [1, 10]
turn = [1, 10]
pair = {{ of = \"electron\", seed = {seed}, stream = 55, drift = [0, 0, 0], spread = [16384, 16384, 16384] }}
"
    );
    text.expect(rt, "memory")
}

fn read(rt: &(impl AllocGlobal + Abort), seed: u32) -> String {
    let text = text_of(rt, seed);
    shown(rt, &deck_of(rt, text.as_str()))
}

fn made(rt: &(impl AllocGlobal + Abort), seed: u32) -> String {
    let deck = pic_demo::deck_of(rt.alloc(), seed).expect(rt, "memory");
    shown(rt, &deck)
}

fn check_seed(rt: &(impl AllocGlobal + Abort), seed: u32) {
    same(rt, made(rt, seed).as_str(), read(rt, seed).as_str());
}

#[test]
fn the_text_is_read_as_the_deck(rt: HostRuntime) {
    for seed in [0u32, 7, 4294967295] {
        check_seed(&rt, seed);
    }
}
