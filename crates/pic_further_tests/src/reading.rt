//! What the tests share: the reading of a deck, its refusal in words, and its particles.

use pic_deck::{Deck, DeckFault, Refusal, read_deck};
use pic_load::load;
use pic_num::Particle;
use std::process::Abort;

/// The deck of a text.
pub fn deck_of(rt: &(impl AllocGlobal + Abort), text: &str) -> Deck {
    read_deck(rt.alloc(), text.as_bytes()).expect(rt, "a deck")
}

// the name of a fault, its path, and a limit's three numbers
fn parts(fault: &DeckFault) -> (&str, &str, [i128; 3]) {
    match fault {
        DeckFault::NoMemory => ("memory", "", [0; 3]),
        DeckFault::Refused(Refusal::Text) => ("text", "", [0; 3]),
        DeckFault::Refused(Refusal::Unknown { path }) => ("unknown", path.as_str(), [0; 3]),
        DeckFault::Refused(Refusal::Missing { path }) => ("missing", path.as_str(), [0; 3]),
        DeckFault::Refused(Refusal::Kind { path }) => ("kind", path.as_str(), [0; 3]),
        DeckFault::Refused(
            Refusal::Limit {
                path,
                value,
                low,
                high,
            },
        ) => ("limit", path.as_str(), [*value, *low, *high]),
        DeckFault::Refused(Refusal::Name { path }) => ("name", path.as_str(), [0; 3]),
    }
}

/// A fault in words: its name, its path, and the three numbers of a limit.
pub fn words(rt: &(impl AllocGlobal + Abort), fault: &DeckFault) -> String {
    let (name, path, numbers) = parts(fault);
    format!(in rt.alloc(); "{name} {path} {numbers:?}").expect(rt, "memory")
}

/// A text is this.
pub fn same(rt: &impl Abort, found: &str, wanted: &str) {
    assert_eq!(rt; found, wanted);
}

/// A particle's species, place and velocity; its identity is its number.
pub struct Told(pub u8, pub [u32; 3], pub [i32; 3]);

/// A deck's particles are these.
pub fn check_loaded(rt: &(impl AllocGlobal + Abort), text: &str, wanted: &[Told]) {
    let mut particles = Vec::new(rt.alloc());
    let mut id: u32 = 0;
    for told in wanted {
        let particle = Particle {
            id,
            species: told.0,
            x: told.1,
            v: told.2,
        };
        particles.push(particle).expect(rt, "memory");
        id = id.wrapping_add(1);
    }
    let found = load(rt.alloc(), &deck_of(rt, text)).expect(rt, "memory");
    assert!(rt; found.as_slice() == particles.as_slice());
}
