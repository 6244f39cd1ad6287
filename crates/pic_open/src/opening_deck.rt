//! The stages of a deck: it is read and walked, its particles are loaded and their species displaced,
//! Gauss's law is tested.

ghost use Rattle.pic_open.specs.Opened.{Loads, Opens, Tests};

use crate::gauss_test::find_break;
use crate::source_reader::{greatest_deck, read_all};
use crate::stage_stop::StageStop;
use pic_deck::{Deck, read_deck};
use pic_displace::displace;
use pic_io::Source;
use pic_load::load;
use pic_report::Early;
use pic_step::Start;
use std::alloc::Global;

/// A deck that can be run, and what its run begins with.
#[derive(Drop)]
pub struct Opened {
    pub deck: Deck,
    pub start: Start,
}

/// Opens the deck that the source gives, through all stages up to Gauss's law.
pub fn open<S: Source>(alloc: Global, source: &mut S) -> Result<Opened, StageStop>
    ensures { Opens (S.told source.old) (S.told source.new) result }
{
    let bytes = read_all(alloc, source, greatest_deck())?;
    let text: &[u8] = &bytes;
    let deck = read_deck(alloc, text)?;
    load_and_test(alloc, deck)
}

/// The stages of a deck behind its reading: its particles are loaded, E is made that of their displaced
/// start, and Gauss's law is tested.
pub fn load_and_test(alloc: Global, deck: Deck) -> Result<Opened, StageStop>
    ensures { Tests deck result }
{
    let start = load_displaced(alloc, &deck)?;
    let _limits = deck.version();
    match find_break(alloc, &deck, &start)? {
        None => Ok(Opened { deck, start }),
        Some(at) => Err(StageStop::Answer(Early::Gauss(at))),
    }
}

// What a deck's run begins with: its particles, as they are loaded, and the E of their displaced start.
fn load_displaced(alloc: Global, deck: &Deck) -> Result<Start, StageStop>
    ensures { Loads deck.now result }
{
    let particles = load(alloc, deck)?;
    let mut start = Start::new(alloc, deck, particles)?;
    displace(alloc, deck, &start.particles, &mut start.e)?;
    let _limits = deck.version();
    Ok(start)
}
