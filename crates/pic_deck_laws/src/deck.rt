//! Laws of a whole deck, and of its bytes.

ghost use Rattle.pic_deck_laws.specs.DeckTables.{DecksAreRead, DecksAreSpelled};
ghost use Rattle.pic_deck_laws.specs.DeckTests.{DecksAreRefused, DecksAreTested};

/// A deck is that of a document exactly where the document has its settings; its `field`, `species`,
/// `drive` and `probe`, or the deck has none of what a key says that is left out (the last two are no
/// keys of version 1); no other key; and no force value of its fields that is too large.
pub fn decks_are_spelled()
    ensures { DecksAreSpelled }
{}

/// The fault of a document is that of the first of its tests that fails: those of its keys, the
/// settings, the field, the species, the loops, the probes and the force values, in this order.
pub fn decks_are_tested()
    ensures { DecksAreTested }
{}

/// Bytes are accepted with a deck exactly where there are 1048576 at most, and they are a TOML document
/// in UTF-8 that spells this deck.
pub fn decks_are_read()
    ensures { DecksAreRead }
{}

/// A refusal is that of bytes exactly where there are too many, and it tells how many; where they are
/// no document, and it says so; or where it names the fault of the first test of their document that
/// fails.
pub fn decks_are_refused()
    ensures { DecksAreRefused }
{}
