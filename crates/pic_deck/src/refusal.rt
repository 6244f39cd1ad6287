//! Why a deck is refused.

ghost use Rattle.std.specs.Prelude.{◌≡◌};
ghost use Rattle.pic_deck.specs.Refusal.{refusal_of, deck_fault_of};

use pic_walk::{Fault, KeyPath, WalkStop};

/// Why a deck is refused: its bytes are no text, or its walk meets a fault.
#[derive(Debug, Drop)]
pub enum Refusal {
    /// The bytes are no TOML document.
    Text,
    /// A table has a key that isn't listed for it.
    Unknown {
        path: KeyPath,
    },
    /// A needed key isn't there.
    Missing {
        path: KeyPath,
    },
    /// A value isn't of the kind that its key wants.
    Kind {
        path: KeyPath,
    },
    /// A number isn't in `low..=high`.
    Limit {
        path: KeyPath,
        value: i128,
        low: i128,
        high: i128,
    },
    /// A text isn't a name that may stand there.
    Name {
        path: KeyPath,
    },
}

/// A refusal, or want of memory, which says nothing of the deck.
#[derive(Debug, Drop)]
pub enum DeckFault {
    Refused(Refusal),
    NoMemory,
}

fn refusal_of(fault: Fault) -> Refusal
    ensures { result ≡ refusal_of fault }
{
    match fault {
        Fault::Unknown { path } => Refusal::Unknown { path },
        Fault::Missing { path } => Refusal::Missing { path },
        Fault::Kind { path } => Refusal::Kind { path },
        Fault::Limit {
            path,
            value,
            low,
            high,
        } => Refusal::Limit {
            path,
            value,
            low,
            high,
        },
        Fault::Name { path } => Refusal::Name { path },
    }
}

impl From<WalkStop> for DeckFault {
    ghost use Rattle.pic_deck.specs.Refusal.{deck_fault_of};

    ghost from_gives = { λ stop fault. fault ≡ deck_fault_of stop };

    fn from(stop: WalkStop) -> DeckFault {
        match stop {
            WalkStop::Found(fault) => DeckFault::Refused(refusal_of(fault)),
            WalkStop::NoMemory => DeckFault::NoMemory,
        }
    }
}
