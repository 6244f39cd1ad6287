//! A gate for tests, at which the workers 0 and 1 wait for one another, for a time.

ghost use Rattle.std.specs.Prelude.{◌≡◌};
ghost use Rattle.pic_gate.specs.Partners.{partner_at};

use crate::gate::{Gate, Point};
use std::hint::spin_loop;
use std::sync::atomic::{AtomicBool, Ordering};

// how often a worker looks for the other before it goes on alone
const MOST_TURNS: u32 = 16777216;

// the worker that another waits for
#[derive(Clone, Copy, Debug, PartialEq, Eq, Drop)]
pub(crate) enum Partner {
    First,
    Second,
}

// the partner of a worker that passes at a point, if it waits there
pub(crate) fn waits_for(worker: u32, point: Point) -> Option<Partner>
    ensures { result ≡ partner_at worker point }
{
    match point {
        Point::Posted => None,
        Point::Claimed => match worker {
            0 => Some(Partner::Second),
            1 => Some(Partner::First),
            _ => None,
        },
    }
}

// how far one of the two workers is
#[derive(Drop)]
struct Arrival {
    has_come: AtomicBool,
    has_met: AtomicBool,
}

impl Arrival {
    fn new() -> Arrival {
        Arrival {
            has_come: AtomicBool::new(false),
            has_met: AtomicBool::new(false),
        }
    }

    // comes, once, and waits for the other
    fn meet(&self, other: &Arrival) {
        if self.has_come.load(Ordering::SeqCst) {
            return;
        }
        self.has_come.store(true, Ordering::SeqCst);
        for _ in 0..MOST_TURNS {
            if other.has_come.load(Ordering::SeqCst) {
                self.has_met.store(true, Ordering::SeqCst);
                return;
            }
            spin_loop();
        }
    }
}

/// A gate at which the workers 0 and 1, each at its first claim, wait until the other has come to its
/// own, or for 16777216 turns.
#[derive(Drop)]
pub struct Hold {
    first: Arrival,
    second: Arrival,
}

impl Hold {
    /// A gate that no worker has passed.
    pub fn new() -> Hold {
        Hold {
            first: Arrival::new(),
            second: Arrival::new(),
        }
    }

    /// Whether both workers have come, and each before the other ran out of turns.
    pub fn met(&self) -> bool {
        self.first.has_met.load(Ordering::SeqCst) && self.second.has_met.load(Ordering::SeqCst)
    }
}

impl Gate for Hold {
    fn pass(&self, worker: u32, point: Point) {
        match waits_for(worker, point) {
            Some(Partner::First) => self.second.meet(&self.first),
            Some(Partner::Second) => self.first.meet(&self.second),
            None => {}
        }
    }
}
