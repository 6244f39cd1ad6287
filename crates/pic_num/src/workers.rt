//! How many workers share a step.

ghost use Rattle.std.specs.Prelude.{◌≡◌, ℕ, ◌<◌, ◌≤◌};
ghost use Rattle.pic_num.specs.Workers.{max_workers};

use std::marker::Model;

/// A number of workers, 1 to 64. Contracts see that number.
#[derive(Clone, Copy, Debug, PartialEq, Eq)]
pub struct Workers {
    count: u32,
}

impl Model for Workers {
    ghost Value = { ℕ };

    ghost view = { λ w. w.count };

    ghost invariant = { λ w. (0 < w.count) × (w.count ≤ max_workers) };

    ghost inverse = { λ count. record { count = count } };
}

impl Workers {
    /// So many workers.
    pub fn of(count: u32) -> Workers
        requires some { 0 < count }
        requires most { count ≤ max_workers }
        ensures { result ≡ count }
    {
        Workers { count }
    }

    /// How many they are.
    pub fn count(self) -> u32
        ensures value { result ≡ self }
        ensures some { 0 < result }
        ensures most { result ≤ max_workers }
    {
        self.count
    }
}
