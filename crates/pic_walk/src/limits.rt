//! The least and the greatest number that may stand somewhere.

ghost use Rattle.std.specs.Prelude.{◌≡◌, ◌≤◌, pos};
ghost use Rattle.pic_walk.specs.Limits.{from_to, either_way, any_limits, below, is_within};

/// The least and the greatest number that may stand at an address.
#[derive(Clone, Copy, Debug, PartialEq, Eq)]
pub struct Limits {
    pub low: i64,
    pub high: i64,
}

impl Limits {
    pub fn new(low: i64, high: i64) -> Limits
        ensures { result ≡ from_to low high }
    {
        Limits { low, high }
    }

    /// The numbers from the one to the other, none below 0.
    pub fn from_to(low: u32, high: u32) -> Limits
        ensures { result ≡ from_to (pos low) (pos high) }
    {
        Limits::new(i64::from(low), i64::from(high))
    }

    /// The numbers of at most this size.
    pub fn either_way(most: u32) -> Limits
        ensures { result ≡ either_way most }
    {
        let high = i64::from(most);
        Limits::new(-high, high)
    }

    /// All numbers of 64 bits.
    pub fn any() -> Limits
        ensures { result ≡ any_limits }
    {
        Limits::new(i64::MIN, i64::MAX)
    }

    /// The numbers from 0 to below `n`.
    pub fn below(n: u32) -> Limits
        requires { 1 ≤ n }
        ensures { result ≡ below n }
    {
        Limits::new(0, i64::from(n - 1))
    }

    /// Whether a number is within the limits.
    pub fn allow(self, value: i128) -> bool
        ensures { result ≡ is_within self value }
    {
        i128::from(self.low) <= value && value <= i128::from(self.high)
    }
}
