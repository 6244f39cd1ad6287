//! Random events.

ghost use Rattle.std.specs.Prelude.{◌<◌};

use pic_core::Event;
use pic_tile::Dir;

/// Random numbers, of a linear congruential generator (Knuth's MMIX).
#[derive(Drop)]
pub(crate) struct Draws {
    pub(crate) state: u64,
}

impl Draws {
    // a number below `count`
    fn below(&mut self, count: u32) -> u32
        requires { 0 < count }
        ensures { result < count }
    {
        self.state = self
            .state
            .wrapping_mul(6364136223846793005)
            .wrapping_add(1442695040888963407);
        ((self.state / 4294967296) % u64::from(count)) as u32
    }

    // one of eight tiles
    fn tile(&mut self) -> u32 {
        self.below(8)
    }

    // one of all directions
    fn dir(&mut self) -> Dir {
        Dir::of(self.below(27))
    }

    /// An event of any tile and direction: of 28 one is a claim, three shut a tile, eight are posts
    /// and sixteen are merges.
    pub(crate) fn event(&mut self) -> Event {
        match self.below(28) {
            0 => Event::Claim(self.tile()),
            1..=3 => Event::Shut(self.tile()),
            4..=11 => Event::Post(self.tile(), self.dir()),
            _ => Event::Merge(self.tile(), self.dir()),
        }
    }
}
