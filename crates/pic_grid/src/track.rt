//! The path of a particle in one step, as segments.

ghost use Rattle.std.specs.Prelude.{◌≡◌, ℕ, ◌<◌, ◌≤◌, List, length, take};
ghost use Rattle.pic_num.specs.Space.{spot};
ghost use Rattle.pic_grid.specs.Arrays.{array_of_spot};
ghost use Rattle.pic_grid.specs.Segment.{Piece};

use std::marker::Model;

/// One straight piece of a path, in sub-cells, and the cell that it lies in; nothing is wrapped.
#[derive(Clone, Copy, Debug)]
pub struct Segment {
    pub from: [i32; 3],
    pub to: [i32; 3],
    pub cell: [i32; 3],
}

impl Model for Segment {
    ghost Value = { Piece };

    ghost view = { λ s. record { from = spot s.from; to = spot s.to; cell = spot s.cell } };

    ghost invariant = { λ s. (length s.from ≡ 3) × (length s.to ≡ 3) × (length s.cell ≡ 3) };

    ghost inverse = { λ p. record {
      from = array_of_spot p.from;
      to = array_of_spot p.to;
      cell = array_of_spot p.cell;
    } };

    ghost inverse_ok = { λ s h i. record {
      from = Rattle.pic_grid.specs.Arrays.array_of_spot-spot s.from h.0 i;
      to = Rattle.pic_grid.specs.Arrays.array_of_spot-spot s.to h.1 i;
      cell = Rattle.pic_grid.specs.Arrays.array_of_spot-spot s.cell h.2 i;
    } };
}

/// A path of one step: 1 to 4 segments.
#[derive(Drop)]
pub struct Track {
    segments: [Segment; 4],
    count: usize,
}

impl Model for Track {
    ghost Value = { List Piece };

    ghost view = { λ t. take t.count t.segments };

    ghost invariant = { λ t. (0 < t.count) × (t.count ≤ 4) × (length t.segments ≡ 4) };
}

impl Track {
    /// The path of the first `count` segments, 1 to 4.
    pub fn new(segments: [Segment; 4], count: usize) -> Track
        requires least { 0 < count }
        requires most { count ≤ 4 }
        ensures { result ≡ take count segments }
    {
        Track { segments, count }
    }

    /// The segments, in the order of the path.
    pub fn segments(&self) -> &[Segment]
        ensures value { result.now ≡ self.now }
        ensures least { 0 < length self.now }
        ensures most { length self.now ≤ 4 }
    {
        &self.segments[..self.count]
    }
}
