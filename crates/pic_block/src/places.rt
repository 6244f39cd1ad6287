//! The order of places in a box of cells.

ghost use Rattle.std.specs.Prelude.{◌≡◌, ◌+◌, ◌*◌, ◌^◌, ◌<◌, ◌≤◌};
ghost use Rattle.pic_num.specs.Space.{triple, axis_number};
ghost use Rattle.pic_block.specs.Cells.{IsWithin, count_of, index_of, place_of};

use pic_num::Axis;

/// A place of a box of cells: the component's axis, and how far its cell lies above the lowest on x, y
/// and z.
#[derive(Clone, Copy, Debug, PartialEq, Eq)]
pub struct Place {
    pub axis: Axis,
    pub inner: [u32; 3],
}

impl Place {
    /// The first place of every box.
    pub fn first() -> Place
        ensures axis { axis_number result.axis ≡ 0 }
        ensures inner { triple result.inner ≡ record { x = 0; y = 0; z = 0 } }
    {
        Place {
            axis: Axis::X,
            inner: [0; 3],
        }
    }

    /// The place after this one in a box of `size` layers, x fastest, then y, z and the axis. After
    /// the last one it is one of the box again.
    pub fn following(self, size: [u32; 3]) -> Place
        requires within { IsWithin (triple self.inner) (triple size) }
        ensures within { IsWithin (triple result.inner) (triple size) }
        ensures number { let number = place_of (triple size) self.axis (triple self.inner) in
            number + 1 < 3 * count_of (triple size)
            → place_of (triple size) result.axis (triple result.inner) ≡ number + 1 }
    {
        let axis = self.axis;
        let [nx, ny, nz] = size;
        let [x, y, z] = self.inner;
        if x + 1 < nx {
            let inner = [x + 1, y, z];
            return Place { axis, inner };
        }
        if y + 1 < ny {
            let inner = [0, y + 1, z];
            return Place { axis, inner };
        }
        if z + 1 < nz {
            let inner = [0, 0, z + 1];
            return Place { axis, inner };
        }
        Place {
            axis: axis.next(),
            inner: [0, 0, 0],
        }
    }

    /// The place behind a run of `len` places from this one on, in a box of `size` layers. Behind the
    /// last place it is one of the box again.
    pub fn behind_run(self, len: usize, size: [u32; 3]) -> Place
        requires some { 0 < len }
        requires within { IsWithin (triple self.inner) (triple size) }
        requires inside { (triple self.inner).x + len ≤ (triple size).x }
        ensures within { IsWithin (triple result.inner) (triple size) }
        ensures number { let behind = place_of (triple size) self.axis (triple self.inner) + len in
            behind < 3 * count_of (triple size)
            → place_of (triple size) result.axis (triple result.inner) ≡ behind }
    {
        let [x, y, z] = self.inner;
        let last = Place {
            axis: self.axis,
            inner: [x + (len - 1) as u32, y, z],
        };
        last.following(size)
    }
}

/// The number of a cell among those of a box, x fastest.
#[tactic(auto, unfolding(crate::specs::Cells::index_of))]
pub fn index_in(size: [u32; 3], cell: [u32; 3]) -> usize
    requires within { IsWithin (triple cell) (triple size) }
    requires room { count_of (triple size) < 2 ^ 64 }
    ensures value { result ≡ index_of (triple size) (triple cell) }
    ensures below { result < count_of (triple size) }
{
    let [nx, ny, _] = size;
    let [x, y, z] = cell;
    (z as usize * ny as usize + y as usize) * nx as usize + x as usize
}

/// The number of a place of a box: the component's axis first, then the cell.
#[tactic(auto, unfolding(crate::specs::Cells::place_of))]
pub fn place_in(size: [u32; 3], axis: Axis, cell: [u32; 3]) -> usize
    requires within { IsWithin (triple cell) (triple size) }
    requires room { 3 * count_of (triple size) < 2 ^ 64 }
    ensures value { result ≡ place_of (triple size) axis (triple cell) }
    ensures below { result < 3 * count_of (triple size) }
{
    axis.number() as usize * count_in(size) + index_in(size, cell)
}

/// How many cells a box has.
pub fn count_in(size: [u32; 3]) -> usize
    requires { count_of (triple size) < 2 ^ 64 }
    ensures { result ≡ count_of (triple size) }
{
    let [x, y, z] = size;
    x as usize * y as usize * z as usize
}
