//! The three axes, and three numbers by axis.

ghost use Rattle.std.specs.Prelude.{◌≡◌, ◌^◌, ◌<◌, EachIndex, slice_index};
ghost use Rattle.pic_num.specs.Space.{triple, spot, axis_number, next_axis, unwrapped};

/// One of the three axes, in the order x, y, z.
#[derive(Clone, Copy, Debug, PartialEq, Eq)]
pub enum Axis {
    X,
    Y,
    Z,
}

impl Axis {
    /// The axis's number, from 0.
    pub fn number(self) -> u32
        ensures { result ≡ axis_number self }
    {
        match self {
            Axis::X => 0,
            Axis::Y => 1,
            Axis::Z => 2,
        }
    }

    /// The axis of a number below 3.
    pub fn of_number(number: u32) -> Axis
        requires { number < 3 }
        ensures { axis_number result ≡ number }
    {
        match number {
            0 => Axis::X,
            1 => Axis::Y,
            _ => Axis::Z,
        }
    }

    /// The axis after this one, cyclically.
    pub fn next(self) -> Axis
        ensures { result ≡ next_axis self }
    {
        match self {
            Axis::X => Axis::Y,
            Axis::Y => Axis::Z,
            Axis::Z => Axis::X,
        }
    }
}

/// A cell of the grid, or a position in the box, as one that isn't wrapped.
#[inline(always)]
pub fn unwrapped(p: [u32; 3]) -> [i32; 3]
    requires { EachIndex p (λ k. slice_index p k < 2 ^ 31) }
    ensures { spot result ≡ unwrapped (triple p) }
{
    let [x, y, z] = p;
    [x as i32, y as i32, z as i32]
}
