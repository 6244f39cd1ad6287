//! The loops of current that drive a run.

ghost use Rattle.std.specs.Prelude.{◌≡◌, IfOk};

use pic_num::{Axis, Listed, NoMemory};
use std::alloc::Global;

/// The numbers of a loop's wave in their order, as a list.
pub type Wave = Listed<i64>;

/// A driven loop of current round a face: the axis and the cell of the face, and its wave. Each step of E
/// takes the scaled B of the face with the next number of the wave added, behind the last one the first
/// again. B itself stays.
#[derive(Debug, Drop)]
pub struct Loop {
    pub axis: Axis,
    pub cell: [u32; 3],
    pub wave: Wave,
}

/// The loops of a run, as a list.
pub type Loops = Listed<Loop>;

impl Loop {
    /// The same loop once more.
    pub fn copy(&self, alloc: Global) -> Result<Loop, NoMemory>
        ensures { IfOk result (λ l. l ≡ self.now) }
    {
        let wave = Vec::from_slice(alloc, self.wave.as_slice())?;
        Ok(Loop {
            axis: self.axis,
            cell: self.cell,
            wave: Wave::from_vec(wave),
        })
    }
}

/// The same loops once more.
pub fn copy_loops(alloc: Global, loops: &[Loop]) -> Result<Loops, NoMemory>
    ensures { IfOk result (λ ls. ls ≡ loops.now) }
{
    let mut copies = Vec::new(alloc);
    for one in loops {
        copies.push(one.copy(alloc)?)?;
    }
    Ok(Loops::from_vec(copies))
}
