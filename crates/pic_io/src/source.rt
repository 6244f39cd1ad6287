//! What bytes come from.

ghost use Rattle.std.specs.Prelude.{◌≤◌, length, IfOk};
ghost use Rattle.pic_io.specs.Told.{Told, HasCause};
ghost use Rattle.pic_io.specs.Source.{Takes};

use crate::failed::Failed;

/// What bytes come from, such as standard input.
pub trait Source {
    // The bytes left, where they are known, and how many takes failed so far.
    ghost told: { Self → Told };

    /// Moves the first bytes left into the front of `room`, and returns how many.
    ///
    /// 0 bytes for a room that isn't empty are the end of the input. At an error no byte is taken.
    fn take(&mut self, room: &mut [u8]) -> Result<usize, Failed>
        ensures bound { IfOk result (λ n. n ≤ length room.new) }
        ensures bytes { Takes (told self.old) (told self.new) room.new result }
        ensures cause { HasCause (told self.old) (told self.new) result };
}
