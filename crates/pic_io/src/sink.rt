//! What bytes go to.

ghost use Rattle.pic_io.specs.Told.{Told, HasCause};
ghost use Rattle.pic_io.specs.Sink.{Puts};

use crate::failed::Failed;

/// What bytes go to, such as standard output.
pub trait Sink {
    // The bytes held, where they are known, and how many puts failed so far.
    ghost told: { Self → Told };

    /// Appends the whole piece. At an error a front of it was appended, which may be empty.
    fn put(&mut self, piece: &[u8]) -> Result<(), Failed>
        ensures bytes { Puts (told self.old) (told self.new) piece.now result }
        ensures cause { HasCause (told self.old) (told self.new) result };
}
