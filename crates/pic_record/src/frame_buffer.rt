//! A buffer in which a part of a frame waits to be put.

ghost use Rattle.std.specs.Prelude.{◌≡◌, ◌+◌, ◌≤◌, [], length, OnOk};
ghost use Rattle.pic_io.specs.Told.{HasCause};
ghost use Rattle.pic_record.specs.Queues.{Queues};

use pic_io::{Failed, Sink};
use pic_num::Text;

/// Room for what waits to be put, so that a frame is few puts.
pub const BUFFER_BYTES: usize = 1 << 16;

/// A text that waits to be put.
pub type FrameBuffer = Text<BUFFER_BYTES>;

/// Puts what waits in the room where it has fewer than `count` bytes left.
pub fn make_room<O: Sink>(out: &mut O, room: &mut FrameBuffer, count: usize) -> Result<(), Failed>
    requires { count ≤ 65536 }
    ensures bytes { Queues (O.told out.old) (O.told out.new) room.old room.new [] result }
    ensures cause { HasCause (O.told out.old) (O.told out.new) result }
    ensures left { OnOk result (length room.new + count ≤ 65536) }
{
    if room.bytes().len() > BUFFER_BYTES - count {
        return put_all(out, room);
    }
    Ok(())
}

// Puts all that waits.
fn put_all<O: Sink>(out: &mut O, room: &mut FrameBuffer) -> Result<(), Failed>
    ensures bytes { Queues (O.told out.old) (O.told out.new) room.old room.new [] result }
    ensures cause { HasCause (O.told out.old) (O.told out.new) result }
    ensures after { OnOk result (room.new ≡ []) }
{
    out.put(room.bytes())?;
    *room = FrameBuffer::new();
    Ok(())
}
