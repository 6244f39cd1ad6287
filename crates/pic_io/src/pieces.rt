//! Copies between lists of bytes, with what they leave as it is.

ghost use Rattle.std.specs.Prelude.{◌≡◌, ◌+◌, ◌<◌, ◌≤◌, [], ◌++◌, length, take, drop, vec_len, vec_capacity};
ghost use Rattle.pic_io.specs.Memory.{moved_count};

// Copies as many bytes as fit, at most `most`, into the front of the room.
pub(crate) fn copy_front(from: &[u8], most: usize, room: &mut [u8]) -> usize
    ensures count { result ≡ moved_count from.now most (length room.old) }
    ensures front { take result room.new ≡ take result from.now }
    ensures rest { drop result room.new ≡ drop result room.old }

    // What was copied and what wasn't are all there was, and nothing is copied only at the end.
    ensures all { from.now ≡ take result room.new ++ drop result from.now }
    ensures end { 1 ≤ most → result ≡ 0 → 0 < length room.old → drop result from.now ≡ [] }
{
    let count = room.len().min(most.min(from.len()));
    room[..count].copy_from_slice(&from[..count]);
    count
}

// Appends the piece in the room that the bytes have, so it takes no memory.
pub(crate) fn append(bytes: &mut Vec<u8>, piece: &[u8])
    requires { vec_len bytes.old + length piece.now ≤ vec_capacity bytes.old }
    ensures items { bytes.new.items ≡ bytes.old.items ++ piece.now }
    ensures len { vec_len bytes.new ≡ vec_len bytes.old + length piece.now }
    ensures capacity { vec_capacity bytes.old ≤ vec_capacity bytes.new }
{
    bytes.extend_from_slice(piece).unwrap();
}
