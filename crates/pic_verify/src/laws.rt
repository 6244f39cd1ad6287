//! Laws of dumps: that of the verdict, and that what is put is verified. Each is the contract of a
//! function that does nothing.

ghost use Rattle.pic_verify.specs.Meaning.{VerdictLaw};
ghost use Rattle.pic_verify.specs.Readable.{DumpsAreVerified};
ghost use Rattle.pic_verify.specs.SmallDump.{SmallDumpIsGood};

/// What the verdict on some bytes means, said of each record by itself. The verdict is a number of
/// frames exactly where the bytes are a header, so many frames, each of the format, of the step that
/// is due and with Gauss's law at every node, and an end record that fits them, with nothing behind
/// it. It is a fault exactly where that is the header's, or that of the least record that isn't good;
/// and a break exactly where the least record that isn't good is a whole frame that breaks Gauss's
/// law, with its least node where it does. Record k begins behind the header and k frames, all of one
/// length. There is no other verdict.
pub fn law_of_the_verdict()
    ensures { VerdictLaw }
{}

/// The bytes of a dump are verified, with the number of its frames: of a header, frames in turn, each
/// within the limits and with Gauss's law at every node, and an end record that fits behind them. The
/// conditions can be met: a small dump with two particles does.
pub fn dumps_are_verified()
    ensures verified { DumpsAreVerified }
    ensures met { SmallDumpIsGood }
{}
