//! Laws of a dump. Each is the contract of a function that does nothing.

ghost use Rattle.pic_dump.specs.Readable.{DumpsAreRead};
ghost use Rattle.pic_dump.specs.Spelling.{DumpsAreSpelled};
ghost use Rattle.pic_dump.specs.UpgradeSpelling.{UpgradesAreSpelled, VersionTwoStays};
ghost use Rattle.pic_dump.specs.Whole.{WholeIsExact};

/// The bytes of a dump are read as what was put: its header, its frames in their order, and its end
/// record. The header is within its limits, each frame too, with the step that is due in its turn, and
/// the end record fits behind the last of them.
pub fn dumps_are_read()
    ensures { DumpsAreRead }
{}

/// A dump has one spelling: bytes that are read up to an end record are the text of what was read.
pub fn dumps_have_one_spelling()
    ensures { DumpsAreSpelled }
{}

/// What an upgrade puts of a whole dump is the text of its header in version 2 and of the same frames
/// and end record. A dump of version 2 is put as it is, byte for byte.
pub fn upgrades_have_one_spelling()
    ensures spelled { UpgradesAreSpelled }
    ensures stays { VersionTwoStays }
{}

/// How many parts of a dump, its header and its frames, are whole before a place is one number: so what
/// was put before a read that failed is said exactly.
pub fn whole_parts_are_exact()
    ensures { WholeIsExact }
{}
