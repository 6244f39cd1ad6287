//! Laws of the frames and the end record of a dump. Each is the contract of a function that does
//! nothing.

ghost use Rattle.pic_record.specs.DueInTurn.{FramesAreDueInTurn};
ghost use Rattle.pic_record.specs.Readable.{FramesAreRead, FramesReadAreReadable, EndsAreRead};
ghost use Rattle.pic_record.specs.Spelling.{RecordsAreSpelled, NoRecordBeginsAnother};

/// The frames that a reader awaits, one after another, are those that a run puts: the first is that
/// of step 0, each next one that of the first step behind at which a frame is due, and the last that
/// of the last step.
pub fn frames_are_due_in_turn()
    ensures { FramesAreDueInTurn }
{}

/// The text of a frame within the limits of a layout is read as that frame where it is due, whatever
/// follows it.
pub fn frames_are_read()
    ensures { FramesAreRead }
{}

/// Every frame that is read is within the limits of the layout: its values are moderate, its particles
/// have the identities 0, 1, 2 and so on, lie in the box and have velocities that a push keeps, and its
/// energies are those of its state.
pub fn frames_read_are_readable()
    ensures { FramesReadAreReadable }
{}

/// The text of an end record that fits behind the last frame is read as that record, where nothing
/// follows it.
pub fn ends_are_read()
    ensures { EndsAreRead }
{}

/// Bytes that are read as a frame or an end record begin with its text, and under one header no
/// other record's text begins it.
pub fn records_have_one_spelling()
    ensures spelled { RecordsAreSpelled }
    ensures apart { NoRecordBeginsAnother }
{}
