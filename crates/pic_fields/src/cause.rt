//! The causes of a bad dump.

ghost use Rattle.std.specs.Prelude.{◌≡◌};
ghost use Rattle.pic_fields.specs.Causes.{cause_number};
ghost use Rattle.pic_fields.specs.declared.read_stop.ReadStop.TheVariants.{BadDump};

use crate::read_stop::ReadStop;

/// Why some bytes aren't of the format, each cause with its number.
#[derive(Clone, Copy, Debug, PartialEq, Eq)]
pub enum Cause {
    /// 1: a wrong byte in the mark of a dump.
    WrongLetter,
    /// 2: a number or a name of the header outside its limits.
    OutOfLimits,
    /// 3: a record that begins neither as a frame that is due nor as an end record.
    WrongTag,
    /// 4: a step that isn't the one that is due, or may not stand there.
    WrongStep,
    /// 5: a field value, or its force value, that is too large.
    StrongValue,
    /// 6: a position outside the box, or a velocity outside its range.
    OutOfRange,
    /// 7: an energy that isn't that of the frame.
    WrongEnergy,
    /// 8: a field of the end record outside its values.
    WrongEnd,
    /// 9: a field that the end of the input cuts.
    CutShort,
    /// 10: a byte behind the last field.
    TooMany,
}

impl Cause {
    /// The number of the cause.
    pub fn number(self) -> u8
        ensures { result ≡ cause_number self }
    {
        match self {
            Cause::WrongLetter => 1,
            Cause::OutOfLimits => 2,
            Cause::WrongTag => 3,
            Cause::WrongStep => 4,
            Cause::StrongValue => 5,
            Cause::OutOfRange => 6,
            Cause::WrongEnergy => 7,
            Cause::WrongEnd => 8,
            Cause::CutShort => 9,
            Cause::TooMany => 10,
        }
    }

    /// A fault of this cause at a place.
    pub fn at(self, place: u64) -> ReadStop
        ensures { result ≡ BadDump place (cause_number self) }
    {
        ReadStop::BadDump {
            place,
            cause: self.number(),
        }
    }
}
