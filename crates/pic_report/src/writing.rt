//! One put, as the walk of a call sees it: a failed put names its side. An empty text is no put.

ghost use Rattle.std.specs.Prelude.{[], ◌∷◌};
ghost use Rattle.pic_io.specs.Told.{Told};
ghost use Rattle.pic_io.specs.Sinks.{sinks, Writes, WritesLine};

use pic_io::{Failed, Side, Sink};

/// Puts a line on the report.
pub fn put_line<R: Sink>(report: &mut R, line: &[u8]) -> Result<(), Side>
    ensures { WritesLine (R.told report.old) (R.told report.new) line.now result }
{
    if line.is_empty() {
        return Ok(());
    }
    match report.put(line) {
        Ok(()) => Ok(()),
        Err(Failed) => Err(Side::Report),
    }
}

/// Puts a text on out, with no line on the report.
pub fn put_out<O: Sink>(out: &mut O, text: &[u8]) -> Result<(), Side>
    ensures { (r : Told) → Writes (sinks (O.told out.old) r) (sinks (O.told out.new) r)
        (record { out = text.now; line = [] } ∷ []) result }
{
    if text.is_empty() {
        return Ok(());
    }
    match out.put(text) {
        Ok(()) => Ok(()),
        Err(Failed) => Err(Side::Out),
    }
}
