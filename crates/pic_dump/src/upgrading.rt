//! A dump, put again in the spelling of version 2.

ghost use Rattle.std.specs.Prelude.{◌≡◌, length, sum, None, Err};
ghost use Rattle.pic_record.specs.Layout.{IsLayout};
ghost use Rattle.pic_dump.specs.Allowed.{TakesAllowed, TakesHeader};
ghost use Rattle.pic_dump.specs.Upgrade.{Upgrades, UpgradesBehind, IsExact};
ghost use Rattle.pic_dump.specs.declared.upgrade_stop.UpgradeStop.TheVariants.{NoMemory};

use crate::dump_reader::{DumpReader, Next};
use crate::upgrade_stop::UpgradeStop;
use pic_grid::Snapshot;
use pic_header::put_header;
use pic_io::{Sink, Source};
use pic_record::{put_end, put_frame};
use std::alloc::Global;

/// Reads a dump to its end, puts it in the spelling of version 2, and answers how many frames it has.
///
/// Only the header changes; a dump of version 2 is put as it is. Each frame is put once it was read
/// whole, its energies included, and the end record once the input was found to end behind it. Gauss's
/// law isn't tested. All memory is taken before the first put: where it is wanted, nothing was put and
/// no byte behind the header was taken. At most one byte is taken past the length that the header allows.
///
/// # Errors
/// `UpgradeStop` with the first fault of the bytes (its place, counted from 0, and its cause), before
/// which all that is whole was put, but nothing where the header has the fault; a failed read, with the
/// header and the frames put that were taken whole before it; a failed write; or want of memory.
pub fn upgrade<S: Source, O: Sink>(
    alloc: Global,
    source: &mut S,
    out: &mut O,
) -> Result<u32, UpgradeStop>
    ensures upgrades { Upgrades (S.told source.old) (S.told source.new)
        (O.told out.old) (O.told out.new) result }
    ensures exactly { IsExact (S.told source.old) (S.told source.new)
        (O.told out.old) (O.told out.new) result }
    ensures taken { TakesAllowed (S.told source.old) (S.told source.new) }
    ensures no_memory { result ≡ Err NoMemory
        → TakesHeader (S.told source.old) (S.told source.new) }
{
    let (reader, header) = DumpReader::head(alloc, source)?;
    let mut state = reader.room(alloc)?;
    put_header(out, &header.upgraded())?;
    put_records(source, out, reader, &mut state)
}

// Puts the records behind the header.
fn put_records<S: Source, O: Sink>(
    source: &mut S,
    out: &mut O,
    reader: DumpReader,
    state: &mut Snapshot,
) -> Result<u32, UpgradeStop>
    requires e { state.old.e.cells ≡ reader.layout.cells }
    requires b { state.old.b.cells ≡ reader.layout.cells }
    requires particles { length state.old.particles.items ≡ sum reader.layout.counts }
    requires limits { IsLayout reader.layout }
    requires start { reader.last ≡ None }
    ensures { UpgradesBehind reader (S.told source.old) (S.told source.new)
        (O.told out.old) (O.told out.new) result }
{
    let mut reader = reader;
    let mut frames = 0u32;
    'records: loop {
        match reader.next(source, state)? {
            Next::Frame(behind, step, energies) => {
                put_frame(out, step, state, energies)?;
                reader = behind;
                frames += 1;
            }
            Next::End(mark) => {
                put_end(out, mark)?;
                return Ok(frames);
            }
        }
    }
}
