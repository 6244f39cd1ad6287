//! A dump, read record by record.

ghost use Rattle.std.specs.Prelude.{◌≡◌, ◌+◌, ◌*◌, ◌<◌, ◌≤◌, ◌^◌, length, sum, Option, Some, None, Err, IfOk, IfSome, IsTrue};
ghost use Rattle.pic_fields.specs.declared.read_stop.ReadStop.TheVariants.{ReadFault};
ghost use Rattle.pic_header.specs.declared.head_stop.HeadStop.TheVariants.{Read};
ghost use Rattle.pic_grid.specs.Parts.{one_part};
ghost use Rattle.pic_header.specs.HeaderFields.{header_length, header_at, header_most};
ghost use Rattle.pic_fields.specs.Parser.{checked};
ghost use Rattle.pic_fields.specs.Number.{byte_at};
ghost use Rattle.pic_fields.specs.Reads.{Reads, as_it_is};
ghost use Rattle.pic_record.specs.Fields.{wrong_tag};
ghost use Rattle.pic_record.specs.FrameFields.{frame_length, IsSameShape};
ghost use Rattle.pic_header.specs.HeadReads.{HeadReads, TakesWithin, TakesLess};
ghost use Rattle.pic_record.specs.Layout.{IsLayout, layout_of};
ghost use Rattle.pic_dump.specs.NextReads.{NextReads, AtEnd};
ghost use Rattle.pic_record.specs.Records.{is_tag};

use pic_energy::Energies;
use pic_fields::{Cause, ReadStop, read_byte};
use pic_grid::{Cells, EndMark, Snapshot};
use pic_header::{HeadStop, Header, read_header};
use pic_io::Source;
use pic_num::Kind;
use pic_record::{Layout, due_after, read_end_record, read_frame};
use std::alloc::Global;
use std::marker::Model;

/// The mark of a frame.
const FRAME: u8 = b'F';

/// The mark of an end record.
const END: u8 = b'E';

/// The bytes of a frame's step and its energies.
const STEP_AND_ENERGIES_BYTES: u64 = 52;

/// The bytes of the values of E and B in a cell.
const CELL_BYTES: u64 = 96;

/// The bytes of a particle.
const PARTICLE_BYTES: u64 = 24;

/// A reader of a dump, which stands behind the header or a frame.
#[derive(Debug, Drop)]
pub struct DumpReader {
    layout: Layout,
    place: u64,
    last: Option<u32>,
}

impl Model for DumpReader {
    ghost use Rattle.pic_dump.specs.Standing.{Standing, IsStanding};

    ghost Value = { Standing };

    ghost view = { λ r. record { layout = r.layout; place = r.place; last = r.last } };

    ghost invariant = { λ r. IsStanding
        (record { layout = r.layout; place = r.place; last = r.last }) };
}

/// The next record of a dump.
#[derive(Debug, Drop)]
pub enum Next {
    /// A frame, whose fields and particles are in the snapshot: the reader behind it, its step, and
    /// its energies.
    Frame(DumpReader, u32, Energies),
    /// The end record, behind which nothing is.
    End(EndMark),
}

impl DumpReader {
    /// Reads the header, and answers it with a reader that stands behind it.
    ///
    /// The header is taken field by field: however the call ends, no byte behind a header that is good
    /// was taken, and of one that isn't none more than the longest field has, a name of 32 bytes,
    /// beyond the place of its first fault. Where a read failed not all bytes of the header were.
    pub fn head<S: Source>(alloc: Global, source: &mut S) -> Result<(DumpReader, Header), HeadStop>
        ensures reads { HeadReads (λ r. r.1) header_at 0
            header_length header_most
            (S.told source.old) (S.told source.new) result }
        ensures within { TakesWithin header_at 0 (S.told source.old) (S.told source.new) }
        ensures less { result ≡ Err (Read ReadFault)
            → TakesLess header_at 0 (S.told source.old) (S.told source.new) }
        ensures stands { IfOk result (λ r. r.0 ≡ record {
          layout = layout_of r.1;
          place = header_length r.1;
          last = None;
        }) }
    {
        let header = read_header(alloc, source)?;
        let reader = DumpReader::behind(alloc, &header)?;
        Ok((reader, header))
    }

    // A reader that stands behind a header.
    fn behind(alloc: Global, header: &Header) -> Result<DumpReader, pic_num::NoMemory>
        ensures stands { IfOk result (λ r. r ≡ record {
          layout = layout_of header.now;
          place = header_length header.now;
          last = None;
        }) }
        ensures most { header_length header.now ≤ header_most }
    {
        let place = header.length();
        let layout = Layout::of_header(alloc, header)?;
        Ok(DumpReader {
            layout,
            place,
            last: None,
        })
    }

    /// Room for the frames of this dump: a snapshot with its numbers of cells, in one part, and of
    /// particles.
    pub fn room(&self, alloc: Global) -> Result<Snapshot, pic_num::NoMemory>
        ensures e { IfOk result (λ s. (s.e.cells ≡ self.now.layout.cells)
            × (s.e.side ≡ self.now.layout.side)) }
        ensures b { IfOk result (λ s. (s.b.cells ≡ self.now.layout.cells)
            × (s.b.side ≡ self.now.layout.side)) }
        ensures parts { IfOk result (λ s. (s.e.parts ≡ one_part) × (s.b.parts ≡ one_part)) }
        ensures particles { IfOk result (λ s. length s.particles.items
            ≡ sum self.now.layout.counts) }
    {
        Snapshot::new(alloc, self.layout.cells(), self.layout.particles())
    }

    /// The numbers of cells of the dump's grid, and the side of a cell.
    pub fn cells(&self) -> Cells
        ensures value { result.n ≡ self.now.layout.cells }
        ensures side { result.side ≡ self.now.layout.side }
        ensures limits { IsLayout self.now.layout }
    {
        self.layout.cells()
    }

    /// The filter of the current: 0 for none, 1 for the binomial one.
    pub fn filter(&self) -> u32
        ensures value { result ≡ self.now.layout.filter }
        ensures limits { IsLayout self.now.layout }
    {
        self.layout.filter()
    }

    /// What the particles of each species have in common.
    pub fn kinds(&self) -> &[Kind]
        ensures value { result.now ≡ self.now.layout.kinds }
        ensures limits { IsLayout self.now.layout }
    {
        self.layout.kinds()
    }

    /// Reads the next record: a frame into the snapshot, or the end record and the end of the
    /// input.
    ///
    /// No byte behind the record is taken, but for one that tells that the input doesn't end there, and
    /// no memory; of a bad record at most a frame's bytes are taken, or 7 where no frame is due; where
    /// a read failed fewer than so many were taken. The snapshot has the header's
    /// numbers of cells and particles, and the end of the dump leaves it as it was. After a frame its
    /// values are within their bounds, and its particles have the identities 0, 1, 2 and so on, their
    /// species, and velocities that a push keeps. At an error the reader is gone.
    pub fn next<S: Source>(self, source: &mut S, state: &mut Snapshot) -> Result<Next, ReadStop>
        requires e { state.old.e.cells ≡ self.layout.cells }
        requires b { state.old.b.cells ≡ self.layout.cells }
        requires particles { length state.old.particles.items ≡ sum self.layout.counts }
        ensures reads { NextReads self (S.told source.old) (S.told source.new)
            state.new.e state.new.b state.new.particles.items result }
        ensures e { IsSameShape state.old.e state.new.e }
        ensures b { IsSameShape state.old.b state.new.b }
        ensures particles { length state.new.particles.items ≡ length state.old.particles.items }
        ensures kept { IfOk result (λ n. AtEnd n ((state.new.e ≡ state.old.e)
            × (state.new.b ≡ state.old.b)
            × (state.new.particles.items ≡ state.old.particles.items))) }
    {
        let DumpReader {
            layout,
            place,
            last,
        } = self;
        let due = due_after(layout.steps(), layout.every(), last);
        let body_place = place + 1;
        let tag = read_tag(source, place, due, last)?;
        if tag == FRAME {
            let step = due.unwrap_or(0);
            let energies = read_frame(source, body_place, &layout, step, state)?;
            let place = body_place + frame_length(&layout);
            let reader = DumpReader {
                layout,
                place,
                last: Some(step),
            };
            return Ok(Next::Frame(reader, step, energies));
        }
        let mark = read_end_record(source, body_place, &layout, last, due)?;
        Ok(Next::End(mark))
    }
}

// Reads the mark of a record.
fn read_tag<S: Source>(
    source: &mut S,
    place: u64,
    due: Option<u32>,
    last: Option<u32>,
) -> Result<u8, ReadStop>
    requires { place + 1 < 2 ^ 63 }
    ensures reads { Reads as_it_is (checked wrong_tag (is_tag due last) byte_at) place (place + 1)
        (S.told source.old) (S.told source.new) result }
    ensures passes { IfOk result (λ tag. IsTrue (is_tag due last tag)) }
{
    let tag = read_byte(source, place)?;
    if !is_tag(due, last, tag) {
        return Err(Cause::WrongTag.at(place));
    }
    Ok(tag)
}

fn is_tag(due: Option<u32>, last: Option<u32>, tag: u8) -> bool
    ensures { result ≡ is_tag due last tag }
{
    (due.is_some() && tag == FRAME) || (last.is_some() && tag == END)
}

// The bytes of a frame behind its mark.
fn frame_length(layout: &Layout) -> u64
    ensures value { result ≡ frame_length layout.now }
    ensures most { result < 2 ^ 29 }
{
    STEP_AND_ENERGIES_BYTES
        + CELL_BYTES * u64::from(layout.cells().count())
        + PARTICLE_BYTES * u64::from(layout.particles())
}
