//! The values of a field of a dump, read in pieces.

ghost use Rattle.std.specs.Prelude.{◌≡◌, ◌+◌, ◌*◌, ◌<◌, ◌≤◌, ◌^◌, length, IfOk, OnOk};
ghost use Rattle.pic_block.specs.Cells.{count_of};
ghost use Rattle.pic_fields.specs.Parser.{checked, each};
ghost use Rattle.pic_fields.specs.Number.{i128_at};
ghost use Rattle.pic_fields.specs.Reads.{Reads, always, as_it_is};
ghost use Rattle.pic_energy.specs.Energies.{IsBounded};
ghost use Rattle.pic_record.specs.Fields.{strong_value};
ghost use Rattle.pic_record.specs.FrameFields.{is_moderate, IsModerate, value_at, field_at, IsSameShape};
ghost use Rattle.pic_record.specs.Firsts.{FirstAre};

use crate::measure::Measure;
use pic_fields::{Ahead, Cause, ReadStop, fill, read_i128};
use pic_grid::Lattice;
use pic_io::Source;
use pic_num::Mult;

/// How many values a piece of 65536 bytes has.
const VALUES_OF_A_PIECE: usize = 1 << 12;

// Reads a field value.
fn read_value<S: Source>(source: &mut S, place: u64, by: &Measure) -> Result<i128, ReadStop>
    requires { place + 16 < 2 ^ 63 }
    ensures reads { Reads as_it_is (checked strong_value (is_moderate by.now) i128_at) place
        (place + 16) (S.told source.old) (S.told source.new) result }
    ensures bounds { IfOk result (λ v. IsModerate by.now v) }
{
    let value = read_i128(source, place)?;
    if !by.has_moderate(value) {
        return Err(Cause::StrongValue.at(place));
    }
    Ok(value)
}

// Reads values one after another.
fn read_values<S: Source>(
    source: &mut S,
    place: u64,
    by: &Measure,
    values: &mut [i128],
) -> Result<(), ReadStop>
    requires { place + 16 * length values.old < 2 ^ 63 }
    ensures reads { Reads (always values.new) (each (length values.old) (value_at by.now)) place
        (place + 16 * length values.old) (S.told source.old) (S.told source.new) result }
    ensures moderate { OnOk result (FirstAre (IsModerate by.now) (length values.old) values.new) }
{
    for i in 0..values.len() {
        values[i] = read_value(source, place + 16 * i as u64, by)?;
    }
    Ok(())
}

// Takes a piece of a field into the room, and reads its values.
fn read_piece_of_values<S: Source>(
    source: &mut S,
    room: &mut [u8],
    place: u64,
    by: &Measure,
    values: &mut [i128],
) -> Result<(), ReadStop>
    requires room { length room.old ≡ 16 * length values.old }
    requires place { place + 16 * length values.old < 2 ^ 63 }
    ensures reads { Reads (always values.new) (each (length values.old) (value_at by.now)) place
        (place + 16 * length values.old) (S.told source.old) (S.told source.new) result }
    ensures moderate { OnOk result (FirstAre (IsModerate by.now) (length values.old) values.new) }
{
    let taken = fill(source, room)?;
    let mut piece = Ahead::new(&room[..taken]);
    read_values(&mut piece, place, by, values)
}

/// Reads the values of a field in the order of places, in pieces of up to 65536 bytes.
pub fn read_field<S: Source>(
    source: &mut S,
    place: u64,
    by: Mult,
    field: &mut Lattice,
) -> Result<(), ReadStop>
    requires { place + 2 ^ 29 < 2 ^ 63 }
    ensures reads { Reads (always field.new.values) (field_at field.old.cells by) place
        (place + 16 * (3 * count_of field.old.cells))
        (S.told source.old) (S.told source.new) result }
    ensures shape { IsSameShape field.old field.new }
    ensures bounds { OnOk result (IsBounded by field.new) }
{
    let all = 3 * field.cells().count() as usize;
    let measure = Measure::new(by);
    let mut room = [0u8; 65536];
    let mut values = [0i128; VALUES_OF_A_PIECE];
    let mut first = 0;
    while first < all {
        let count = VALUES_OF_A_PIECE.min(all - first);
        let at = place + 16 * first as u64;
        let piece = &mut values[..count];
        read_piece_of_values(source, &mut room[..16 * count], at, &measure, piece)?;
        field.set_places(first, piece);
        first += count;
    }
    Ok(())
}
