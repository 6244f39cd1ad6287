//! The name of a species in a dump's header, read.

ghost use Rattle.std.specs.Prelude.{◌≡◌, ◌+◌, ◌<◌, ◌≤◌, ◌^◌, ℕ, List, IsTrue, length, nat_eq, bytes_eq, IfOk};
ghost use Rattle.std.specs.List.{list_all, list_any};
ghost use Rattle.pic_grid.specs.Species.{HeadView};
ghost use Rattle.pic_fields.specs.Reads.{Reads, as_it_is};
ghost use Rattle.pic_header.specs.HeaderFields.{name_of, is_name_field, is_new_name_field, name_at};

use crate::head::Head;
use pic_fields::{Cause, ReadStop, take_field};
use pic_io::Source;
use pic_num::{MAX_LETTERS, Text, are_name_bytes};

/// Reads the name of a species, which none of these species has.
#[tactic(auto, unfolding(crate::specs::HeaderFields::name_at))]
pub fn read_name<S: Source>(
    source: &mut S,
    place: u64,
    earlier: &[Head],
) -> Result<Text<MAX_LETTERS>, ReadStop>
    requires { place + 32 < 2 ^ 63 }
    ensures reads { Reads as_it_is (name_at earlier.now) place (place + 32) (S.told source.old)
        (S.told source.new) result }
    ensures new { IfOk result (λ name. (bytes : List ℕ)
        × IsTrue (is_new_name_field earlier.now bytes) × (length bytes ≡ 32)
        × (name ≡ name_of bytes)) }
{
    let mut room = [0u8; MAX_LETTERS];
    take_field(source, place, &mut room)?;
    if !is_new_name_field(earlier, &room) {
        return Err(Cause::OutOfLimits.at(place));
    }
    let mut name = Text::new();
    name.push(name_of(&room));
    Ok(name)
}

fn is_new_name_field(earlier: &[Head], bytes: &[u8]) -> bool
    ensures { result ≡ is_new_name_field earlier.now bytes.now }
{
    is_name_field(bytes) && !is_taken(earlier, name_of(bytes))
}

fn is_name_field(bytes: &[u8]) -> bool
    ensures { result ≡ is_name_field bytes.now }
{
    let name = name_of(bytes);
    1 <= name.len() && are_name_bytes(name) && are_zeros(&bytes[name.len()..])
}

// The bytes before the first zero.
fn name_of(bytes: &[u8]) -> &[u8]
    ensures name { result.now ≡ name_of bytes.now }
    ensures most { length result.now ≤ length bytes.now }
{
    for index in 0..bytes.len() {
        if bytes[index] == 0 {
            return &bytes[..index];
        }
    }
    bytes
}

fn are_zeros(bytes: &[u8]) -> bool
    ensures { result ≡ list_all (nat_eq 0) bytes.now }
{
    bytes.iter().all(|byte| is_zero(*byte))
}

fn is_zero(byte: u8) -> bool
    ensures { result ≡ nat_eq 0 byte }
{
    0 == byte
}

// Whether a species has this name.
fn is_taken(heads: &[Head], name: &[u8]) -> bool
    ensures { result ≡ list_any (λ (h : HeadView). bytes_eq h.name name.now) heads.now }
{
    heads.iter().any(|head| head.name.as_slice() == name)
}
