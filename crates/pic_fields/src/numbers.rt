//! Fields that are numbers.

ghost use Rattle.std.specs.Prelude.{◌≡◌, ◌+◌, ◌<◌, ◌≤◌, ◌^◌, nat_eq, ◌≤ℤ◌, unsigned_abs, length, IfOk};
ghost use Rattle.pic_fields.specs.Causes.{cause_number};
ghost use Rattle.pic_fields.specs.Parser.{checked};
ghost use Rattle.pic_fields.specs.Number.{byte_at, u32_at, i32_at, i64_at, u128_at, i128_at, is_from_to};
ghost use Rattle.pic_fields.specs.Number.{within, is_between, between, is_at_most, at_most, exactly};
ghost use Rattle.pic_fields.specs.Reads.{Reads, always, as_it_is};

use crate::cause::Cause;
use crate::read_stop::ReadStop;
use crate::taking::take_field;
use pic_io::Source;

/// Reads a byte.
pub fn read_byte<S: Source>(source: &mut S, place: u64) -> Result<u8, ReadStop>
    requires { place + 1 < 2 ^ 63 }
    ensures { Reads as_it_is byte_at place (place + 1) (S.told source.old)
        (S.told source.new) result }
{
    let mut room = [0u8; 1];
    take_field(source, place, &mut room)?;
    Ok(room[0])
}

/// Reads an unsigned number of 4 bytes.
pub fn read_u32<S: Source>(source: &mut S, place: u64) -> Result<u32, ReadStop>
    requires { place + 4 < 2 ^ 63 }
    ensures { Reads as_it_is u32_at place (place + 4) (S.told source.old)
        (S.told source.new) result }
{
    let mut room = [0u8; 4];
    take_field(source, place, &mut room)?;
    Ok(u32::from_be_bytes(room))
}

/// Reads a signed number of 4 bytes.
pub fn read_i32<S: Source>(source: &mut S, place: u64) -> Result<i32, ReadStop>
    requires { place + 4 < 2 ^ 63 }
    ensures { Reads as_it_is i32_at place (place + 4) (S.told source.old)
        (S.told source.new) result }
{
    let mut room = [0u8; 4];
    take_field(source, place, &mut room)?;
    Ok(i32::from_be_bytes(room))
}

/// Reads a signed number of 8 bytes.
pub fn read_i64<S: Source>(source: &mut S, place: u64) -> Result<i64, ReadStop>
    requires { place + 8 < 2 ^ 63 }
    ensures { Reads as_it_is i64_at place (place + 8) (S.told source.old)
        (S.told source.new) result }
{
    let mut room = [0u8; 8];
    take_field(source, place, &mut room)?;
    Ok(i64::from_be_bytes(room))
}

/// Reads an unsigned number of 16 bytes.
pub fn read_u128<S: Source>(source: &mut S, place: u64) -> Result<u128, ReadStop>
    requires { place + 16 < 2 ^ 63 }
    ensures { Reads as_it_is u128_at place (place + 16) (S.told source.old)
        (S.told source.new) result }
{
    let mut room = [0u8; 16];
    take_field(source, place, &mut room)?;
    Ok(u128::from_be_bytes(room))
}

/// Reads a signed number of 16 bytes.
pub fn read_i128<S: Source>(source: &mut S, place: u64) -> Result<i128, ReadStop>
    requires { place + 16 < 2 ^ 63 }
    ensures { Reads as_it_is i128_at place (place + 16) (S.told source.old)
        (S.told source.new) result }
{
    let mut room = [0u8; 16];
    take_field(source, place, &mut room)?;
    Ok(i128::from_be_bytes(room))
}

/// Reads an unsigned number of 4 bytes from `low` to `high`; another is a fault of this cause.
pub fn read_within<S: Source>(
    source: &mut S,
    place: u64,
    cause: Cause,
    low: u32,
    high: u32,
) -> Result<u32, ReadStop>
    requires { place + 4 < 2 ^ 63 }
    ensures reads { Reads as_it_is (within (cause_number cause) low high) place (place + 4)
        (S.told source.old) (S.told source.new) result }
    ensures low { IfOk result (λ n. low ≤ n) }
    ensures high { IfOk result (λ n. n ≤ high) }
{
    let n = read_u32(source, place)?;
    if !is_from_to(low, high, n) {
        return Err(cause.at(place));
    }
    Ok(n)
}

/// Whether a number is one of those from `low` to `high`.
pub fn is_from_to(low: u32, high: u32, n: u32) -> bool
    ensures { result ≡ is_from_to low high n }
{
    low <= n && n <= high
}

/// Reads a signed number from `low` to `high`; another is a fault of this cause.
pub fn read_between<S: Source>(
    source: &mut S,
    place: u64,
    cause: Cause,
    low: i32,
    high: i32,
) -> Result<i32, ReadStop>
    requires { place + 4 < 2 ^ 63 }
    ensures reads { Reads as_it_is (between (cause_number cause) low high) place (place + 4)
        (S.told source.old) (S.told source.new) result }
    ensures low { IfOk result (λ n. low ≤ℤ n) }
    ensures high { IfOk result (λ n. n ≤ℤ high) }
{
    let n = read_i32(source, place)?;
    if !is_between(low, high, n) {
        return Err(cause.at(place));
    }
    Ok(n)
}

fn is_between(low: i32, high: i32, z: i32) -> bool
    ensures { result ≡ is_between low high z }
{
    low <= z && z <= high
}

/// Reads a signed number of 8 bytes that is at most so large in size; another is a fault of this cause.
pub fn read_at_most<S: Source>(
    source: &mut S,
    place: u64,
    cause: Cause,
    most: u64,
) -> Result<i64, ReadStop>
    requires { place + 8 < 2 ^ 63 }
    ensures reads { Reads as_it_is (at_most (cause_number cause) most) place (place + 8)
        (S.told source.old) (S.told source.new) result }
    ensures most { IfOk result (λ z. unsigned_abs z ≤ most) }
{
    let z = read_i64(source, place)?;
    if !is_at_most(most, z) {
        return Err(cause.at(place));
    }
    Ok(z)
}

fn is_at_most(most: u64, z: i64) -> bool
    ensures { result ≡ is_at_most most z }
{
    z.unsigned_abs() <= most
}

/// Reads a text, byte by byte; the first byte that is another is a fault of this cause.
pub fn read_exactly<S: Source>(
    source: &mut S,
    place: u64,
    cause: Cause,
    text: &[u8],
) -> Result<(), ReadStop>
    requires { place + length text.now < 2 ^ 63 }
    ensures { Reads (always text.now) (exactly (cause_number cause) text.now)
        place (place + length text.now) (S.told source.old) (S.told source.new) result }
{
    for index in 0..text.len() {
        read_letter(source, place + index as u64, cause, text[index])?;
    }
    Ok(())
}

// Reads one byte of a text.
fn read_letter<S: Source>(
    source: &mut S,
    place: u64,
    cause: Cause,
    letter: u8,
) -> Result<u8, ReadStop>
    requires { place + 1 < 2 ^ 63 }
    ensures reads { Reads as_it_is (checked (cause_number cause) (nat_eq letter) byte_at)
        place (place + 1) (S.told source.old) (S.told source.new) result }
    ensures same { IfOk result (λ n. n ≡ letter) }
{
    let byte = read_byte(source, place)?;
    if !is_same(letter, byte) {
        return Err(cause.at(place));
    }
    Ok(byte)
}

fn is_same(letter: u8, byte: u8) -> bool
    ensures { result ≡ nat_eq letter byte }
{
    letter == byte
}
