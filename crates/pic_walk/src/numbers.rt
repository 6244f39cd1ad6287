//! Readers of single numbers, texts and arrays.

ghost use Rattle.std.specs.Prelude.{◌≡◌, ℤ, ℕ, pos, List, None, ◌<◌, ◌≤ℤ◌, IfOk, OnOk, OnErr, slice_index, slice_index_or, unsigned_abs, vec_len};
ghost use Rattle.pic_num.specs.Multiplier.{Multiplier};
ghost use Rattle.toml.specs.View.{view, array_view};
ghost use Rattle.pic_walk.specs.Path.{path_of};
ghost use Rattle.pic_walk.specs.Limits.{MeetsLimits, FitsU32, FitsI32, limits_at};
ghost use Rattle.pic_walk.specs.Walk.{WalksAs, within, limited, whole, text, elements, fixed, numbers, three, multiplier, multiplier_limits};

use crate::address::Address;
use crate::fault::WalkStop;
use crate::limits::Limits;
use pic_num::{MAX_NUMERATOR, MAX_SHIFT, Mult};
use std::alloc::Global;
use toml::Value;
use toml::value::Array;

/// Refuses a number at an address unless it is within its limits.
pub fn check_within(
    alloc: Global,
    address: Address<'_>,
    value: i128,
    limits: Limits,
) -> Result<(), WalkStop>
    ensures walks { WalksAs (λ _. value) (within limits (path_of address.entry) value) result }
    ensures bounds { OnOk result (MeetsLimits limits value) }
    ensures beyond { OnErr result (MeetsLimits limits value → ⊥) }
{
    if limits.allow(value) {
        Ok(())
    } else {
        Err(address.limit_fault(alloc, value, limits))
    }
}

/// The whole number at an address, within its limits.
pub fn read_number(
    alloc: Global,
    address: Address<'_>,
    value: &Value,
    limits: Limits,
) -> Result<i64, WalkStop>
    ensures walks { WalksAs (λ (z : ℤ). z) (limited limits (path_of address.entry) (view value.now))
        result }
    ensures bounds { IfOk result (λ z. MeetsLimits limits z) }
{
    match value.as_integer() {
        Some(number) => {
            check_within(alloc, address, i128::from(number), limits)?;
            Ok(number)
        }
        None => Err(address.kind_fault(alloc)),
    }
}

/// The whole number at an address, within limits that allow none below 0.
pub fn read_whole(
    alloc: Global,
    address: Address<'_>,
    value: &Value,
    limits: Limits,
) -> Result<u32, WalkStop>
    requires { FitsU32 limits }
    ensures walks { WalksAs (λ (n : ℕ). n) (whole limits (path_of address.entry) (view value.now))
        result }
    ensures bounds { IfOk result (λ n. MeetsLimits limits (pos n)) }
{
    let number = read_number(alloc, address, value, limits)?;
    Ok(number as u32)
}

/// The whole number at an address, of 64 bits, within limits that allow none below 0.
pub fn read_long(
    alloc: Global,
    address: Address<'_>,
    value: &Value,
    limits: Limits,
) -> Result<u64, WalkStop>
    requires { pos 0 ≤ℤ limits.low }
    ensures walks { WalksAs (λ (n : ℕ). n)
        (whole limits (path_of address.entry) (view value.now)) result }
    ensures bounds { IfOk result (λ n. MeetsLimits limits (pos n)) }
{
    let number = read_number(alloc, address, value, limits)?;
    Ok(number as u64)
}

/// The text at an address.
pub fn read_text<'v>(
    alloc: Global,
    address: Address<'_>,
    value: &'v Value,
) -> Result<&'v str, WalkStop>
    ensures { WalksAs (λ s. s.now) (text (path_of address.entry) (view value.now)) result }
{
    match value.as_str() {
        Some(text) => Ok(text),
        None => Err(address.kind_fault(alloc)),
    }
}

/// The array of any number of elements at an address.
pub fn read_elements<'v>(
    alloc: Global,
    address: Address<'_>,
    value: &'v Value,
) -> Result<&'v Array, WalkStop>
    ensures { WalksAs (λ v. array_view v.now) (elements (path_of address.entry) (view value.now))
        result }
{
    match value.as_array() {
        Some(items) => Ok(items),
        None => Err(address.kind_fault(alloc)),
    }
}

/// The array of so many elements at an address.
pub fn read_array<'v>(
    alloc: Global,
    address: Address<'_>,
    value: &'v Value,
    len: usize,
) -> Result<&'v Array, WalkStop>
    ensures walks { WalksAs (λ v. array_view v.now)
        (fixed len (path_of address.entry) (view value.now)) result }
    ensures len { IfOk result (λ v. vec_len v.now ≡ len) }
{
    match value.as_array() {
        Some(items) => {
            if items.len() == len {
                Ok(items)
            } else {
                Err(address.kind_fault(alloc))
            }
        }
        None => Err(address.kind_fault(alloc)),
    }
}

/// The array of whole numbers at an address, each within its own limits.
pub fn read_numbers<const N: usize>(
    alloc: Global,
    address: Address<'_>,
    value: &Value,
    limits: [Limits; N],
) -> Result<[i64; N], WalkStop>
    requires { address.column ≡ None }
    ensures walks { WalksAs (λ (zs : List ℤ). zs)
        (numbers limits.entry (path_of address.entry) (view value.now)) result }
    ensures bounds { IfOk result (λ zs. (k : ℕ) → k < N
        → MeetsLimits (limits_at limits.entry k) (slice_index_or zs k (pos 0))) }
{
    let items = read_array(alloc, address, value, N)?;
    let mut numbers = [0i64; N];
    for i in 0..N {
        numbers[i] = read_number(alloc, address.element(i), &items[i], limits[i])?;
    }
    Ok(numbers)
}

/// The three whole numbers at an address, one an axis, within limits that allow none below 0.
pub fn read_three(
    alloc: Global,
    address: Address<'_>,
    value: &Value,
    limits: [Limits; 3],
) -> Result<[u32; 3], WalkStop>
    requires plain { address.column ≡ None }
    requires fits { (k : ℕ) → k < 3 → FitsU32 (limits_at limits k) }
    ensures walks { WalksAs (λ (ns : List ℕ). ns)
        (three limits (path_of address.entry) (view value.now)) result }
    ensures bounds { IfOk result (λ ns. (k : ℕ) → k < 3
        → MeetsLimits (limits_at limits k) (pos (slice_index ns k))) }
{
    let numbers = read_numbers(alloc, address, value, limits)?;
    Ok([numbers[0] as u32, numbers[1] as u32, numbers[2] as u32])
}

/// The three whole numbers at an address, one an axis, within limits of 32 bits.
pub fn read_signed_three(
    alloc: Global,
    address: Address<'_>,
    value: &Value,
    limits: [Limits; 3],
) -> Result<[i32; 3], WalkStop>
    requires plain { address.column ≡ None }
    requires fits { (k : ℕ) → k < 3 → FitsI32 (limits_at limits k) }
    ensures walks { WalksAs (λ (zs : List ℤ). zs)
        (numbers limits (path_of address.entry) (view value.now)) result }
    ensures bounds { IfOk result (λ zs. (k : ℕ) → k < 3
        → MeetsLimits (limits_at limits k) (slice_index_or zs k (pos 0))) }
{
    let numbers = read_numbers(alloc, address, value, limits)?;
    Ok([numbers[0] as i32, numbers[1] as i32, numbers[2] as i32])
}

/// The multiplier `[n, k]` at an address.
pub fn read_multiplier(alloc: Global, address: Address<'_>, value: &Value) -> Result<Mult, WalkStop>
    requires { address.column ≡ None }
    ensures { WalksAs (λ (m : Multiplier). m) (multiplier (path_of address.entry) (view value.now))
        result }
{
    let numbers = read_numbers(alloc, address, value, multiplier_limits())?;
    Ok(multiplier_of(numbers[0], numbers[1]))
}

fn multiplier_limits() -> [Limits; 2]
    ensures { result ≡ multiplier_limits }
{
    [
        Limits::new(i64::from(-MAX_NUMERATOR), i64::from(MAX_NUMERATOR)),
        Limits::new(0, i64::from(MAX_SHIFT)),
    ]
}

#[tactic(auto, unfolding(crate::specs::Limits::limits_at))]
fn multiplier_of(n: i64, k: i64) -> Mult
    requires n { MeetsLimits (limits_at multiplier_limits 0) n }
    requires k { MeetsLimits (limits_at multiplier_limits 1) k }
    ensures { result ≡ record { n = n; k = unsigned_abs k } }
{
    Mult::new(n as i32, k as u32)
}
