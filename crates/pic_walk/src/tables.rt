//! Readers of tables, and of the values at their keys.

ghost use Rattle.std.specs.Prelude.{◌≡◌, ℕ, ℤ, pos, true, List, [], ◌∷◌, map, option_map, ◌<◌, ◌≤ℤ◌, IfOk, slice_index, slice_index_or};
ghost use Rattle.pic_num.specs.Multiplier.{Multiplier};
ghost use Rattle.toml.specs.Data.{get_member};
ghost use Rattle.toml.specs.View.{view, table_view};
ghost use Rattle.pic_walk.specs.Path.{path_of};
ghost use Rattle.pic_walk.specs.Limits.{MeetsLimits, FitsU32, FitsI32, limits_at};
ghost use Rattle.pic_walk.specs.Walk.{WalksAs, listed, keys_ascend, table_of, needed, need, optional, limited, whole, numbers, three, any_three, multiplier};

use crate::address::Address;
use crate::fault::WalkStop;
use crate::keys::first_unlisted;
use crate::limits::Limits;
use crate::numbers::{
    read_long, read_multiplier, read_number, read_numbers, read_signed_three, read_three,
    read_whole,
};
use pic_num::Mult;
use std::alloc::Global;
use toml::{Table, Value};

/// Refuses the table at a path where it has a key that isn't listed. It names the first such key of
/// the table, which is the least by byte order, since a table's keys ascend.
pub fn check_keys(alloc: Global, path: &str, keys: &[&str], table: &Table) -> Result<(), WalkStop>
    ensures walks { WalksAs (λ _. table_view table.now)
        (listed (map (λ k. k.now) keys.now) path.now (table_view table.now)) result }
    ensures ascend { keys_ascend (table_view table.now) ≡ true }
{
    match first_unlisted(keys, table) {
        Some(key) => Err(Address::new(path, key.as_str()).unknown_fault(alloc)),
        None => Ok(()),
    }
}

/// The value at a key of a table, where there is one.
pub fn find_value<'v>(key: &str, table: &'v Table) -> Option<&'v Value>
    ensures { option_map (λ v. view v.now) result ≡ get_member key.now (table_view table.now) }
{
    table.get(key)
}

/// The value at a key of the table at a path.
pub fn needed_value<'v>(
    alloc: Global,
    path: &str,
    key: &str,
    table: &'v Table,
) -> Result<&'v Value, WalkStop>
    ensures { WalksAs (λ v. view v.now) (needed key.now path.now (table_view table.now)) result }
{
    match table.get(key) {
        Some(value) => Ok(value),
        None => Err(Address::new(path, key).missing_fault(alloc)),
    }
}

/// The table at an address, which has only listed keys; `path` is the path of the address.
pub fn read_table<'v>(
    alloc: Global,
    address: Address<'_>,
    path: &str,
    keys: &[&str],
    value: &'v Value,
) -> Result<&'v Table, WalkStop>
    requires { path_of address ≡ path.now }
    ensures { WalksAs (λ t. table_view t.now)
        (table_of (map (λ k. k.now) keys.now) path.now (view value.now)) result }
{
    match value.as_table() {
        Some(table) => {
            check_keys(alloc, path, keys, table)?;
            Ok(table)
        }
        None => Err(address.kind_fault(alloc)),
    }
}

/// The table at a key of the document's own table, which has only listed keys.
pub fn need_table<'v>(
    alloc: Global,
    key: &str,
    keys: &[&str],
    table: &'v Table,
) -> Result<&'v Table, WalkStop>
    ensures { WalksAs (λ t. table_view t.now)
        (need (table_of (map (λ k. k.now) keys.now)) key.now [] (table_view table.now)) result }
{
    let value = needed_value(alloc, "", key, table)?;
    read_table(alloc, Address::new("", key), key, keys, value)
}

/// The whole number at a key of the table at a path, within limits that allow none below 0.
pub fn need_whole(
    alloc: Global,
    path: &str,
    key: &str,
    table: &Table,
    limits: Limits,
) -> Result<u32, WalkStop>
    requires { FitsU32 limits }
    ensures walks { WalksAs (λ (n : ℕ). n)
        (need (whole limits) key.now path.now (table_view table.now)) result }
    ensures bounds { IfOk result (λ n. MeetsLimits limits (pos n)) }
{
    let value = needed_value(alloc, path, key, table)?;
    read_whole(alloc, Address::new(path, key), value, limits)
}

/// The whole number at a key of the table at a path, of 64 bits, within limits that allow none
/// below 0.
pub fn need_long(
    alloc: Global,
    path: &str,
    key: &str,
    table: &Table,
    limits: Limits,
) -> Result<u64, WalkStop>
    requires { pos 0 ≤ℤ limits.low }
    ensures walks { WalksAs (λ (n : ℕ). n)
        (need (whole limits) key.now path.now (table_view table.now)) result }
    ensures bounds { IfOk result (λ n. MeetsLimits limits (pos n)) }
{
    let value = needed_value(alloc, path, key, table)?;
    read_long(alloc, Address::new(path, key), value, limits)
}

/// The whole number at a key of the table at a path, within its limits.
pub fn need_number(
    alloc: Global,
    path: &str,
    key: &str,
    table: &Table,
    limits: Limits,
) -> Result<i64, WalkStop>
    ensures walks { WalksAs (λ (z : ℤ). z)
        (need (limited limits) key.now path.now (table_view table.now)) result }
    ensures bounds { IfOk result (λ z. MeetsLimits limits z) }
{
    let value = needed_value(alloc, path, key, table)?;
    read_number(alloc, Address::new(path, key), value, limits)
}

/// The three whole numbers at a key of the table at a path, one an axis, within limits that allow
/// none below 0.
pub fn need_three(
    alloc: Global,
    path: &str,
    key: &str,
    table: &Table,
    limits: [Limits; 3],
) -> Result<[u32; 3], WalkStop>
    requires { (k : ℕ) → k < 3 → FitsU32 (limits_at limits k) }
    ensures walks { WalksAs (λ (ns : List ℕ). ns)
        (need (three limits) key.now path.now (table_view table.now)) result }
    ensures bounds { IfOk result (λ ns. (k : ℕ) → k < 3
        → MeetsLimits (limits_at limits k) (pos (slice_index ns k))) }
{
    let value = needed_value(alloc, path, key, table)?;
    read_three(alloc, Address::new(path, key), value, limits)
}

/// The three whole numbers at a key of the table at a path, one an axis, within limits of 32 bits.
pub fn need_signed_three(
    alloc: Global,
    path: &str,
    key: &str,
    table: &Table,
    limits: [Limits; 3],
) -> Result<[i32; 3], WalkStop>
    requires { (k : ℕ) → k < 3 → FitsI32 (limits_at limits k) }
    ensures walks { WalksAs (λ (zs : List ℤ). zs)
        (need (numbers limits) key.now path.now (table_view table.now)) result }
    ensures bounds { IfOk result (λ zs. (k : ℕ) → k < 3
        → MeetsLimits (limits_at limits k) (slice_index_or zs k (pos 0))) }
{
    let value = needed_value(alloc, path, key, table)?;
    read_signed_three(alloc, Address::new(path, key), value, limits)
}

/// The multiplier at a key of the table at a path.
pub fn need_multiplier(
    alloc: Global,
    path: &str,
    key: &str,
    table: &Table,
) -> Result<Mult, WalkStop>
    ensures { WalksAs (λ (m : Multiplier). m)
        (need multiplier key.now path.now (table_view table.now)) result }
{
    let value = needed_value(alloc, path, key, table)?;
    read_multiplier(alloc, Address::new(path, key), value)
}

/// The whole number at a key of the table at a path, within limits that allow none below 0, or this one
/// where the key is absent.
pub fn optional_whole(
    alloc: Global,
    path: &str,
    key: &str,
    table: &Table,
    absent: u32,
    limits: Limits,
) -> Result<u32, WalkStop>
    requires fits { FitsU32 limits }
    requires absent { MeetsLimits limits (pos absent) }
    ensures walks { WalksAs (λ (n : ℕ). n)
        (optional absent (whole limits) key.now path.now (table_view table.now)) result }
    ensures bounds { IfOk result (λ n. MeetsLimits limits (pos n)) }
{
    match find_value(key, table) {
        Some(value) => read_whole(alloc, Address::new(path, key), value, limits),
        None => Ok(absent),
    }
}

/// Three numbers of 64 bits at a key of the table at a path, or zeros where the key is absent.
pub fn optional_three(
    alloc: Global,
    path: &str,
    key: &str,
    table: &Table,
) -> Result<[i64; 3], WalkStop>
    ensures { WalksAs (λ (zs : List ℤ). zs)
        (optional (pos 0 ∷ pos 0 ∷ pos 0 ∷ []) (numbers any_three) key.now path.now
        (table_view table.now)) result }
{
    match find_value(key, table) {
        Some(value) => read_numbers(alloc, Address::new(path, key), value, [Limits::any(); 3]),
        None => Ok([0; 3]),
    }
}
