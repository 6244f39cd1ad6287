//! The keys of a table beside the listed ones.

ghost use Rattle.std.specs.Prelude.{◌≡◌, true, map, not, find, option_map, string_bytes};
ghost use Rattle.std.specs.BTreeMap.{keys as table_keys};
ghost use Rattle.toml.specs.View.{table_view};
ghost use Rattle.pic_walk.specs.Walk.{is_listed, first_unlisted, keys_ascend};

use toml::Table;

/// Whether the key is one of the listed ones.
pub fn is_listed(keys: &[&str], key: &str) -> bool
    ensures { result ≡ is_listed (map (λ k. k.now) keys.now) key.now }
{
    keys.contains(&key)
}

/// The first key of a table that isn't listed: the least of them, since the keys ascend.
pub fn first_unlisted<'a>(keys: &[&str], table: &'a Table) -> Option<&'a String>
    ensures first { option_map (λ k. string_bytes k.now) result
        ≡ first_unlisted (map (λ k. k.now) keys.now) (table_view table.now) }
    ensures ascend { keys_ascend (table_view table.now) ≡ true }
{
    find_unlisted(keys, table)
}

// the same, said of the table's own keys
fn find_unlisted<'a>(keys: &[&str], table: &'a Table) -> Option<&'a String>
    ensures first { option_map (λ k. k.now) result
        ≡ find (λ k. not (is_listed (map (λ k. k.now) keys.now) (string_bytes k)))
        (table_keys table.now) }
    ensures ascend { keys_ascend (table_view table.now) ≡ true }
{
    table.keys().find(|key| !is_listed(keys, key.as_str()))
}
