//! Keys looked up in a table.

ghost use Rattle.std.specs.Prelude.{◌≡◌, option_map, string_bytes};
ghost use Rattle.std.specs.List.{list_all};
ghost use Rattle.std.specs.Map.{keys_of};
ghost use Rattle.toml.specs.Data.{get_member};
ghost use Rattle.toml.specs.View.{view, table_view};
ghost use Rattle.board_file.specs.Keys.{word};
ghost use Rattle.board_file.specs.Judged.{faulted};
ghost use Rattle.board_file.specs.Known.{is_of, all_known, only_known};

use crate::fault::{BoardFault, Key, KeyKind};
use toml::{Table, Value};

/// The value at a key.
pub fn value_at(table: &Table, key: Key) -> Option<&Value>
    ensures { option_map (λ v. view v.now) result ≡ get_member (word key) (table_view table.now) }
{
    table.get(key.word())
}

/// What a key's value says: what is wrong with it is a fault of the key, in the entry with this number.
pub fn faulted<T>(key: Key, entry: u32, judged: Result<T, KeyKind>) -> Result<T, BoardFault>
    ensures { result ≡ faulted key entry judged }
{
    match judged {
        Ok(said) => Ok(said),
        Err(kind) => Err(BoardFault { key, entry, kind }),
    }
}

// Whether a name is that of one of these keys.
fn is_of(keys: &[Key], name: &str) -> bool
    ensures { result ≡ is_of keys.now name.now }
{
    keys.iter().any(|key| key.word() == name)
}

// Whether each key of a table is one of these.
fn all_known(table: &Table, keys: &[Key]) -> bool
    ensures listed { result ≡ list_all (λ name. is_of keys.now (string_bytes name)) (keys_of table.now.entries) }
{
    table.keys().all(|name| is_of(keys, name.as_str()))
}

#[tactic(auto, using(crate::proofs::Lists::known_by_name))]
/// Finds a key that the table does not have.
///
/// # Errors
///
/// `Unknown`, where there is one.
pub fn only_known(table: &Table, keys: &[Key], entry: u32) -> Result<(), BoardFault>
    ensures { result ≡ only_known keys.now entry (table_view table.now) }
{
    if all_known(table, keys) {
        Ok(())
    } else {
        Err(BoardFault {
            key: Key::Unknown,
            entry,
            kind: KeyKind::Unknown,
        })
    }
}
