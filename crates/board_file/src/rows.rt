//! Keys that several tables have, or several kinds of which are alike.

ghost use Rattle.std.specs.Prelude.{◌≡◌, ◌≤◌, IfOk};
ghost use Rattle.toml.specs.View.{view, table_view};
ghost use Rattle.board_read.specs.Numbers.{address};
ghost use Rattle.board_file.specs.Rows.{number_or, port, addr_row, route_host_row};
ghost use Rattle.board_file.specs.Values.{text};

use crate::fault::{BoardFault, Key, KeyKind};
use crate::lookup::{faulted, value_at};
use crate::values::number;
use toml::{Table, Value};

/// A number that may be left out.
#[derive(Clone, Copy)]
pub struct NumberRow {
    /// Its key.
    pub key: Key,
    /// What stands for it where it is not there.
    pub default: u64,
    /// The least that it may be.
    pub least: u64,
    /// The most that it may be.
    pub most: u64,
}

/// The number that a row's key says.
///
/// # Errors
///
/// `WrongType` and `OutOfRange`.
pub fn number_or(table: &Table, row: NumberRow, entry: u32) -> Result<u64, BoardFault>
    requires { row.default ≤ row.most }
    ensures is { result ≡ number_or row.key row.default row.least row.most entry (table_view table.now) }
    ensures most { IfOk result (λ n. n ≤ row.most) }
    ensures least { IfOk result (λ n. row.least ≤ row.default → row.least ≤ n) }
{
    let judged = match value_at(table, row.key) {
        Some(value) => number(value, row.least, row.most),
        None => Ok(row.default),
    };
    faulted(row.key, entry, judged)
}

/// The port, 1 to 65535, that a key says, which has to be there.
///
/// # Errors
///
/// `Missing`, `WrongType` and `OutOfRange`.
pub fn port(table: &Table, key: Key, entry: u32) -> Result<u16, BoardFault>
    ensures { result ≡ port key entry (table_view table.now) }
{
    let judged = match value_at(table, key) {
        Some(value) => number(value, 1, 65_535),
        None => Err(KeyKind::Missing),
    };
    match faulted(key, entry, judged) {
        Ok(port) => Ok(port as u16),
        Err(fault) => Err(fault),
    }
}

// The address that a value is.
fn address(value: &Value) -> Result<[u8; 4], KeyKind>
    ensures { result ≡ text address (view value.now) }
{
    match value.as_str() {
        Some(text) => board_read::numbers::address(text.as_bytes()).ok_or(KeyKind::BadText),
        None => Err(KeyKind::WrongType),
    }
}

/// The address that a key says, which has to be there.
///
/// # Errors
///
/// `Missing`, `WrongType` and `BadText`.
pub fn addr(table: &Table, entry: u32) -> Result<[u8; 4], BoardFault>
    ensures { result ≡ addr_row entry (table_view table.now) }
{
    let judged = match value_at(table, Key::Addr) {
        Some(value) => address(value),
        None => Err(KeyKind::Missing),
    };
    faulted(Key::Addr, entry, judged)
}

/// The address of the host, by default 127.0.0.1, that a route leads to.
///
/// # Errors
///
/// `WrongType` and `BadText`.
pub fn route_host(table: &Table, entry: u32) -> Result<[u8; 4], BoardFault>
    ensures { result ≡ route_host_row entry (table_view table.now) }
{
    let judged = match value_at(table, Key::Host) {
        Some(value) => address(value),
        None => Ok([127, 0, 0, 1]),
    };
    faulted(Key::Host, entry, judged)
}
