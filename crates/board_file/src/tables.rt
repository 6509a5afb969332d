//! Arrays of tables, and the entries of `listen` and `route`.

ghost use Rattle.std.specs.Prelude.{◌≡◌, ◌≤◌, [], map, length, is_some, IfOk, OnOk};
ghost use Rattle.std.specs.List.{list_all};
ghost use Rattle.toml.specs.Data.{as_table, get_member};
ghost use Rattle.toml.specs.View.{view, table_view};
ghost use Rattle.board_file.specs.declared.fault.Key.TheVariants.{Listen, Route};
ghost use Rattle.board_file.specs.Keys.{word};
ghost use Rattle.board_file.specs.Judged.{each_from};
ghost use Rattle.board_file.specs.Tables.{table_at, tables_of, entries};
ghost use Rattle.board_file.specs.Boards.{listen, route};
ghost use Rattle.board_file.specs.Views.{Gives, tables};

use crate::fault::{BoardError, BoardFault, Key, KeyKind, fault};
use crate::lookup::{only_known, value_at};
use crate::rows::{addr, port, route_host};
use crate::values::items;
use link_trait::{Addr, Routes};
use std::alloc::Global;
use toml::{Table, Value};

// The tables that the entries of a key are.
#[tactic(auto, using(crate::proofs::Front::done_none, crate::proofs::Front::done_more, crate::proofs::Front::done_fault))]
fn table_list(alloc: Global, items: &[Value], key: Key) -> Result<Vec<&Table>, BoardError>
    ensures { Gives (λ v. tables v.items) result (each_from (table_at key) 0 (map view items.now)) }
{
    let mut tables = Vec::new(alloc);
    for i in 0..items.len() {
        // No memory holds an array whose entries `u32` does not count.
        let Ok(entry) = u32::try_from(i) else {
            return Err(BoardError::NoMemory);
        };
        match items[i].as_table() {
            Some(table) => tables.push(table)?,
            None => return Err(fault(key, entry, KeyKind::WrongType)),
        }
    }
    Ok(tables)
}

// Whether each of these is a table.
fn are_tables(items: &[Value]) -> bool
    ensures { result ≡ list_all (λ item. is_some (as_table (view item))) items.now }
{
    items.iter().all(|item| item.as_table().is_some())
}

/// The tables of a key, which may be left out. Where there are too many, no list of them is made.
///
/// # Errors
///
/// `WrongType` where it is no array or an entry is no table, `OutOfRange` where there are more than 64, or want of memory.
pub fn tables_at(alloc: Global, file: &Table, key: Key) -> Result<Vec<&Table>, BoardError>
    ensures gives { Gives (λ v. tables v.items) result (tables_of key (get_member (word key) (table_view file.now))) }
    ensures few { IfOk result (λ v. length v.items ≤ 64) }
{
    let Some(value) = value_at(file, key) else {
        return Ok(Vec::new(alloc));
    };
    let Some(entries) = items(value) else {
        return Err(fault(key, 0, KeyKind::WrongType));
    };
    if entries.len() > 64 && are_tables(entries) {
        return Err(fault(key, 0, KeyKind::OutOfRange));
    }
    match table_list(alloc, entries, key) {
        Ok(tables) if tables.len() <= 64 => Ok(tables),
        Ok(_) => Err(fault(key, 0, KeyKind::OutOfRange)),
        Err(error) => Err(error),
    }
}

// An entry of `listen`.
fn listen(table: &Table, entry: u32) -> Result<(u16, u16), BoardFault>
    ensures { result ≡ listen entry (table_view table.now) }
{
    let chip = port(table, Key::Chip, entry)?;
    let host = port(table, Key::Host, entry)?;
    only_known(table, &[Key::Chip, Key::Host], entry)?;
    Ok((chip, host))
}

// An entry of `route`.
fn route(table: &Table, entry: u32) -> Result<(Addr, Addr), BoardFault>
    ensures { result ≡ route entry (table_view table.now) }
{
    let from = Addr {
        ip: addr(table, entry)?,
        port: port(table, Key::Port, entry)?,
    };
    let to = Addr {
        ip: route_host(table, entry)?,
        port: port(table, Key::HostPort, entry)?,
    };
    only_known(
        table,
        &[Key::Addr, Key::Port, Key::Host, Key::HostPort],
        entry,
    )?;
    Ok((from, to))
}

/// Adds the entries of `listen`.
///
/// # Errors
///
/// The first fault of them, or want of memory.
#[tactic(auto, using(crate::proofs::Front::done_none, crate::proofs::Front::done_more, crate::proofs::Front::done_fault))]
pub fn add_listens(alloc: Global, file: &Table, routes: &mut Routes) -> Result<(), BoardError>
    requires { routes.old.listens ≡ [] }
    ensures gives { Gives (λ _. routes.new.listens) result (entries Listen listen (table_view file.now)) }
    ensures others { routes.new.routes ≡ routes.old.routes }
{
    let tables = tables_at(alloc, file, Key::Listen)?;
    for i in 0..tables.len() {
        let (chip, host) = listen(tables[i], i as u32)?;
        routes.listen(chip, host)?;
    }
    Ok(())
}

/// Adds the entries of `route`.
///
/// # Errors
///
/// The first fault of them, or want of memory.
#[tactic(auto, using(crate::proofs::Front::done_none, crate::proofs::Front::done_more, crate::proofs::Front::done_fault))]
pub fn add_routes(alloc: Global, file: &Table, routes: &mut Routes) -> Result<(), BoardError>
    requires { routes.old.routes ≡ [] }
    ensures gives { Gives (λ _. routes.new.routes) result (entries Route route (table_view file.now)) }
    ensures others { routes.new.listens ≡ routes.old.listens }
{
    let tables = tables_at(alloc, file, Key::Route)?;
    for i in 0..tables.len() {
        let (from, to) = route(tables[i], i as u32)?;
        routes.route(from, to)?;
    }
    Ok(())
}
