//! The tables of a board file, and which of them a fault stands in.
ghost use Rattle.std.specs.Prelude.{◌≡◌};
ghost use Rattle.board_hints.specs.Places.{keys_of};

use board_file::{BoardFault, Key, KeyKind};
use board_read::numbers::address;
use toml::{Table, Value};

/// A kind of table in a board file.
#[derive(Clone, Copy, Debug, PartialEq, Eq)]
pub enum Place {
    /// The file itself.
    File,
    /// An entry of `listen`.
    Listen,
    /// An entry of `route`.
    Route,
    /// An entry of `peer` that is no server.
    Peer,
    /// An entry of `peer` that is a server.
    Server,
}

/// The keys that a table of this kind may have.
pub fn keys_of(place: Place) -> &'static [Key]
    ensures { result.now ≡ keys_of place }
{
    match place {
        Place::File => &[
            Key::TxStart,
            Key::RxStart,
            Key::Events,
            Key::Cycles,
            Key::Listen,
            Key::Route,
            Key::Peer,
        ],
        Place::Listen => &[Key::Chip, Key::Host],
        Place::Route => &[Key::Addr, Key::Port, Key::Host, Key::HostPort],
        Place::Peer => &[
            Key::Kind,
            Key::Addr,
            Key::Port,
            Key::Chip,
            Key::Takes,
            Key::Room,
            Key::Say,
            Key::After,
            Key::End,
            Key::Fail,
            Key::Lag,
        ],
        Place::Server => &[
            Key::Kind,
            Key::Addr,
            Key::Port,
            Key::Connect,
            Key::Takes,
            Key::Room,
            Key::Say,
            Key::After,
            Key::End,
            Key::Fail,
            Key::Lag,
        ],
    }
}

/// Whether a table of this kind may have a key of this name.
pub fn has(place: Place, name: &str) -> bool {
    keys_of(place).iter().any(|key| key.word() == name)
}

/// The first name in a table that is none of its kind's keys.
pub fn first_unknown(table: &Table, place: Place) -> Option<&str> {
    table
        .keys()
        .map(|name| name.as_str())
        .find(|name| !has(place, name))
}

/// An entry of an array of tables.
fn entry_at(file: &Table, key: Key, entry: u32) -> Option<&Table> {
    match file.get(key.word()) {
        Some(Value::Array(entries)) => match entries.get(entry as usize) {
            Some(Value::Table(table)) => Some(table),
            _ => None,
        },
        _ => None,
    }
}

/// Whether a value of a port or of an address has this fault.
fn is_faulty(value: &Value, is_port: bool, kind: KeyKind) -> bool {
    if is_port {
        return match value.as_integer() {
            Some(number) => kind == KeyKind::OutOfRange && (number < 1 || number > 65_535),
            None => kind == KeyKind::WrongType,
        };
    }
    match value.as_str() {
        Some(text) => kind == KeyKind::BadText && address(text.as_bytes()).is_none(),
        None => kind == KeyKind::WrongType,
    }
}

/// Whether an entry of `listen` or `route` has this fault.
fn stands_in(table: &Table, place: Place, fault: BoardFault) -> bool {
    if fault.kind == KeyKind::Unknown {
        return first_unknown(table, place).is_some();
    }
    if !has(place, fault.key.word()) {
        return false;
    }
    let is_port = place == Place::Listen || fault.key == Key::Port || fault.key == Key::HostPort;
    match table.get(fault.key.word()) {
        Some(value) => is_faulty(value, is_port, fault.kind),
        None => fault.kind == KeyKind::Missing,
    }
}

/// A table of a board file.
#[derive(Clone, Copy)]
pub struct Found<'a> {
    /// Its kind.
    pub place: Place,
    /// What it has.
    pub table: &'a Table,
}

/// The kind of an entry of `peer`.
fn kind_of_peer(table: &Table) -> Place {
    match table.get(Key::Kind.word()) {
        Some(Value::String(kind)) if kind.as_str() == "server" => Place::Server,
        _ => Place::Peer,
    }
}

/// The entry of `peer` in which a fault stands that stands in none of `listen` and `route`, or else the file itself.
fn in_peer_or_file(file: &Table, fault: BoardFault) -> Found<'_> {
    let whole = Found {
        place: Place::File,
        table: file,
    };
    let Some(table) = entry_at(file, Key::Peer, fault.entry) else {
        return whole;
    };
    let place = kind_of_peer(table);
    let is_here = fault.kind != KeyKind::Unknown || first_unknown(table, place).is_some();
    if is_here {
        Found { place, table }
    } else {
        whole
    }
}

/// The table in which the first fault of a file stands: tables are judged in the order listen, route, peer, and last the file's
/// own unknown keys.
pub fn place_of(file: &Table, fault: BoardFault) -> Found<'_> {
    if has(Place::File, fault.key.word()) {
        return Found {
            place: Place::File,
            table: file,
        };
    }
    if let Some(table) = entry_at(file, Key::Listen, fault.entry) {
        let place = Place::Listen;
        if stands_in(table, place, fault) {
            return Found { place, table };
        }
    }
    if let Some(table) = entry_at(file, Key::Route, fault.entry) {
        let place = Place::Route;
        if stands_in(table, place, fault) {
            return Found { place, table };
        }
    }
    in_peer_or_file(file, fault)
}
