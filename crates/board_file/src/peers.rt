//! Entries of `peer`.

ghost use Rattle.std.specs.Prelude.{◌≡◌, ◌≤◌, map, zip, length, IfOk};
ghost use Rattle.toml.specs.View.{view, table_view};
ghost use Rattle.board_file.specs.declared.fault.Key.TheVariants as key;
ghost use Rattle.board_file.specs.Known.{only_known};
ghost use Rattle.board_file.specs.Tables.{entries};
ghost use Rattle.board_file.specs.Peers.{kind_named, connect_named, kind_row, chip_of, connect_of, takes_row, say_row, after_row, end_row, sayings, peer_keys, peer};
ghost use Rattle.board_file.specs.Values.{text};
ghost use Rattle.board_file.specs.Views.{Gives, bytes_of};

use crate::fault::{BoardError, BoardFault, Key, KeyKind, fault};
use crate::lookup::{faulted, only_known, value_at};
use crate::rows::{NumberRow, addr, number_or, port};
use crate::tables::tables_at;
use crate::values::{are_within, chunks, integers, number, numbers, texts};
use link_script::{Chunk, Connects, Peer, PeerKind};
use link_trait::Addr;
use std::alloc::{AllocError, Global};
use toml::{Table, Value};

const ROOM: NumberRow = NumberRow {
    key: Key::Room,
    default: 65_536,
    least: 0,
    most: 16_777_216,
};

// 0 stands for no call.
const FAIL: NumberRow = NumberRow {
    key: Key::Fail,
    default: 0,
    least: 1,
    most: 4_294_967_295,
};

const LAG: NumberRow = NumberRow {
    key: Key::Lag,
    default: 0,
    least: 0,
    most: 65_535,
};

fn kind_named(name: &str) -> Option<PeerKind>
    ensures { result ≡ kind_named name.now }
{
    if name == "client" {
        Some(PeerKind::Client)
    } else if name == "server" {
        Some(PeerKind::Server)
    } else if name == "udp" {
        Some(PeerKind::Udp)
    } else {
        None
    }
}

fn connect_named(name: &str) -> Option<Connects>
    ensures { result ≡ connect_named name.now }
{
    if name == "ok" {
        Some(Connects::Fine)
    } else if name == "refused" {
        Some(Connects::Refused)
    } else if name == "timeout" {
        Some(Connects::Timeout)
    } else {
        None
    }
}

// The kind that a value names.
fn kind_of(value: &Value) -> Result<PeerKind, KeyKind>
    ensures { result ≡ text kind_named (view value.now) }
{
    match value.as_str() {
        Some(name) => kind_named(name).ok_or(KeyKind::BadText),
        None => Err(KeyKind::WrongType),
    }
}

fn connect_in(value: &Value) -> Result<Connects, KeyKind>
    ensures { result ≡ text connect_named (view value.now) }
{
    match value.as_str() {
        Some(name) => connect_named(name).ok_or(KeyKind::BadText),
        None => Err(KeyKind::WrongType),
    }
}

fn kind(table: &Table, entry: u32) -> Result<PeerKind, BoardFault>
    ensures { result ≡ kind_row entry (table_view table.now) }
{
    let judged = match value_at(table, Key::Kind) {
        Some(value) => kind_of(value),
        None => Err(KeyKind::Missing),
    };
    faulted(Key::Kind, entry, judged)
}

// The port of the chip, which a server does not name.
fn chip(table: &Table, kind: PeerKind, entry: u32) -> Result<u16, BoardFault>
    ensures { result ≡ chip_of kind entry (table_view table.now) }
{
    match kind {
        PeerKind::Server => Ok(0),
        PeerKind::Client | PeerKind::Udp => port(table, Key::Chip, entry),
    }
}

// What a server answers to a connection, which others do not say.
fn connect(table: &Table, kind: PeerKind, entry: u32) -> Result<Connects, BoardFault>
    ensures { result ≡ connect_of kind entry (table_view table.now) }
{
    match kind {
        PeerKind::Server => {
            let judged = match value_at(table, Key::Connect) {
                Some(value) => connect_in(value),
                None => Ok(Connects::Fine),
            };
            faulted(Key::Connect, entry, judged)
        }
        PeerKind::Client | PeerKind::Udp => Ok(Connects::Fine),
    }
}

// At most 4096 numbers.
#[tactic(auto, using(crate::proofs::Judging::listed_wrong))]
fn takes(alloc: Global, table: &Table, entry: u32) -> Result<Vec<u32>, BoardError>
    ensures { Gives (λ v. v.items) result (takes_row entry (table_view table.now)) }
{
    let Some(value) = value_at(table, Key::Takes) else {
        return Ok(Vec::new(alloc));
    };
    let Some(items) = integers(value) else {
        return Err(fault(Key::Takes, entry, KeyKind::WrongType));
    };
    if items.len() > 4_096 {
        return Err(fault(Key::Takes, entry, KeyKind::OutOfRange));
    }
    match numbers(alloc, items, 65_536)? {
        Some(takes) => Ok(takes),
        None => Err(fault(Key::Takes, entry, KeyKind::OutOfRange)),
    }
}

// At most 256 chunks.
#[tactic(auto, using(crate::proofs::Judging::listed_wrong))]
fn say(alloc: Global, table: &Table, entry: u32) -> Result<Vec<Vec<u8>>, BoardError>
    ensures { Gives (λ v. bytes_of v.items) result (say_row entry (table_view table.now)) }
{
    let Some(value) = value_at(table, Key::Say) else {
        return Ok(Vec::new(alloc));
    };
    let Some(items) = texts(value) else {
        return Err(fault(Key::Say, entry, KeyKind::WrongType));
    };
    if items.len() > 256 {
        return Err(fault(Key::Say, entry, KeyKind::OutOfRange));
    }
    match chunks(alloc, items, 65_536)? {
        Some(chunks) => Ok(chunks),
        None => Err(fault(Key::Say, entry, KeyKind::BadText)),
    }
}

// The most that a number of `after` may be.
const AFTER_MOST: u32 = 16_777_216;

// One number for each of so many chunks.
#[tactic(auto, using(crate::proofs::Judging::beside_wrong))]
fn after(alloc: Global, table: &Table, many: usize, entry: u32) -> Result<Vec<u32>, BoardError>
    ensures { Gives (λ v. v.items) result (after_row many entry (table_view table.now)) }
{
    let Some(value) = value_at(table, Key::After) else {
        return Ok(vec![in alloc; 0; many]?);
    };
    let Some(items) = integers(value) else {
        return Err(fault(Key::After, entry, KeyKind::WrongType));
    };
    if !are_within(items, AFTER_MOST) {
        return Err(fault(Key::After, entry, KeyKind::OutOfRange));
    }
    if items.len() != many {
        return Err(fault(Key::After, entry, KeyKind::BadText));
    }
    match numbers(alloc, items, AFTER_MOST)? {
        Some(afters) => Ok(afters),
        None => Err(fault(Key::After, entry, KeyKind::OutOfRange)),
    }
}

// Chunks, each with the count after which it is said.
fn said(alloc: Global, afters: &[u32], chunks: Vec<Vec<u8>>) -> Result<Vec<Chunk>, AllocError>
    ensures { IfOk result (λ v. v.items ≡ map (λ p. record { after = p.0; bytes = p.1.items }) (zip afters.now chunks.items)) }
{
    afters
        .iter()
        .copied()
        .zip(chunks)
        .map(|(after, bytes)| Chunk { after, bytes })
        .collect(alloc)
}

#[tactic(auto, using(crate::proofs::Sayings::sayings_are))]
fn sayings(alloc: Global, table: &Table, entry: u32) -> Result<Vec<Chunk>, BoardError>
    ensures { Gives (λ v. v.items) result (sayings entry (table_view table.now)) }
{
    let chunks = say(alloc, table, entry)?;
    let afters = after(alloc, table, chunks.len(), entry)?;
    Ok(said(alloc, &afters, chunks)?)
}

// After how many bytes a peer ends, if it does.
fn end(table: &Table, entry: u32) -> Result<Option<u32>, BoardFault>
    ensures { result ≡ end_row entry (table_view table.now) }
{
    let Some(value) = value_at(table, Key::End) else {
        return Ok(None);
    };
    match faulted(Key::End, entry, number(value, 0, 16_777_216)) {
        Ok(end) => Ok(Some(end as u32)),
        Err(fault) => Err(fault),
    }
}

// Finds a key that a peer of this kind does not have.
fn only_of_kind(table: &Table, kind: PeerKind, entry: u32) -> Result<(), BoardFault>
    ensures { result ≡ only_known (peer_keys kind) entry (table_view table.now) }
{
    let own = match kind {
        PeerKind::Server => Key::Connect,
        PeerKind::Client | PeerKind::Udp => Key::Chip,
    };
    let keys = [
        Key::Kind,
        Key::Addr,
        Key::Port,
        own,
        Key::Takes,
        Key::Room,
        Key::Say,
        Key::After,
        Key::End,
        Key::Fail,
        Key::Lag,
    ];
    only_known(table, &keys, entry)
}

// The script that an entry says.
fn peer(alloc: Global, table: &Table, entry: u32) -> Result<Peer, BoardError>
    ensures { Gives (λ script. script) result (peer entry (table_view table.now)) }
{
    let kind = kind(table, entry)?;
    let ip = addr(table, entry)?;
    let port = port(table, Key::Port, entry)?;
    let chip = chip(table, kind, entry)?;
    let connect = connect(table, kind, entry)?;
    let takes = takes(alloc, table, entry)?;
    let room = number_or(table, ROOM, entry)?;
    let say = sayings(alloc, table, entry)?;
    let end = end(table, entry)?;
    let fail = number_or(table, FAIL, entry)?;
    let lag = number_or(table, LAG, entry)?;
    only_of_kind(table, kind, entry)?;
    Ok(Peer {
        kind,
        addr: Addr { ip, port },
        chip,
        connect,
        takes,
        room: room as u32,
        say,
        end,
        fail: fail as u32,
        lag: lag as u16,
    })
}

/// The peers of a file.
///
/// # Errors
///
/// The first fault of them, or want of memory.
#[tactic(auto, using(crate::proofs::Front::done_none, crate::proofs::Front::done_more, crate::proofs::Front::done_fault))]
pub fn peers(alloc: Global, file: &Table) -> Result<Vec<Peer>, BoardError>
    ensures gives { Gives (λ v. v.items) result (entries key.Peer peer (table_view file.now)) }
    ensures few { IfOk result (λ v. length v.items ≤ 64) }
{
    let tables = tables_at(alloc, file, Key::Peer)?;
    let mut peers = Vec::new(alloc);
    for i in 0..tables.len() {
        let peer = peer(alloc, tables[i], i as u32)?;
        peers.push(peer)?;
    }
    Ok(peers)
}
