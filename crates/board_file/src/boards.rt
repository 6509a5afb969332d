//! Boards read from their files.
ghost use Rattle.std.specs.Prelude.{◌≡◌, IfOk};
ghost use Rattle.toml.specs.View.{table_view};
ghost use Rattle.board_file.specs.Boards.{document, file_keys, board, board_of, IsWithinLimits};
ghost use Rattle.board_file.specs.Known.{only_known};
ghost use Rattle.board_file.specs.Views.{Gives};

use crate::fault::{BoardError, BoardFault, Key, KeyKind, fault};
use crate::lookup::only_known;
use crate::peers::peers;
use crate::rows::{NumberRow, number_or};
use crate::setup::Board;
use crate::tables::{add_listens, add_routes};
use link_trait::Routes;
use std::alloc::Global;
use toml::Table;

const TX_START: NumberRow = NumberRow {
    key: Key::TxStart,
    default: 0,
    least: 0,
    most: 65_535,
};

const RX_START: NumberRow = NumberRow {
    key: Key::RxStart,
    default: 0,
    least: 0,
    most: 65_535,
};

const EVENTS: NumberRow = NumberRow {
    key: Key::Events,
    default: 33_554_432,
    least: 1,
    most: 67_108_864,
};

const CYCLES: NumberRow = NumberRow {
    key: Key::Cycles,
    default: 1_099_511_627_776,
    least: 1,
    most: 1_099_511_627_776,
};

// The table that a text is as TOML.
#[tactic(auto, using(crate::proofs::Lists::is_text, crate::proofs::Lists::is_no_text))]
fn document(alloc: Global, text: &[u8]) -> Result<Table, BoardError>
    ensures { Gives table_view result (document text.now) }
{
    let text = match std::str::from_utf8(text) {
        Ok(text) => text,
        Err(_) => return Err(fault(Key::File, 0, KeyKind::BadToml)),
    };
    match toml::table_from_str(alloc, text) {
        Ok(file) => Ok(file),
        Err(error) => {
            if error.is_memory() {
                Err(BoardError::NoMemory)
            } else {
                Err(fault(Key::File, 0, KeyKind::BadToml))
            }
        }
    }
}

// Finds a key that a file does not have.
fn only_of_file(file: &Table) -> Result<(), BoardFault>
    ensures { result ≡ only_known file_keys 0 (table_view file.now) }
{
    let keys = [
        Key::TxStart,
        Key::RxStart,
        Key::Events,
        Key::Cycles,
        Key::Listen,
        Key::Route,
        Key::Peer,
    ];
    only_known(file, &keys, 0)
}

// The board that a file's table says.
fn of_file(alloc: Global, file: &Table) -> Result<Board, BoardError>
    ensures gives { Gives (λ board. board) result (board (table_view file.now)) }
    ensures limits { IfOk result IsWithinLimits }
{
    let tx_start = number_or(file, TX_START, 0)?;
    let rx_start = number_or(file, RX_START, 0)?;
    let events = number_or(file, EVENTS, 0)?;
    let cycles = number_or(file, CYCLES, 0)?;
    let mut routes = Routes::new(alloc);
    add_listens(alloc, file, &mut routes)?;
    add_routes(alloc, file, &mut routes)?;
    let peers = peers(alloc, file)?;
    only_of_file(file)?;
    Ok(Board {
        tx_start: tx_start as u16,
        rx_start: rx_start as u16,
        events,
        cycles,
        routes,
        peers,
    })
}

/// Reads a board file.
///
/// # Errors
///
/// `Fault` exactly where the text says no board: its first fault, by the order of the keys in their tables. `NoMemory` where
/// memory is not there.
pub fn board(alloc: Global, text: &[u8]) -> Result<Board, BoardError>
    ensures gives { Gives (λ board. board) result (board_of text.now) }
    ensures limits { IfOk result IsWithinLimits }
{
    let file = document(alloc, text)?;
    of_file(alloc, &file)
}
