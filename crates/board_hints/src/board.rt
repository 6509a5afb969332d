//! Hints on a board file.

use crate::look::{Look, look_of};
use crate::places::{Found, Place, first_unknown, has, place_of};
use board_file::{BoardFault, Key, KeyKind};
use std::alloc::{AllocError, Global};
use toml::Table;

/// The name of a table of this kind.
fn table_text(alloc: Global, place: Place, entry: u32) -> Result<String, AllocError> {
    match place {
        Place::File => String::from_str(alloc, "the file itself"),
        Place::Listen => format!(in alloc; "[[listen]] number {entry}, from 0,"),
        Place::Route => format!(in alloc; "[[route]] number {entry}, from 0,"),
        Place::Peer | Place::Server => format!(in alloc; "[[peer]] number {entry}, from 0,"),
    }
}

/// A name of a file as it can stand in a line: one that is long, or has other characters than those of a bare key, does not.
fn shown(name: &str) -> &str {
    let is_bare = |byte: &u8| byte.is_ascii_alphanumeric() || *byte == b'_' || *byte == b'-';
    if name.len() <= 64 && name.as_bytes().iter().all(is_bare) {
        name
    } else {
        "(one in quotes)"
    }
}

/// What to do about an unknown key.
fn remedy(place: Place, name: &str) -> &'static str {
    if place == Place::File && (name == "listens" || name == "routes" || name == "peers") {
        "; the tables are [[listen]], [[route]] and [[peer]]"
    } else if place != Place::File && has(Place::File, name) {
        "; a key of the file itself stands above the first [[..]]"
    } else if place == Place::Server && name == Key::Chip.word() {
        "; a server has none"
    } else if place == Place::Peer && name == Key::Connect.word() {
        "; a server alone has one"
    } else {
        ""
    }
}

/// Which key a table has that is none of its own.
fn unknown_hint(alloc: Global, found: Found<'_>, table: &str) -> Result<String, AllocError> {
    let name = first_unknown(found.table, found.place).unwrap_or("(none)");
    let (name, remedy) = (shown(name), remedy(found.place, name));
    format!(in alloc; "in the board file {table} has a key {name} that is none of its own{remedy}")
}

/// What is wrong with the value of a key.
fn words(fault: BoardFault) -> &'static str {
    match fault.kind {
        KeyKind::WrongType if matches!(fault.key, Key::Listen | Key::Route | Key::Peer) => {
            "is of another type; an array of tables is written [[..]], in double brackets"
        }
        KeyKind::Missing => "is not there",
        KeyKind::WrongType =>
            "is of another type: numbers stand without quotes, texts in quotes, lists in brackets",
        KeyKind::OutOfRange => "is out of its range, or its list is too long",
        KeyKind::BadText if fault.key == Key::After => "has not as many numbers as `say` has texts",
        KeyKind::BadText =>
            "is a text that does not fit: no address, no such word, or no pairs of hexadecimal digits",
        KeyKind::Unknown => "is not known",
        KeyKind::BadToml => "is no TOML",
    }
}

/// Where in a file that is TOML its fault stands.
fn key_hint(alloc: Global, file: &Table, fault: BoardFault) -> Result<String, AllocError> {
    let found = place_of(file, fault);
    let table = table_text(alloc, found.place, fault.entry)?;
    if fault.kind == KeyKind::Unknown {
        return unknown_hint(alloc, found, table.as_str());
    }
    let (key, words, table) = (fault.key.word(), words(fault), table.as_str());
    format!(in alloc; "in the board file {key} of {table} {words}")
}

/// The number, from 1, of the line of a place in a text.
fn line_of(text: &[u8], place: usize) -> usize {
    let before = &text[..place.min(text.len())];
    before
        .iter()
        .filter(|byte| **byte == b'\n')
        .count()
        .saturating_add(1)
}

/// Where a text is no TOML, or else where its fault stands.
fn text_hint(alloc: Global, text: &str, fault: BoardFault) -> Result<String, AllocError> {
    match toml::table_from_str(alloc, text) {
        Ok(file) => key_hint(alloc, &file, fault),
        Err(error) => match error.span() {
            Some(span) => {
                let (line, message) = (line_of(text.as_bytes(), span.start), error.message());
                format!(in alloc; "the board file is no TOML at line {line}: {message}")
            }
            None => Err(AllocError),
        },
    }
}

/// What a board's file with this fault looks like, or where in it the fault stands.
///
/// # Errors
///
/// Out of memory alone.
pub fn board_hint(alloc: Global, file: &[u8], fault: BoardFault) -> Result<String, AllocError> {
    // What is TOML is no other kind of file.
    let look = if fault.kind == KeyKind::BadToml {
        look_of(file)
    } else {
        Look::Board
    };
    match look {
        Look::Hex => String::from_str(
            alloc,
            "the board file looks like Intel HEX; the image comes first, then the board file",
        ),
        Look::Marked | Look::Elf | Look::SRecords | Look::Binary | Look::Source => {
            let words = look.words();
            format!(in alloc; "the board file {words}")
        }
        Look::Empty | Look::Board | Look::Text => match std::str::from_utf8(file) {
            Ok(text) => text_hint(alloc, text, fault),
            Err(_) => String::from_str(alloc, "the board file is no UTF-8"),
        },
    }
}
