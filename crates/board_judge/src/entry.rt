//! The entry of a line.

ghost use Rattle.std.specs.Prelude.{◌≡◌, IfOk, option_map};
ghost use Rattle.board_gen.specs.Links.{link};
ghost use Rattle.board_gen.specs.Views.{step_of};
ghost use Rattle.board_judge.specs.Entries.{letter, level, look, two_digits, exchanged, exchange, happened, longer, entry_read};
ghost use Rattle.board_judge.specs.Views.{entry_said};

use crate::entries::TraceEntry;
use board_gen::Token;
use board_gen::links::link;
use chip_sheet::event::{BusAnswer, BusEvent};
use std::alloc::{AllocError, Global};

// The entry of one byte.
fn letter(byte: u8) -> Option<TraceEntry>
    ensures { option_map entry_said result ≡ letter byte }
{
    match byte {
        b'L' => Some(TraceEntry::Bus(BusEvent::Select(true), BusAnswer::Done)),
        b'H' => Some(TraceEntry::Bus(BusEvent::Select(false), BusAnswer::Done)),
        b'.' => Some(TraceEntry::Rest),
        _ => None,
    }
}

// The level of the interrupt line.
fn level(byte: u8) -> Option<bool>
    ensures { result ≡ level byte }
{
    match byte {
        b'1' => Some(true),
        b'0' => Some(false),
        _ => None,
    }
}

// The look of two bytes.
fn look(mark: u8, byte: u8) -> Option<TraceEntry>
    ensures { option_map entry_said result ≡ look mark byte }
{
    if mark != b'?' {
        return None;
    }
    match level(byte) {
        Some(high) => Some(TraceEntry::Bus(BusEvent::Look, BusAnswer::Level(high))),
        None => None,
    }
}

// The byte of two hexadecimal digits.
fn two_digits(text: &[u8]) -> Option<u8>
    ensures { result ≡ two_digits text.now }
{
    let mut byte = [0u8; 1];
    match hex::decode_to_slice(text, &mut byte) {
        Ok(()) => Some(byte[0]),
        Err(_) => None,
    }
}

// The byte on MOSI and the one on MISO, where each is one.
fn exchanged(sent: Option<u8>, answer: Option<u8>) -> Option<TraceEntry>
    ensures { option_map entry_said result ≡ exchanged sent answer }
{
    match (sent, answer) {
        (Some(sent), Some(answer)) => Some(TraceEntry::Bus(
            BusEvent::Byte(sent),
            BusAnswer::Out(answer),
        )),
        _ => None,
    }
}

// The byte on MOSI, `>` and the byte on MISO.
fn exchange(text: &[u8]) -> Option<TraceEntry>
    ensures { option_map entry_said result ≡ exchange text.now }
{
    match text {
        [_, _, mark, _, _] => {
            if *mark == b'>' {
                exchanged(two_digits(&text[..2]), two_digits(&text[3..]))
            } else {
                None
            }
        }
        _ => None,
    }
}

// What happened by a link token.
fn happened(token: Option<Token>) -> Option<TraceEntry>
    ensures { option_map entry_said result ≡ happened (option_map step_of token) }
{
    match token {
        Some(Token::Link(step)) => Some(TraceEntry::Link(step)),
        _ => None,
    }
}

// The entry of three bytes or more.
fn longer(alloc: Global, text: &[u8]) -> Result<Option<TraceEntry>, AllocError>
    ensures { IfOk result (λ entry. option_map entry_said entry ≡ longer (exchange text.now) (link text.now)) }
{
    match exchange(text) {
        Some(entry) => Ok(Some(entry)),
        None => Ok(happened(link(alloc, text)?)),
    }
}

/// The entry that a line is, if it is one.
///
/// # Errors
///
/// Want of memory alone, and that only for what a link did.
pub fn entry_of_line(alloc: Global, text: &[u8]) -> Result<Option<TraceEntry>, AllocError>
    ensures { IfOk result (λ entry. option_map entry_said entry ≡ entry_read text.now) }
{
    match text {
        [] => Ok(None),
        [only] => Ok(letter(*only)),
        [mark, byte] => Ok(look(*mark, *byte)),
        _ => longer(alloc, text),
    }
}
