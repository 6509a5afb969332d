//! The text of traces: a head, and a line for each entry of a history.
ghost use Rattle.std.specs.Prelude.{◌≡◌, ◌++◌, ◌∷◌, [], OnOk, IfOk, decimal, string_bytes};
ghost use Rattle.chip_sheet.specs.Past.{entry_of, link_entry};
ghost use Rattle.chip_sheet.specs.Streams.{Starts};
ghost use Rattle.board_text.specs.Entries.{byte_text, bytes_text, address_text, peer_parts, what_parts, with_colons, out_byte, is_high, bus_text, entry_text, entry_line, trace_head};

use crate::answers::digit;
use board_bus::{BusAnswer, BusEvent};
use chip_sheet::event::{Addr, Event, LinkWhat};
use std::alloc::{AllocError, Global};

// Adds a number in decimal.
fn push_decimal(text: &mut Vec<u8>, n: u32) -> Result<(), AllocError>
    ensures { OnOk result (text.new.items ≡ text.old.items ++ decimal n) }
{
    let digits = format!(in *text.allocator(); "{n}")?;
    text.extend_from_slice(digits.as_bytes())
}

// Adds bytes, each as two hexadecimal digits.
fn push_bytes(text: &mut Vec<u8>, bytes: &[u8]) -> Result<(), AllocError>
    ensures { OnOk result (text.new.items ≡ text.old.items ++ bytes_text bytes.now) }
{
    for byte in bytes {
        text.extend_from_slice(&[digit(*byte / 16), digit(*byte % 16)])?;
    }
    Ok(())
}

// Adds the four numbers of an address, with a dot between.
fn push_address(text: &mut Vec<u8>, ip: [u8; 4]) -> Result<(), AllocError>
    ensures { OnOk result (text.new.items ≡ text.old.items ++ address_text ip) }
{
    let [a, b, c, d] = ip;
    push_decimal(text, u32::from(a))?;
    text.push(b'.')?;
    push_decimal(text, u32::from(b))?;
    text.push(b'.')?;
    push_decimal(text, u32::from(c))?;
    text.push(b'.')?;
    push_decimal(text, u32::from(d))
}

// Adds an address and its port.
fn push_peer(text: &mut Vec<u8>, from: Addr) -> Result<(), AllocError>
    ensures { OnOk result (text.new.items ≡ text.old.items ++ with_colons (peer_parts from)) }
{
    push_address(text, from.ip)?;
    text.push(b':')?;
    push_decimal(text, u32::from(from.port))
}

// Adds what the link of a socket did.
fn push_what(text: &mut Vec<u8>, what: LinkWhat<'_>) -> Result<(), AllocError>
    ensures { OnOk result (text.new.items ≡ text.old.items ++ with_colons (what_parts (link_entry what.entry))) }
{
    match what {
        LinkWhat::Linked => text.extend_from_slice(b"linked"),
        LinkWhat::Accepted(from) => {
            text.extend_from_slice(b"accepted:")?;
            push_peer(text, from)
        }
        LinkWhat::Refused => text.extend_from_slice(b"refused"),
        LinkWhat::TimedOut => text.extend_from_slice(b"timedout"),
        LinkWhat::Took(count) => {
            text.extend_from_slice(b"took:")?;
            push_decimal(text, count)
        }
        LinkWhat::Got(bytes) => {
            text.extend_from_slice(b"got:")?;
            push_bytes(text, bytes)
        }
        LinkWhat::Datagram(from, body) => {
            text.extend_from_slice(b"datagram:")?;
            push_peer(text, from)?;
            text.push(b':')?;
            push_bytes(text, body)
        }
        LinkWhat::Ended => text.extend_from_slice(b"ended"),
        LinkWhat::Shut => text.extend_from_slice(b"shut"),
        LinkWhat::Failed => text.extend_from_slice(b"failed"),
        LinkWhat::Dropped => text.extend_from_slice(b"dropped"),
    }
}

// The byte of an answer, 0 where it has none.
fn out_byte(answer: BusAnswer) -> u8
    ensures { result ≡ out_byte answer }
{
    if let BusAnswer::Out(v) = answer { v } else { 0 }
}

// The level of an answer, low where it has none.
fn is_high(answer: BusAnswer) -> bool
    ensures { result ≡ is_high answer }
{
    matches!(answer, BusAnswer::Level(true))
}

// Adds an event of the bus and its answer.
fn push_bus(text: &mut Vec<u8>, event: BusEvent, answer: BusAnswer) -> Result<(), AllocError>
    ensures { OnOk result (text.new.items ≡ text.old.items ++ bus_text event answer) }
{
    match event {
        BusEvent::Select(low) => text.extend_from_slice(&[if low { b'L' } else { b'H' }]),
        BusEvent::Byte(v) => {
            let out = out_byte(answer);
            text.extend_from_slice(&[
                digit(v / 16),
                digit(v % 16),
                b'>',
                digit(out / 16),
                digit(out % 16),
            ])
        }
        BusEvent::Look => {
            let level = if is_high(answer) { b'1' } else { b'0' };
            text.extend_from_slice(&[b'?', level])
        }
    }
}

// Adds an entry of a history.
fn push_entry(text: &mut Vec<u8>, event: Event<'_>) -> Result<(), AllocError>
    ensures { OnOk result (text.new.items ≡ text.old.items ++ entry_text (entry_of event.entry)) }
{
    match event {
        Event::Bus(event, answer) => push_bus(text, event, answer),
        Event::Link(socket, what) => {
            text.push(b'@')?;
            push_decimal(text, u32::from(socket))?;
            text.push(b':')?;
            push_what(text, what)
        }
        Event::Rest => text.extend_from_slice(b"."),
    }
}

/// Adds the line of an entry of a history to a text, with its line feed.
///
/// # Errors
///
/// Want of memory alone.
pub fn push_entry_line(text: &mut Vec<u8>, event: Event<'_>) -> Result<(), AllocError>
    ensures { OnOk result (text.new.items ≡ text.old.items ++ entry_line (entry_of event.entry)) }
{
    push_entry(text, event)?;
    text.push(b'\n')?;
    Ok(())
}

/// The first line of a trace, with its line feed: its version, and where the positions of connections begin.
///
/// # Errors
///
/// Want of memory alone.
pub fn trace_head(alloc: Global, tx_start: u16, rx_start: u16) -> Result<String, AllocError>
    ensures { IfOk result (λ line. string_bytes line ≡ trace_head (record { tx = tx_start; rx = rx_start })) }
{
    format!(in alloc; "w5500 trace 1 {tx_start} {rx_start}\n")
}
