//! Link tokens: `@n:` and what the link of socket n did.
ghost use Rattle.std.specs.Prelude.{◌≡◌, ◌==◌, ◌<◌, ◌∷◌, IfOk, IfSome, option_map};
ghost use Rattle.std.specs.List.{slice_split};
ghost use Rattle.std.specs.Str.{bytes_eq};
ghost use Rattle.board_gen.specs.Links.{bare, counted, peer, accepted, datagram, what, socket, link};
ghost use Rattle.board_gen.specs.Views.{entry_of, step_of};

use crate::token::{LinkStep, LinkToken, Token};
use board_read::bytes::bytes;
use board_read::cuts::cut;
use board_read::numbers::{address, count, port};
use chip_sheet::event::Addr;
use std::alloc::{AllocError, Global};

// The words that stand alone.
fn bare(word: &[u8]) -> Option<LinkToken>
    ensures { option_map entry_of result ≡ bare word.now }
{
    if word == b"linked".as_slice() {
        Some(LinkToken::Linked)
    } else if word == b"refused".as_slice() {
        Some(LinkToken::Refused)
    } else if word == b"timedout".as_slice() {
        Some(LinkToken::TimedOut)
    } else if word == b"ended".as_slice() {
        Some(LinkToken::Ended)
    } else if word == b"shut".as_slice() {
        Some(LinkToken::Shut)
    } else if word == b"failed".as_slice() {
        Some(LinkToken::Failed)
    } else if word == b"dropped".as_slice() {
        Some(LinkToken::Dropped)
    } else {
        None
    }
}

// `took:K` and `got:HEX`.
fn counted(alloc: Global, word: &[u8], field: &[u8]) -> Result<Option<LinkToken>, AllocError>
    ensures { IfOk result (λ what. option_map entry_of what ≡ counted word.now field.now) }
{
    if word == b"took".as_slice() {
        Ok(match count(field) {
            Some(k) => Some(LinkToken::Took(k)),
            None => None,
        })
    } else if word == b"got".as_slice() {
        Ok(match bytes(alloc, field)? {
            Some(bytes) => Some(LinkToken::Got(bytes)),
            None => None,
        })
    } else {
        Ok(None)
    }
}

// An address and its port.
fn peer(addr: &[u8], number: &[u8]) -> Option<Addr>
    ensures { result ≡ peer addr.now number.now }
{
    match (address(addr), port(number)) {
        (Some(ip), Some(port)) => Some(Addr { ip, port }),
        _ => None,
    }
}

// `accepted:ADDR:PORT`.
fn accepted(word: &[u8], addr: &[u8], number: &[u8]) -> Option<LinkToken>
    ensures { option_map entry_of result ≡ accepted word.now addr.now number.now }
{
    if word != b"accepted".as_slice() {
        return None;
    }
    match peer(addr, number) {
        Some(from) => Some(LinkToken::Accepted(from)),
        None => None,
    }
}

// `datagram:ADDR:PORT:HEX`.
fn datagram(
    alloc: Global,
    word: &[u8],
    addr: &[u8],
    number: &[u8],
    body: &[u8],
) -> Result<Option<LinkToken>, AllocError>
    ensures { IfOk result (λ what. option_map entry_of what ≡ datagram word.now addr.now number.now body.now) }
{
    if word != b"datagram".as_slice() {
        return Ok(None);
    }
    match (peer(addr, number), bytes(alloc, body)?) {
        (Some(from), Some(body)) => Ok(Some(LinkToken::Datagram(from, body))),
        _ => Ok(None),
    }
}

// What happened, from the first three parts and the text behind the third colon.
fn what_of_more(
    alloc: Global,
    word: &[u8],
    addr: &[u8],
    number: &[u8],
    text: &[u8],
) -> Result<Option<LinkToken>, AllocError>
    ensures { IfOk result (λ token. option_map entry_of token ≡ what (word.now ∷ addr.now ∷ number.now ∷ slice_split (λ b. b == 58) text.now)) }
{
    match cut(text, b':') {
        Some(_) => Ok(None),
        None => datagram(alloc, word, addr, number, text),
    }
}

// What happened, from the text behind the first colon. What stands behind a fourth one in it is not looked at.
fn what(alloc: Global, text: &[u8]) -> Result<Option<LinkToken>, AllocError>
    ensures { IfOk result (λ token. option_map entry_of token ≡ what (slice_split (λ b. b == 58) text.now)) }
{
    let Some((word, rest)) = cut(text, b':') else {
        return Ok(bare(text));
    };
    let Some((field, last)) = cut(rest, b':') else {
        return counted(alloc, word, rest);
    };
    match cut(last, b':') {
        Some((number, more)) => what_of_more(alloc, word, field, number, more),
        None => Ok(accepted(word, field, last)),
    }
}

// The socket of `@n`.
fn socket(place: &[u8]) -> Option<u8>
    ensures is { result ≡ socket place.now }
    ensures in_range { IfSome result (λ n. n < 8) }
{
    match place {
        [b'@', n @ b'0'..=b'7'] => Some(*n - b'0'),
        _ => None,
    }
}

/// The link token that a text is, if it is one.
///
/// # Errors
///
/// Want of memory alone.
pub fn link(alloc: Global, text: &[u8]) -> Result<Option<Token>, AllocError>
    ensures { IfOk result (λ token. option_map step_of token ≡ link text.now) }
{
    match cut(text, b':') {
        Some((place, rest)) => match (socket(place), what(alloc, rest)?) {
            (Some(socket), Some(what)) => Ok(Some(Token::Link(LinkStep { socket, what }))),
            _ => Ok(None),
        },
        None => Ok(None),
    }
}
