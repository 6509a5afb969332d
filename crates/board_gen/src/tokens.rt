//! The tokens of scripts.

ghost use Rattle.std.specs.Prelude.{◌≡◌, IfOk, option_map};
ghost use Rattle.board_gen.specs.Tokens.{letter, byte_read, token_step};
ghost use Rattle.hex.specs.Hex.{decode_sized};
ghost use Rattle.board_gen.specs.Views.{step_of};

use crate::links::link;
use crate::token::Token;
use chip_sheet::event::BusEvent;
use std::alloc::{AllocError, Global};

// The token of one byte.
fn letter(byte: u8) -> Option<Token>
    ensures { option_map step_of result ≡ letter byte }
{
    match byte {
        b'L' => Some(Token::Bus(BusEvent::Select(true))),
        b'H' => Some(Token::Bus(BusEvent::Select(false))),
        b'?' => Some(Token::Bus(BusEvent::Look)),
        _ => None,
    }
}

// The byte of two hexadecimal digits.
fn byte(text: &[u8]) -> Option<Token>
    ensures { option_map step_of result ≡ byte_read (decode_sized text.now 1) }
{
    let mut byte = [0u8; 1];
    match hex::decode_to_slice(text, &mut byte) {
        Ok(()) => Some(Token::Bus(BusEvent::Byte(byte[0]))),
        Err(_) => None,
    }
}

/// The token that a text is, if it is one.
///
/// # Errors
///
/// Want of memory alone, and that only for a link token.
pub fn token_of(alloc: Global, text: &[u8]) -> Result<Option<Token>, AllocError>
    ensures { IfOk result (λ token. option_map step_of token ≡ token_step text.now) }
{
    match text {
        [] => Ok(None),
        [only] => Ok(letter(*only)),
        [_, _] => Ok(byte(text)),
        _ => link(alloc, text),
    }
}
