//! Bytes as hexadecimal digits.
ghost use Rattle.std.specs.Prelude.{◌≡◌, IfOk, option_map};
ghost use Rattle.board_read.specs.Bytes.{bytes};

use hex::FromHexError;
use std::alloc::{AllocError, Global};

/// The bytes of hexadecimal digits, an even number of them or none.
///
/// # Errors
///
/// Want of memory alone.
pub fn bytes(alloc: Global, text: &[u8]) -> Result<Option<Vec<u8>>, AllocError>
    ensures { IfOk result (λ v. option_map (λ b. b.items) v ≡ bytes text.now) }
{
    match hex::decode(alloc, text) {
        Ok(bytes) => Ok(Some(bytes)),
        Err(FromHexError::OutOfMemory) => Err(AllocError),
        Err(_) => Ok(None),
    }
}
