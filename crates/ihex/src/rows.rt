//! Intel HEX files written.
ghost use Rattle.std.specs.Prelude.{◌≡◌, ℕ, ◌∷◌, ◌++◌, [], ◌+◌, ◌*◌, ◌/◌, ◌%◌, ◌<◌, ◌≤◌, ◌==◌, length, sum, OnOk, IfOk};
ghost use Rattle.std.specs.List.{list_all};
ghost use Rattle.ihex.specs.Store.{upper, digits_of, checksum, head_of, record_line, row_of, row_line, rows_below, end_line, hex_text};

use crate::record::sum_of;
use flash::Image;
use std::alloc::{AllocError, Global};

// The character of a value below 16.
#[tactic(auto, unfolding(crate::specs::Store::upper))]
fn upper(v: u8) -> u8
    requires { v < 16 }
    ensures { result ≡ upper v }
{
    if v < 10 { b'0' + v } else { b'A' - 10 + v }
}

// Adds the digits of bytes.
#[tactic(auto, using(crate::proofs::Pieces::digits_more, crate::proofs::Pieces::digits_all))]
fn push_digits(text: &mut Vec<u8>, bytes: &[u8]) -> Result<(), AllocError>
    ensures { OnOk result (text.new.items ≡ text.old.items ++ digits_of bytes.now) }
{
    for b in bytes {
        text.extend_from_slice(&[upper(*b / 16), upper(*b % 16)])?;
    }
    Ok(())
}

// The byte that makes a sum a multiple of 256.
fn checksum(total: u32) -> u8
    ensures { result ≡ checksum total }
{
    ((256 - total % 256) % 256) as u8
}

// Adds the line of a row's record.
#[tactic(auto, unfolding(crate::specs::Store::record_line))]
fn push_record(text: &mut Vec<u8>, at: u16, row: &[u8]) -> Result<(), AllocError>
    requires { length row.now ≤ 16 }
    ensures { OnOk result (text.new.items ≡ text.old.items ++ record_line at row.now) }
{
    let head = [16, (at / 256) as u8, (at % 256) as u8, 0];
    let check = checksum(sum_of(&head) + sum_of(row));
    text.extend_from_slice(b":")?;
    push_digits(text, &head)?;
    push_digits(text, row)?;
    push_digits(text, &[check])?;
    text.extend_from_slice(b"\n")?;
    Ok(())
}

// Each byte is FF.
fn is_erased(row: &[u8]) -> bool
    ensures { result ≡ list_all (λ b. b == 255) row.now }
{
    row.iter().all(|b| *b == 0xFF)
}

// Adds the line of a row, where not each byte is FF.
#[tactic(auto, using(crate::proofs::Pieces::row_none), unfolding(crate::specs::Store::row_line))]
fn push_row(text: &mut Vec<u8>, image: &Image, k: u16) -> Result<(), AllocError>
    requires { k < 2048 }
    ensures { OnOk result (text.new.items ≡ text.old.items ++ row_line image.now k) }
{
    let at = 16 * k;
    let row = &image.bytes()[at as usize..at as usize + 16];
    if is_erased(row) {
        return Ok(());
    }
    push_record(text, at, row)
}

/// The one text of an image: a record of 16 bytes for each aligned row that is not all FF, rising, with upper-case digits and
/// LF, and the end record.
///
/// # Errors
///
/// No memory was left.
#[tactic(auto, unfolding(crate::specs::Store::hex_text))]
pub fn store(alloc: Global, image: &Image) -> Result<Vec<u8>, AllocError>
    ensures { IfOk result (λ text. text.items ≡ hex_text image.now) }
{
    let mut text = Vec::new(alloc);
    for k in 0..2048 {
        push_row(&mut text, image, k)?;
    }
    text.extend_from_slice(b":00000001FF\n")?;
    Ok(text)
}
