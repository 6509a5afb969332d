//! What is printed of a judged history.

ghost use Rattle.std.specs.Prelude.{◌≡◌, ◌++◌, ◌∷◌, OnOk, IfOk, string_bytes};
ghost use Rattle.board_text.specs.Entries.{byte_text};
ghost use Rattle.board_judge.specs.Shown.{differs_text, stops_text, verdict_text};

use crate::end::JudgeFault;
use board_text::answers::digit;
use board_text::stops::stop_text;
use chip_sheet::stop::ChipStop;
use std::alloc::{AllocError, Global};

// Adds a space and a byte as two hexadecimal digits.
fn push_byte(text: &mut Vec<u8>, byte: u8) -> Result<(), AllocError>
    ensures { OnOk result (text.new.items ≡ text.old.items ++ 32 ∷ byte_text byte) }
{
    text.extend_from_slice(&[b' ', digit(byte / 16), digit(byte % 16)])
}

// The line of an answer that is not the chip's.
fn differs_text(alloc: Global, place: u64, expected: u8, found: u8) -> Result<Vec<u8>, AllocError>
    ensures { IfOk result (λ text. text.items ≡ differs_text place expected found) }
{
    let mut text = format!(in alloc; "differs {place}")?.into_bytes();
    push_byte(&mut text, expected)?;
    push_byte(&mut text, found)?;
    text.push(b'\n')?;
    Ok(text)
}

// The line of an event that has a stop.
fn stops_text(alloc: Global, place: u64, stop: ChipStop) -> Result<Vec<u8>, AllocError>
    ensures { IfOk result (λ text. text.items ≡ stops_text place stop) }
{
    let stop = stop_text(alloc, stop)?;
    Ok(format!(in alloc; "stops {place} {stop}\n")?.into_bytes())
}

/// The line of a verdict, with its line feed: of a history of so many events that the datasheet allows, or of the first place
/// that it does not.
///
/// # Errors
///
/// Want of memory alone.
pub fn verdict_text(
    alloc: Global,
    count: u64,
    fault: Option<JudgeFault>,
) -> Result<Vec<u8>, AllocError>
    ensures { IfOk result (λ text. text.items ≡ verdict_text count fault) }
{
    match fault {
        None => Ok(format!(in alloc; "legal {count}\n")?.into_bytes()),
        Some(
            JudgeFault::Differs {
                place,
                expected,
                found,
            },
        ) => differs_text(alloc, place, expected, found),
        Some(JudgeFault::Unfit { place }) => Ok(format!(in alloc; "unfit {place}\n")?.into_bytes()),
        Some(JudgeFault::Stops { place, stop }) => stops_text(alloc, place, stop),
    }
}
