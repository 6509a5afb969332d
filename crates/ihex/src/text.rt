//! Intel HEX files read.
ghost use Rattle.std.specs.Prelude.{◌≡◌, ℕ, ◌∷◌, ◌+◌, ◌<◌, ◌≤◌, ◌==◌, [], None, length, slice_index, OnOk, IfOk, IfErr};
ghost use Rattle.std.specs.List.{position};
ghost use Rattle.std.specs.Str.Lines.{lines, strip_carriage_return};
ghost use Rattle.flash.specs.Image.{erased};
ghost use Rattle.ihex.specs.Flash.{written, flash_byte};
ghost use Rattle.ihex.specs.Text.{fault_behind, fault_in, data_behind, data_in, Tells};
ghost use Rattle.ihex.specs.Reading.{above_of};
ghost use Rattle.ihex.specs.declared.fault.HexError.TheVariants.{Fault, NoMemory};

use crate::fault::{HexError, HexFault, HexKind};
use crate::record::Reader;
use flash::Image;
use std::alloc::{AllocError, Global};

impl From<AllocError> for HexError {
    ghost from_gives = { λ _ e. e ≡ NoMemory };

    fn from(_: AllocError) -> Self {
        HexError::NoMemory
    }
}

impl From<HexFault> for HexError {
    ghost from_gives = { λ fault e. e ≡ Fault fault };

    fn from(fault: HexFault) -> Self {
        HexError::Fault(fault)
    }
}

// A line without the carriage return at its end, if it has one.
fn without_return(line: &[u8]) -> &[u8]
    ensures { result.now ≡ strip_carriage_return line.now }
{
    if line.last() == Some(&b'\r') {
        &line[..line.len() - 1]
    } else {
        line
    }
}

// The place of the first line feed.
fn line_feed(text: &[u8]) -> Option<usize>
    ensures { result ≡ position (λ b. b == 10) text.now }
{
    text.iter().position(|b| *b == b'\n')
}

// The first line of a text that is not empty, and what stands behind it.
fn first_line(text: &[u8]) -> (&[u8], &[u8])
    requires { 0 < length text.now }
    ensures lines { lines text.now ≡ result.0.now ∷ lines result.1.now }
    ensures shorter { length result.1.now < length text.now }
{
    match line_feed(text) {
        Some(i) => (without_return(&text[..i]), &text[i + 1..]),
        None => (text, &text[text.len()..]),
    }
}

// Reads the lines of a text, and counts them.
#[tactic(auto, using(crate::proofs::Behind::fault_more, crate::proofs::Behind::fault_here, crate::proofs::Behind::data_more))]
fn read_lines(reader: &mut Reader, text: &[u8]) -> Result<u32, HexFault>
    requires { length text.now ≤ 67108864 }
    ensures fault { IfErr result (λ fault. fault_behind 0 (above_of reader.old) (lines text.now) ≡ Some fault) }
    ensures lines { IfOk result (λ number. fault_behind 0 (above_of reader.old) (lines text.now) ≡ fault_behind number (above_of reader.new) []) }
    ensures image { OnOk result (reader.new.image ≡ written reader.old.image (data_behind (above_of reader.old) (lines text.now))) }
{
    let mut rest = text;
    let mut number = 0;
    'lines: while !rest.is_empty() {
        let (line, more) = first_line(rest);
        number += 1;
        match reader.read(line) {
            Ok(()) => rest = more,
            Err(kind) => return Err(HexFault { line: number, kind }),
        }
    }
    Ok(number)
}

/// The image of an Intel HEX text of at most 67,108,864 bytes.
///
/// # Errors
///
/// `Fault` with the first faulty line and its first fault, exactly where a line is faulty or no end record is there, and
/// `NoMemory`.
#[tactic(auto, unfolding(crate::specs::Text::fault_in, crate::specs::Text::data_in))]
pub fn load(alloc: Global, text: &[u8]) -> Result<Image, HexError>
    requires { length text.now ≤ 67108864 }
    ensures good { OnOk result (fault_in text.now ≡ None) }
    ensures image { IfOk result (λ image. image ≡ written erased (data_in text.now)) }
    ensures bytes { IfOk result (λ image. (at : ℕ) → at < 32768 → slice_index image at ≡ flash_byte (data_in text.now) at) }
    ensures fault { IfErr result (λ e. Tells text.now e) }
{
    let mut reader = Reader::new(alloc)?;
    let number = read_lines(&mut reader, text)?;
    let Reader {
        image,
        base: _,
        ended,
    } = reader;
    if ended {
        Ok(image)
    } else {
        Err(HexError::Fault(HexFault {
            line: number,
            kind: HexKind::NoEnd,
        }))
    }
}
