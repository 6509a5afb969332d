//! Hints on the file of an image.

use crate::look::{Look, look_of};
use ihex::{HexFault, HexKind};
use std::alloc::{AllocError, Global};

/// What to do about a file that is no Intel HEX and looks so.
fn remedy(look: Look) -> &'static str {
    match look {
        Look::Elf | Look::SRecords | Look::Binary => {
            "; `avr-objcopy -O ihex FILE.elf FILE.hex` makes Intel HEX of an ELF"
        }
        Look::Source => "; compile it first",
        Look::Board => "; the image comes first, then the board file",
        Look::Empty | Look::Marked | Look::Hex | Look::Text => "",
    }
}

/// What is wrong with the line of a file that is Intel HEX elsewhere.
fn words(kind: HexKind) -> &'static str {
    match kind {
        HexKind::AfterEnd => "text stands behind its end record, as where two files were joined",
        HexKind::BadStart => "the line does not begin with a colon",
        HexKind::BadDigit => "the line has a character that is no hexadecimal digit",
        HexKind::BadLength => "the line is cut, or longer than its count says",
        HexKind::BadSum => "the line's checksum is wrong: it was edited or damaged",
        HexKind::BadType => "the line is a record of no known type",
        HexKind::OutOfFlash => {
            "the line lies past the flash's 32,768 bytes: where it is EEPROM, fuses or signature, give avr-objcopy `-R .eeprom -R .fuse -R .lock -R .signature` too"
        }
        HexKind::NoEnd => "it has no end record: it was cut",
    }
}

/// What an image's file with this fault looks like, and what to do about it.
///
/// # Errors
///
/// Out of memory alone.
pub fn image_hint(alloc: Global, file: &[u8], fault: HexFault) -> Result<String, AllocError> {
    match look_of(file) {
        Look::Hex => {
            let words = words(fault.kind);
            format!(in alloc; "the image file is Intel HEX, but {words}")
        }
        look => {
            let (words, remedy) = (look.words(), remedy(look));
            format!(in alloc; "the image file {words}{remedy}")
        }
    }
}
