//! What the bytes of a file look like.

/// What a file looks like, by its first bytes.
#[derive(Clone, Copy, Debug, PartialEq, Eq)]
pub enum Look {
    /// Nothing, or blanks alone.
    Empty,
    /// Text behind a byte-order mark.
    Marked,
    /// An ELF, as a linker makes it.
    Elf,
    /// S-records.
    SRecords,
    /// Intel HEX.
    Hex,
    /// Bytes that are no text.
    Binary,
    /// A C source.
    Source,
    /// A board file.
    Board,
    /// Other text.
    Text,
}

impl Look {
    /// What is said of a file that looks so.
    pub fn words(self) -> &'static str {
        match self {
            Look::Empty => "is empty",
            Look::Marked => "begins with a byte-order mark: save it without one",
            Look::Elf => "is an ELF",
            Look::SRecords => "looks like S-records",
            Look::Hex => "looks like Intel HEX",
            Look::Binary => "looks like a raw binary",
            Look::Source => "looks like a C source",
            Look::Board => "looks like a board file",
            Look::Text => "is text of another kind",
        }
    }
}

/// Whether a file begins with a mark of its byte order.
fn is_marked(file: &[u8]) -> bool {
    let marks: [&[u8]; 3] = [&[0xEF, 0xBB, 0xBF], &[0xFF, 0xFE], &[0xFE, 0xFF]];
    marks.iter().any(|mark| file.starts_with(mark))
}

/// Whether a text begins as C sources do.
fn is_source(text: &[u8]) -> bool {
    text.starts_with(b"#include")
        || text.starts_with(b"#define")
        || text.starts_with(b"/*")
        || text.starts_with(b"//")
}

/// What a text looks like, by what stands behind its first blanks.
fn look_of_text(text: &[u8]) -> Look {
    match text {
        [] => Look::Empty,
        [b':', ..] => Look::Hex,
        [b'S', b'0'..=b'9', ..] => Look::SRecords,
        _ if is_source(text) => Look::Source,
        [b'[' | b'#', ..] => Look::Board,
        _ if text.contains(&b'=') => Look::Board,
        _ => Look::Text,
    }
}

/// What a file looks like.
pub fn look_of(file: &[u8]) -> Look {
    if is_marked(file) {
        Look::Marked
    } else if file.starts_with(b"\x7FELF") {
        Look::Elf
    } else if file.contains(&0) {
        Look::Binary
    } else {
        look_of_text(file.trim_ascii_start())
    }
}
