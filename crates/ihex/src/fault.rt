//! Why a text gives no image.

/// What is wrong with a line. Of several, the first in this order stands, but that `BadLength` for a count that is wrong for
/// its type comes behind `BadType`.
#[derive(Clone, Copy, Debug, PartialEq, Eq)]
pub enum HexKind {
    /// A line that is not empty stands behind the end record.
    AfterEnd,
    /// The line does not begin with a colon.
    BadStart,
    /// A character behind the colon is no hexadecimal digit.
    BadDigit,
    /// The number of digits is odd, or not that of the count plus 5 bytes, or the count is wrong for the type.
    BadLength,
    /// The bytes do not sum to 0 modulo 256.
    BadSum,
    /// The type is above 5.
    BadType,
    /// A data byte stands at 32,768 or above.
    OutOfFlash,
    /// No end record is there.
    NoEnd,
}

/// The first faulty line of a text.
#[derive(Clone, Copy, Debug, PartialEq, Eq)]
pub struct HexFault {
    /// The line's number, from 1; of `NoEnd` that of the last line, 0 for an empty text.
    pub line: u32,
    /// Its first fault.
    pub kind: HexKind,
}

/// Why a text gives no image.
#[derive(Clone, Copy, Debug, PartialEq, Eq)]
pub enum HexError {
    /// A line is faulty.
    Fault(HexFault),
    /// No memory was left for the image.
    NoMemory,
}
