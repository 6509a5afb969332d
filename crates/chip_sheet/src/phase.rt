//! The phases of an SPI frame.

/// Where the next byte of the bus stands (W5500 datasheet, 2.2 SPI frame).
#[derive(Clone, Copy, Debug, PartialEq, Eq)]
pub enum Phase {
    /// The select line is high: a byte has no effect.
    Idle,
    /// One of the two bytes of the offset address, the high one first.
    Address,
    /// The control byte.
    Control,
    /// A data byte.
    Body {
        /// The block select bits, 0 to 31; block 0 is the common register block.
        block: u8,
        /// The offset address within the block.
        addr: u16,
        /// Whether the byte is written; else the chip's byte is read.
        write: bool,
    },
}

/// What an event of the bus does to a register or a buffer.
#[derive(Clone, Copy, Debug, PartialEq, Eq)]
pub enum Access {
    /// It touches none.
    NoAccess,
    /// It reads a byte.
    Read {
        /// The block select bits, 0 to 31.
        block: u8,
        /// The offset address within the block.
        addr: u16,
    },
    /// It writes a byte.
    Write {
        /// The block select bits, 0 to 31.
        block: u8,
        /// The offset address within the block.
        addr: u16,
        /// The byte.
        value: u8,
    },
}
