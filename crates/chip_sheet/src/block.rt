//! The blocks of the chip's memory.

/// A block of the chip's memory, by the block select bits (W5500 datasheet, 2.2.2 control phase, BSB).
#[derive(Clone, Copy, Debug, PartialEq, Eq)]
pub enum Block {
    /// The common register block.
    Common,
    /// The register block of a socket, 0 to 7.
    Registers(u8),
    /// The TX buffer of a socket.
    TxBuffer(u8),
    /// The RX buffer of a socket.
    RxBuffer(u8),
    /// None: the select bits are reserved.
    Reserved,
}
