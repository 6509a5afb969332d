//! Why the chip stops the board.

/// Why the board stops in place of an answer. The stops are this profile's own: each names what the firmware asks for and the
/// board does not model, or a use of the chip that would harm the data.
#[derive(Clone, Copy, Debug, PartialEq, Eq)]
pub enum ChipStop {
    /// A byte reads or writes a reserved block.
    ReservedBlock {
        /// The block select bits, 4 to 28.
        block: u8,
    },
    /// PPPoE mode is set: MR written with bit 7 clear and bit 3 set.
    Pppoe,
    /// A buffer size is changed while a socket is not closed.
    SizeWhileOpen {
        /// The socket of the size register.
        sn: u8,
    },
    /// A byte of the TX buffer is written whose place holds a byte that was passed to SEND and is not taken yet.
    OverwriteInFlight {
        /// The socket.
        sn: u8,
        /// The address modulo the size of the buffer.
        at: u16,
    },
    /// The command SEND_MAC.
    SendMac {
        /// The socket.
        sn: u8,
    },
    /// OPEN for raw Ethernet frames (MACRAW).
    RawEthernet {
        /// The socket.
        sn: u8,
    },
    /// OPEN for UDP with the multicast bit of the mode register.
    Multicast {
        /// The socket.
        sn: u8,
    },
    /// OPEN while the buffer sizes of a direction are not valid.
    BadBufferSize {
        /// The socket.
        sn: u8,
    },
    /// SEND for UDP while a datagram is in flight.
    SendBusy {
        /// The socket.
        sn: u8,
    },
    /// SEND of more bytes than are free.
    SendTooLong {
        /// The socket.
        sn: u8,
        /// How many bytes SEND was passed.
        len: u32,
        /// How many are free.
        free: u32,
    },
    /// RECV past the received bytes.
    RecvPastEnd {
        /// The socket.
        sn: u8,
        /// How many bytes RECV would release.
        asked: u32,
        /// How many are there.
        there: u32,
    },
}
