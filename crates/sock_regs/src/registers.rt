//! The registers of one socket.
ghost use Rattle.std.specs.Prelude.{◌≡◌, ◌<◌, ℕ, IsTrue};
ghost use Rattle.chip_sheet.specs.Names.{sn_mr, sn_ir, sn_imr, sn_rxbuf_size, sn_txbuf_size};
ghost use Rattle.sock_regs.specs.Places.{is_here, is_stored, reset_value, after_write, after_raise, after_peer, read_at, port_in, address_in};

use chip_sheet::event::Addr;

/// Sn_MR, the mode.
const MODE: usize = 0x00;

/// Sn_IR, the interrupts.
const INTERRUPTS: u16 = 0x02;

/// Sn_PORT, the source port, two bytes.
const PORT: usize = 0x04;

/// Sn_DIPR, the destination address, four bytes.
const ADDRESS: usize = 0x0C;

/// Sn_DPORT, the destination port, two bytes.
const DESTINATION_PORT: usize = 0x10;

/// Sn_RXBUF_SIZE.
const RX_SIZE: usize = 0x1E;

/// Sn_TXBUF_SIZE.
const TX_SIZE: usize = 0x1F;

/// Sn_IMR, the interrupt mask.
const MASK: usize = 0x2C;

/// How many places the block has, the reserved ones in between included.
const PLACES: u16 = 48;

/// What each place reads after a reset.
const RESET: [u8; 48] = [
    0, 0, 0, 0, 0, 0, 0xFF, 0xFF, 0xFF, 0xFF, 0xFF, 0xFF, 0, 0, 0, 0, 0, 0, 0, 0, 0, 0, 0x80, 0, 0,
    0, 0, 0, 0, 0, 2, 2, 8, 0, 0, 0, 0, 0, 0, 0, 0, 0, 0, 0, 0xFF, 0x40, 0, 0,
];

/// The bytes of a socket's register block, each at its place.
#[derive(Clone, Copy, Debug, PartialEq, Eq)]
pub struct SockRegs {
    bytes: [u8; 48],
}

/// Whether the registers answer for the place.
#[inline]
fn is_here(addr: u16) -> bool
    ensures { result ≡ is_here addr }
{
    !matches!(addr, 0x03 | 0x20..=0x2B)
}

/// Whether the place keeps a written byte as it is.
#[inline]
fn is_stored(addr: u16) -> bool
    ensures stored { result ≡ is_stored addr }
    ensures place { IsTrue result → addr < 48 }
{
    matches!(addr, 0x00 | 0x04..=0x13 | 0x15..=0x16 | 0x1E..=0x1F | 0x2C..=0x2F)
}

impl SockRegs {
    ghost use Rattle.sock_regs.specs.Holding.{Reads};

    /// The registers after a reset.
    pub fn new() -> Self
        ensures { Reads result reset_value }
    {
        SockRegs { bytes: RESET }
    }

    /// What an address reads: `None` exactly for the status, the free and the received size and the pointers, for which the
    /// socket's life and its buffers answer. Past the last register it is 00.
    #[inline]
    pub fn read(&self, addr: u16) -> Option<u8>
        ensures { (f : ℕ → ℕ) → Reads self.now f → result ≡ read_at f addr }
    {
        if !is_here(addr) {
            None
        } else if addr < PLACES {
            Some(self.bytes[addr as usize])
        } else {
            Some(0)
        }
    }

    /// Writes a byte. A write of Sn_IR takes away the bits that are 1 in it; Sn_CR, what is only read, and the places of which
    /// others answer keep nothing.
    #[inline]
    pub fn write(&mut self, addr: u16, v: u8)
        ensures { (f : ℕ → ℕ) → Reads self.old f → Reads self.new (after_write addr v f) }
    {
        if addr == INTERRUPTS {
            self.bytes[INTERRUPTS as usize] &= !v;
        } else if is_stored(addr) {
            self.bytes[addr as usize] = v;
        }
    }

    /// Raises these bits of Sn_IR, whatever the mask Sn_IMR says.
    #[inline]
    pub fn raise(&mut self, bits: u8)
        ensures { (f : ℕ → ℕ) → Reads self.old f → Reads self.new (after_raise bits f) }
    {
        self.bytes[INTERRUPTS as usize] |= bits;
    }

    /// Makes Sn_DIPR and Sn_DPORT the address of an accepted peer.
    pub fn set_peer(&mut self, from: Addr)
        ensures { (f : ℕ → ℕ) → Reads self.old f → Reads self.new (after_peer from f) }
    {
        self.bytes[ADDRESS] = from.ip[0];
        self.bytes[ADDRESS + 1] = from.ip[1];
        self.bytes[ADDRESS + 2] = from.ip[2];
        self.bytes[ADDRESS + 3] = from.ip[3];
        self.bytes[DESTINATION_PORT] = (from.port / 256) as u8;
        self.bytes[DESTINATION_PORT + 1] = (from.port % 256) as u8;
    }

    /// Sn_MR, the mode.
    #[inline]
    pub fn mode(&self) -> u8
        ensures { (f : ℕ → ℕ) → Reads self.now f → result ≡ f sn_mr }
    {
        self.bytes[MODE]
    }

    /// Sn_PORT, the source port.
    #[inline]
    pub fn port(&self) -> u16
        ensures { (f : ℕ → ℕ) → Reads self.now f → result ≡ port_in f }
    {
        256 * u16::from(self.bytes[PORT]) + u16::from(self.bytes[PORT + 1])
    }

    /// Sn_DIPR and Sn_DPORT, the destination.
    pub fn destination(&self) -> Addr
        ensures { (f : ℕ → ℕ) → Reads self.now f → result ≡ address_in f }
    {
        Addr {
            ip: [
                self.bytes[ADDRESS],
                self.bytes[ADDRESS + 1],
                self.bytes[ADDRESS + 2],
                self.bytes[ADDRESS + 3],
            ],
            port: 256 * u16::from(self.bytes[DESTINATION_PORT])
                + u16::from(self.bytes[DESTINATION_PORT + 1]),
        }
    }

    /// Sn_IR, the interrupts that were raised and not cleared since.
    #[inline]
    pub fn interrupts(&self) -> u8
        ensures { (f : ℕ → ℕ) → Reads self.now f → result ≡ f sn_ir }
    {
        self.bytes[INTERRUPTS as usize]
    }

    /// Sn_IMR, the interrupt mask.
    #[inline]
    pub fn mask(&self) -> u8
        ensures { (f : ℕ → ℕ) → Reads self.now f → result ≡ f sn_imr }
    {
        self.bytes[MASK]
    }

    /// Sn_TXBUF_SIZE, in kilobytes.
    #[inline]
    pub fn tx_kilobytes(&self) -> u8
        ensures { (f : ℕ → ℕ) → Reads self.now f → result ≡ f sn_txbuf_size }
    {
        self.bytes[TX_SIZE]
    }

    /// Sn_RXBUF_SIZE, in kilobytes.
    #[inline]
    pub fn rx_kilobytes(&self) -> u8
        ensures { (f : ℕ → ℕ) → Reads self.now f → result ≡ f sn_rxbuf_size }
    {
        self.bytes[RX_SIZE]
    }
}
