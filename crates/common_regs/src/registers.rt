//! The common registers.

ghost use Rattle.std.specs.Prelude.{◌≡◌, ◌≢◌, ◌<◌, ℕ, IsSome};
ghost use Rattle.chip_sheet.specs.CommonBlock.{common_place};
ghost use Rattle.common_regs.specs.Places.{is_stored, kept_of, kind_of, reset_value, after_write, read_at};

/// MR, the mode register.
const MR: u16 = 0x00;

/// SIR, the socket interrupt register.
const SIR: u16 = 0x17;

/// PHYCFGR, the configuration of the PHY.
const PHYCFGR: u16 = 0x2E;

/// How many places the block has, the reserved ones in between included.
const PLACES: u16 = 58;

/// What each place reads after a reset.
const RESET: [u8; 58] = [
    0, 0, 0, 0, 0, 0, 0, 0, 0, 0, 0, 0, 0, 0, 0, 0, 0, 0, 0, 0, 0, 0, 0, 0, 0, 0x07, 0xD0, 0x08,
    0x28, 0, 0, 0, 0, 0, 0, 0, 0, 0, 0xFF, 0xFF, 0, 0, 0, 0, 0, 0, 0xBF, 0, 0, 0, 0, 0, 0, 0, 0, 0,
    0, 0x04,
];

/// What a write was.
#[derive(Clone, Copy, Debug, PartialEq, Eq)]
pub enum Wrote {
    /// The place keeps of the byte what it keeps, or nothing.
    Plain,
    /// MR with bit 7: every register has its reset value.
    Reset,
    /// MR with bit 7 clear and bit 3 set, which turns PPPoE on: nothing has changed.
    Pppoe,
}

/// The bytes of the common register block, each at its address.
#[derive(Clone, Copy, Debug, PartialEq, Eq)]
pub struct CommonRegs {
    bytes: [u8; 58],
}

/// Whether the place keeps a written byte as it is.
fn is_stored(addr: u16) -> bool
    ensures { result ≡ is_stored addr }
{
    matches!(addr, 0..=0x14 | 0x16 | 0x18..=0x27)
}

/// What a place keeps of a written byte; `None` where a write has no effect.
fn kept_of(addr: u16, v: u8) -> Option<u8>
    ensures kept { result ≡ kept_of (common_place addr).rule v }
    ensures place { IsSome result → addr < 58 }
{
    if addr == PHYCFGR {
        Some(v / 8 * 8 + 7)
    } else if is_stored(addr) {
        Some(v)
    } else {
        None
    }
}

/// What a write of a byte to an address is.
fn kind_of(addr: u16, v: u8) -> Wrote
    ensures { result ≡ kind_of addr v }
{
    if addr != MR {
        Wrote::Plain
    } else if v >= 128 {
        Wrote::Reset
    } else if v / 8 % 2 == 1 {
        Wrote::Pppoe
    } else {
        Wrote::Plain
    }
}

impl CommonRegs {
    ghost use Rattle.common_regs.specs.Holding.{Reads};

    /// The registers after a reset.
    pub fn new() -> Self
        ensures { Reads result reset_value }
    {
        CommonRegs { bytes: RESET }
    }

    /// What an address reads, where SIR shows `interrupts`. Past the last register it is 00.
    #[inline]
    pub fn read(&self, addr: u16, interrupts: u8) -> u8
        ensures { (f : ℕ → ℕ) → Reads self.now f → result ≡ read_at f interrupts addr }
    {
        if addr == SIR {
            interrupts
        } else if addr < PLACES {
            self.bytes[addr as usize]
        } else {
            0
        }
    }

    /// Writes a byte, and answers what the write was: a reset, PPPoE, which changes nothing, or any other.
    #[inline]
    pub fn write(&mut self, addr: u16, v: u8) -> Wrote
        ensures wrote { result ≡ kind_of addr v }
        ensures stands { result ≢ Wrote.Pppoe → (f : ℕ → ℕ) → Reads self.old f → Reads self.new (after_write addr v f) }
        ensures pppoe { result ≡ Wrote.Pppoe → self.new ≡ self.old }
    {
        let what = kind_of(addr, v);
        match what {
            Wrote::Reset => *self = CommonRegs::new(),
            Wrote::Pppoe => {}
            Wrote::Plain => {
                if let Some(kept) = kept_of(addr, v) {
                    self.bytes[addr as usize] = kept;
                }
            }
        }
        what
    }
}
