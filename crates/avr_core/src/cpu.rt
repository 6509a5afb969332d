//! The registers of a core.
ghost use Rattle.std.specs.Prelude.{◌≡◌, ℕ, ◌+◌, ◌-◌, ◌*◌, ◌/◌, ◌%◌, ◌<◌, slice_index, slice_set};

use crate::went::Went;

/// The lower registers of the pointers (Instruction Set Manual, "Registers and Operands").
pub(crate) const X: u8 = 26;

pub(crate) const Y: u8 = 28;

pub(crate) const Z: u8 = 30;

/// A core of the ATmega328P: 32 registers, PC, SP and SREG.
#[derive(Clone, Copy, PartialEq, Eq)]
pub struct Core {
    pub(crate) regs: [u8; 32],
    pub(crate) pc: u16,
    pub(crate) sp: u16,
    pub(crate) sreg: u8,
}

impl Core {
    ghost use Rattle.avr_core.specs.Registers.{reset, reg, with_reg, pair, with_pair, in_flash, ahead, relative, above, below};
    ghost use Rattle.avr_core.specs.Steps.{on};

    /// The core after reset: PC 0, SP 08FF, SREG and all registers 00.
    pub fn new() -> Self
        ensures { result ≡ reset }
    {
        Core {
            regs: [0; 32],
            pc: 0,
            sp: 0x08FF,
            sreg: 0,
        }
    }

    /// The word address of the next instruction.
    pub fn pc(&self) -> u16
        ensures { result ≡ self.now.pc }
    {
        self.pc
    }

    /// Register `r`, 0 to 31.
    pub fn reg(&self, r: u8) -> u8
        requires { r < 32 }
        ensures { result ≡ reg self.now r }
    {
        self.regs[r as usize]
    }

    /// The status register: I T H S V N Z C, from bit 7 down.
    pub fn sreg(&self) -> u8
        ensures { result ≡ self.now.sreg }
    {
        self.sreg
    }

    /// The stack pointer.
    pub fn sp(&self) -> u16
        ensures { result ≡ self.now.sp }
    {
        self.sp
    }

    pub(crate) fn set(&mut self, r: u8, v: u8)
        requires { r < 32 }
        ensures { self.new ≡ with_reg self.old r v }
    {
        self.regs[r as usize] = v;
    }

    /// The pair `r + 1 : r` as a word.
    pub(crate) fn pair(&self, r: u8) -> u16
        requires { r < 31 }
        ensures { result ≡ pair self.now r }
    {
        u16::from(self.reg(r)) + u16::from(self.reg(r + 1)) * 256
    }

    pub(crate) fn set_pair(&mut self, r: u8, v: u16)
        requires { r < 31 }
        ensures { self.new ≡ with_pair self.old r v }
    {
        self.set(r, (v % 256) as u8);
        self.set(r + 1, (v / 256) as u8);
    }

    /// The address so many words further on.
    pub(crate) fn ahead(&self, words: u16) -> u16
        ensures value { result ≡ ahead self.now words }
        ensures small { result < 16384 }
    {
        in_flash(self.pc.wrapping_add(words))
    }

    /// PC + 1 + `k`.
    pub(crate) fn relative(&self, k: i16) -> u16
        ensures { result ≡ relative self.now k }
    {
        in_flash(self.pc.wrapping_add(1).wrapping_add_signed(k))
    }

    /// The instruction ran, and the next one stands so many words further on.
    pub(crate) fn on(&mut self, cycles: u8, words: u16) -> Went
        ensures { record { went = result; core = self.new } ≡ on cycles words self.old }
    {
        self.pc = self.ahead(words);
        Went::Ran(cycles)
    }
}

/// A program address in flash, which has 16,384 words.
pub(crate) fn in_flash(at: u16) -> u16
    ensures { result ≡ at % 16384 }
{
    at % 16384
}

/// The data address so many places above.
pub(crate) fn above(at: u16, n: u16) -> u16
    ensures { result ≡ (at + n) % 65536 }
{
    at.wrapping_add(n)
}

/// The data address so many places below.
pub(crate) fn below(at: u16, n: u16) -> u16
    ensures { result ≡ (at + 65536 - n) % 65536 }
{
    at.wrapping_sub(n)
}
