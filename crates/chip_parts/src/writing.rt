//! A write of a byte, to any block.
ghost use Rattle.std.specs.Prelude.{◌≡◌, ◌≢◌, ◌<◌, ◌^◌, ◌%◌, ◌==◌, ◌&&◌, slice_index_or, ℕ, IfOk, IfErr, OnOk};
ghost use Rattle.chip_sheet.specs.Names.{sn_cr};
ghost use Rattle.chip_sheet.specs.Stops.{stop};
ghost use Rattle.sock_cmd.specs.declared.life.Life.{Life};
ghost use Rattle.sock_cmd.specs.Lives.{life_of};

use crate::parts::{COMMAND, Parts};
use chip_sheet::stop::ChipStop;

/// Whether a byte at an address of the block with these select bits is a command to a socket.
fn is_command(bits: u8, addr: u16) -> bool
    ensures { result ≡ (bits % 4 == 1 && addr == sn_cr) }
{
    bits % 4 == 1 && addr == COMMAND
}

impl Parts {
    ghost use Rattle.chip_parts.specs.Holding.{ClosedIsEmpty};
    ghost use Rattle.chip_parts.specs.Writing.{AfterWrite, AtLegalByte, RefusesLegal, Goes};

    /// Writes a byte that is no command to a socket.
    fn write_byte(&mut self, bits: u8, addr: u16, v: u8) -> Result<(), ChipStop>
        requires bits { bits < 32 }
        requires no_command { bits % 4 ≡ 1 → addr ≢ sn_cr }
        requires windows { ClosedIsEmpty self.old }
        ensures ok { OnOk result (AtLegalByte self.old bits addr v (Goes self.new)) }
        ensures err { IfErr result (λ s. (self.new ≡ self.old) × RefusesLegal self.old bits addr v s) }
    {
        let sn = bits / 4;
        let kind = bits % 4;
        if bits == 0 {
            self.write_common(addr, v)
        } else if kind == 1 {
            self.write_register(sn, addr, v)
        } else if kind == 2 {
            self.write_tx(sn, addr, v)
        } else if kind == 3 {
            Ok(())
        } else {
            Err(ChipStop::ReservedBlock { block: bits })
        }
    }

    /// Writes a byte at an address of the block with these select bits, 0 to 31, and answers how many bytes were passed to SEND,
    /// 0 to 16,384: none by anything but SEND. A byte to an RX buffer has no effect.
    ///
    /// # Errors
    ///
    /// The stop of the write exactly where it has one; nothing has then changed.
    pub fn write(&mut self, bits: u8, addr: u16, v: u8) -> Result<u32, ChipStop>
        requires bits { bits < 32 }
        requires few { (n : ℕ) (other : Life) → n < 8 → (life_of (slice_index_or self.old.lives n other)).lives < 2 ^ 60 }
        requires windows { ClosedIsEmpty self.old }
        ensures ok { IfOk result (λ k. AtLegalByte self.old bits addr v (λ starts past e a. AfterWrite starts past e a bits k self.new)) }
        ensures err { IfErr result (λ s. (self.new ≡ self.old) × RefusesLegal self.old bits addr v s) }
    {
        if is_command(bits, addr) {
            self.write_command(bits / 4, v)
        } else {
            match self.write_byte(bits, addr, v) {
                Ok(()) => Ok(0),
                Err(stop) => Err(stop),
            }
        }
    }
}
