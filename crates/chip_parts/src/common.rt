//! Writes to the common register block: plain ones, the software reset, and PPPoE, which stops.
ghost use Rattle.std.specs.Prelude.{◌≡◌, ◌<◌, slice_index_or, replicate, ℕ, IfErr, OnOk};
ghost use Rattle.chip_sheet.specs.declared.event.Addr.{Addr};
ghost use Rattle.chip_sheet.specs.declared.socket.Cause.TheVariants as because;
ghost use Rattle.chip_sheet.specs.Sending as sending;
ghost use Rattle.chip_sheet.specs.Receiving as receiving;
ghost use Rattle.ring_mem.specs.Buffers.{TxHolds, RxHolds, tx_kilobytes, rx_kilobytes};
ghost use Rattle.sock_cmd.specs.declared.life.Life.{Life};
ghost use Rattle.sock_cmd.specs.Lives.{Happened};
ghost use Rattle.sock_regs.specs.declared.registers.SockRegs.{SockRegs};
ghost use Rattle.sock_regs.specs.Holding.{Reads};
ghost use Rattle.sock_regs.specs.Places.{reset_value};

use crate::parts::Parts;
use chip_sheet::stop::ChipStop;
use common_regs::registers::Wrote;
use sock_cmd::life::Life;
use sock_regs::registers::SockRegs;

/// Resets the life of each socket.
fn reset_lives(lives: &mut [Life; 8])
    ensures { (n : ℕ) (other : Life) (to : Addr) (port : ℕ) → n < 8 → Happened (slice_index_or lives.old n other) because.Reset to port (slice_index_or lives.new n other) }
{
    for n in 0..8 {
        lives[n].reset();
    }
}

impl Parts {
    ghost use Rattle.chip_parts.specs.Writing.{AtByte, Goes, Refuses};

    /// Makes of all but the common registers what a reset makes of them: the registers and the buffers are as after power-on, and
    /// each socket is closed.
    fn reset(&mut self)
        ensures registers { (n : ℕ) (other : SockRegs) → n < 8 → Reads (slice_index_or self.new.registers n other) reset_value }
        ensures lives { (n : ℕ) (other : Life) (to : Addr) (port : ℕ) → n < 8 → Happened (slice_index_or self.old.lives n other) because.Reset to port (slice_index_or self.new.lives n other) }
        ensures tx { (n : ℕ) → n < 8 → TxHolds self.new.rings n (sending.fresh 2048) }
        ensures rx { (n : ℕ) → n < 8 → RxHolds self.new.rings n (receiving.fresh 2048) }
        ensures sizes { (tx_kilobytes self.new.rings ≡ replicate 8 2) × (rx_kilobytes self.new.rings ≡ replicate 8 2) }
        ensures same { self.new ≡ record self.old { registers = self.new.registers; lives = self.new.lives; rings = self.new.rings; sir = 0 } }
    {
        self.registers = [SockRegs::new(); 8];
        reset_lives(&mut self.lives);
        self.rings.clear();
        self.sir = 0;
    }

    /// Writes a byte to the common register block.
    ///
    /// # Errors
    ///
    /// `Pppoe` exactly where MR is written with bit 7 clear and bit 3 set; nothing has then changed.
    pub(crate) fn write_common(&mut self, addr: u16, v: u8) -> Result<(), ChipStop>
        ensures ok { OnOk result (AtByte self.old 0 addr v (Goes self.new)) }
        ensures err { IfErr result (λ s. (self.new ≡ self.old) × Refuses self.old 0 addr v s) }
    {
        match self.common.write(addr, v) {
            Wrote::Plain => Ok(()),
            Wrote::Pppoe => Err(ChipStop::Pppoe),
            Wrote::Reset => {
                self.reset();
                Ok(())
            }
        }
    }
}
