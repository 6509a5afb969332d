//! The whole of a write to Sn_CR.
ghost use Rattle.std.specs.Prelude.{◌≡◌, ◌<◌, ◌^◌, slice_index_or, IfOk, IfErr};
ghost use Rattle.chip_sheet.specs.declared.event.Entry.TheVariants.{Bus};
ghost use Rattle.chip_sheet.specs.Names.{sn_cr};
ghost use Rattle.chip_sheet.specs.Blocks.{registers_of};
ghost use Rattle.chip_sheet.specs.Life.{cause};
ghost use Rattle.chip_sheet.specs.Stops.{stop};
ghost use Rattle.sock_cmd.specs.declared.life.Life.{Life};
ghost use Rattle.sock_cmd.specs.Lives.{life_of};

use crate::parts::Parts;
use crate::sending::{RECV, SEND};
use chip_sheet::stop::ChipStop;

impl Parts {
    ghost use Rattle.chip_parts.specs.Writing.{Passes, AtLegalByte, RefusesLegal};
    ghost use Rattle.chip_parts.specs.Passing.{passed};

    /// Takes a byte written to Sn_CR, of any value. Answers how many bytes were passed to SEND, at most 16,384; 0 of any other
    /// command.
    ///
    /// # Errors
    ///
    /// The stop of the command exactly where it has one; nothing has then changed.
    pub(crate) fn write_command(&mut self, sn: u8, v: u8) -> Result<u32, ChipStop>
        requires sn { sn < 8 }
        requires few { (other : Life) → (life_of (slice_index_or self.old.lives sn other)).lives < 2 ^ 60 }
        ensures ok { IfOk result (λ k. AtLegalByte self.old (registers_of sn) sn_cr v (λ starts past e a.
            Passes sn k (cause past sn (Bus e a)) self.new starts past e a)) }
        ensures err { IfErr result (λ s. (self.new ≡ self.old) × RefusesLegal self.old (registers_of sn) sn_cr v s) }
    {
        if v == SEND {
            return self.send(sn);
        }
        if v == RECV {
            return match self.recv(sn) {
                Err(stop) => Err(stop),
                Ok(()) => Ok(0),
            };
        }
        match self.command(sn, v) {
            Err(stop) => Err(stop),
            Ok(()) => Ok(0),
        }
    }
}
