//! SEND and RECV, the commands that need the buffers.
ghost use Rattle.std.specs.Prelude.{◌≡◌, ◌≢◌, ◌<◌, ◌^◌, ◌&&◌, nat_lt, slice_index_or, ℕ, Bool, IfOk, IfErr, OnOk, None, ◌∷◌, if◌then◌else◌};
ghost use Rattle.board_bus.specs.declared.event.BusEvent.{BusEvent};
ghost use Rattle.board_bus.specs.declared.event.BusAnswer.{BusAnswer};
ghost use Rattle.chip_sheet.specs.declared.event.Entry.TheVariants.{Bus};
ghost use Rattle.chip_sheet.specs.declared.phase.Access.TheVariants.{Write};
ghost use Rattle.chip_sheet.specs.declared.socket.Status.{Status};
ghost use Rattle.chip_sheet.specs.declared.socket.Cause.TheVariants as because;
ghost use Rattle.chip_sheet.specs.Past.{Past};
ghost use Rattle.chip_sheet.specs.Frames.{access};
ghost use Rattle.chip_sheet.specs.Names.{sn_cr, send_command, recv_command};
ghost use Rattle.chip_sheet.specs.Blocks.{registers_of};
ghost use Rattle.chip_sheet.specs.Life as sheet;
ghost use Rattle.chip_sheet.specs.Streams.{Starts};
ghost use Rattle.chip_sheet.specs.Windows.{flight};
ghost use Rattle.chip_sheet.specs.Stops.{stop};
ghost use Rattle.sock_cmd.specs.declared.life.Life.{Life};
ghost use Rattle.sock_cmd.specs.Lives.{life_of};
ghost use Rattle.sock_cmd.specs.LifeStops.{life_stop};

use crate::parts::{COMMAND, Parts};
use chip_sheet::stop::ChipStop;
use sock_cmd::command::CmdAt;

/// The commands, written to Sn_CR (datasheet, 4.2).
pub(crate) const SEND: u8 = 0x20;

pub(crate) const RECV: u8 = 0x40;

/// SENDOK and RECV, bits of Sn_IR.
const SEND_OK: u8 = 0x10;

const RECEIVED: u8 = 0x04;

/// A bit where it is raised, and none elsewhere.
fn bit_where(raised: bool, bit: u8) -> u8
    ensures { result ≡ (if raised then bit else 0) }
{
    if raised { bit } else { 0 }
}

impl Parts {
    ghost use Rattle.chip_parts.specs.Holding.{Holds, Found};
    ghost use Rattle.chip_parts.specs.Writing.{Passes, AtLegalByte, Goes, RefusesLegal, StepsRegisters, HasLife};
    ghost use Rattle.chip_parts.specs.Passing.{passed};

    /// Takes a command that has no stop but those of the buffers, which have taken it before: in the life and in the registers of
    /// a socket. Raises these bits of Sn_IR.
    fn take(&mut self, sn: u8, v: u8, at: CmdAt, bits: u8)
        requires sn { sn < 8 }
        requires no_stop { (n mode : ℕ) (status : Status) (valid : Bool) → life_stop n status mode valid v ≡ None }
        requires few { (other : Life) → (life_of (slice_index_or self.old.lives sn other)).lives < 2 ^ 60 }
        ensures life { (past : Past) (e : BusEvent) (a : BusAnswer) → HasLife self.old sn past → Found past sn at → access past e ≡ Write (registers_of sn) sn_cr v
            → HasLife self.new sn (Bus e a ∷ past) }
        ensures others { (m : ℕ) (other : Life) → m ≢ sn → slice_index_or self.new.lives m other ≡ slice_index_or self.old.lives m other }
        ensures shows { StepsRegisters self.old sn sn_cr v bits self.new }
        ensures same { self.new ≡ record self.old { lives = self.new.lives; registers = self.new.registers; sir = self.new.sir } }
    {
        let _came_to = self.lives[sn as usize].command(v, at);
        self.step_registers(sn, COMMAND, v, bits);
    }

    /// Whether a SEND would find a datagram in flight.
    fn is_busy(&self, sn: u8) -> bool
        requires { sn < 8 }
        ensures { (starts : Starts) (past : Past) → Holds starts self.now past → result ≡ (sheet.is_udp (sheet.status past sn) && nat_lt 0 (flight starts past sn)) }
    {
        self.lives[sn as usize].is_udp() && 0 < self.rings.flight(sn)
    }

    /// Takes SEND: the bytes from Sn_TX_RD to Sn_TX_WR are in flight, and where there are none, SENDOK rises at once. A status
    /// that does not take SEND ignores it. Answers how many bytes were passed, at most 16,384.
    ///
    /// # Errors
    ///
    /// `SendBusy` or `SendTooLong` exactly where the command has that stop; nothing has then changed.
    pub(crate) fn send(&mut self, sn: u8) -> Result<u32, ChipStop>
        requires sn { sn < 8 }
        requires few { (other : Life) → (life_of (slice_index_or self.old.lives sn other)).lives < 2 ^ 60 }
        ensures ok { IfOk result (λ k. AtLegalByte self.old (registers_of sn) sn_cr send_command (Passes sn k because.Send self.new)) }
        ensures err { IfErr result (λ s. (self.new ≡ self.old) × RefusesLegal self.old (registers_of sn) sn_cr send_command s) }
    {
        let at = self.command_at(sn);
        let takes = self.lives[sn as usize].sends();
        if !takes {
            self.take(sn, SEND, at, 0);
            return Ok(0);
        }
        let busy = self.is_busy(sn);
        if busy {
            return Err(ChipStop::SendBusy { sn });
        }
        match self.rings.commit(sn) {
            Err(stop) => Err(stop),
            Ok(count) => {
                let bits = bit_where(count == 0, SEND_OK);
                self.take(sn, SEND, at, bits);
                Ok(count)
            }
        }
    }

    /// Takes RECV: the bytes up to Sn_RX_RD are released, and where bytes remain, RECV rises again. A status that is not open
    /// ignores it.
    ///
    /// # Errors
    ///
    /// `RecvPastEnd` exactly where the command has that stop; nothing has then changed.
    pub(crate) fn recv(&mut self, sn: u8) -> Result<(), ChipStop>
        requires sn { sn < 8 }
        requires few { (other : Life) → (life_of (slice_index_or self.old.lives sn other)).lives < 2 ^ 60 }
        ensures ok { OnOk result (AtLegalByte self.old (registers_of sn) sn_cr recv_command (Goes self.new)) }
        ensures err { IfErr result (λ s. (self.new ≡ self.old) × RefusesLegal self.old (registers_of sn) sn_cr recv_command s) }
    {
        let at = self.command_at(sn);
        let open = self.lives[sn as usize].is_open();
        if !open {
            self.take(sn, RECV, at, 0);
            return Ok(());
        }
        match self.rings.release(sn) {
            Err(stop) => Err(stop),
            Ok(left) => {
                let bits = bit_where(0 < left, RECEIVED);
                self.take(sn, RECV, at, bits);
                Ok(())
            }
        }
    }
}
