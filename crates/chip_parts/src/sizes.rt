//! Writes to the register block of a socket that are no command: plain ones, and those that change the size of a buffer.
ghost use Rattle.std.specs.List.{list_any};
ghost use Rattle.std.specs.Prelude.{◌≡◌, ◌≢◌, ◌<◌, ◌∷◌, not, slice_set, ℕ, IfErr, OnOk, true, if◌then◌else◌};
ghost use Rattle.board_bus.specs.declared.event.BusEvent.{BusEvent};
ghost use Rattle.chip_sheet.specs.declared.event.Entry.TheVariants.{Bus};
ghost use Rattle.chip_sheet.specs.declared.phase.Access.TheVariants.{Write};
ghost use Rattle.chip_sheet.specs.Past.{Past};
ghost use Rattle.chip_sheet.specs.Frames.{access};
ghost use Rattle.chip_sheet.specs.Blocks.{registers_of};
ghost use Rattle.chip_sheet.specs.Life.{is_closed};
ghost use Rattle.chip_sheet.specs.Names.{sn_cr};
ghost use Rattle.chip_sheet.specs.Streams.{Starts};
ghost use Rattle.ring_mem.specs.Buffers.{flight_of, unread_of};
ghost use Rattle.sock_cmd.specs.declared.life.Life.{Life};
ghost use Rattle.sock_cmd.specs.Lives.{life_of};

use crate::parts::Parts;
use chip_sheet::stop::ChipStop;
use sock_cmd::life::Life;

/// Sn_RXBUF_SIZE.
const RX_SIZE: u16 = 0x1E;

/// Sn_TXBUF_SIZE.
const TX_SIZE: u16 = 0x1F;

/// Eight sizes in kilobytes, of which one is another where it is written.
fn sizes_with(mut sizes: [u8; 8], sn: u8, written: bool, v: u8) -> [u8; 8]
    requires { sn < 8 }
    ensures { result ≡ (if written then slice_set sizes sn v else sizes) }
{
    if written {
        sizes[sn as usize] = v;
    }
    sizes
}

/// Whether some socket is not closed.
fn any_open(lives: &[Life; 8]) -> bool
    ensures { result ≡ list_any (λ (life : Life). not (is_closed (life_of life).status)) lives.now }
{
    lives.iter().any(|life| !life.is_closed())
}

impl Parts {
    ghost use Rattle.chip_parts.specs.Holding.{Holds, ClosedIsEmpty};
    ghost use Rattle.chip_parts.specs.Writing.{AtByte, Goes, Refuses, changes_a_size};

    /// Whether a byte that is written to the register block of a socket changes a size.
    fn resizes(&self, sn: u8, addr: u16, v: u8) -> bool
        requires { sn < 8 }
        ensures { (starts : Starts) (past : Past) (e : BusEvent) → Holds starts self.now past → access past e ≡ Write (registers_of sn) addr v → result ≡ changes_a_size past e }
    {
        let registers = &self.registers[sn as usize];
        if addr == RX_SIZE {
            v != registers.rx_kilobytes()
        } else if addr == TX_SIZE {
            v != registers.tx_kilobytes()
        } else {
            false
        }
    }

    /// Changes a size, while nothing is in flight or unread.
    fn resize(&mut self, sn: u8, addr: u16, v: u8)
        requires sn { sn < 8 }
        requires flight { (n : ℕ) → n < 8 → flight_of self.old.rings n ≡ 0 }
        requires unread { (n : ℕ) → n < 8 → unread_of self.old.rings n ≡ 0 }
        ensures { AtByte self.old (registers_of sn) addr v (λ starts past e a. changes_a_size past e ≡ true → Holds starts self.new (Bus e a ∷ past)) }
    {
        let (tx, rx) = self.rings.sizes();
        let tx = sizes_with(tx, sn, addr == TX_SIZE, v);
        let rx = sizes_with(rx, sn, addr == RX_SIZE, v);
        self.rings.set_sizes(tx, rx);
        self.registers[sn as usize].write(addr, v);
    }

    /// Writes a byte of the register block of a socket that is no command.
    ///
    /// # Errors
    ///
    /// `SizeWhileOpen` exactly where the byte changes a size while any socket is not closed; nothing has then changed.
    pub(crate) fn write_register(&mut self, sn: u8, addr: u16, v: u8) -> Result<(), ChipStop>
        requires sn { sn < 8 }
        requires no_command { addr ≢ sn_cr }
        requires windows { ClosedIsEmpty self.old }
        ensures ok { OnOk result (AtByte self.old (registers_of sn) addr v (Goes self.new)) }
        ensures err { IfErr result (λ s. (self.new ≡ self.old) × Refuses self.old (registers_of sn) addr v s) }
    {
        if self.resizes(sn, addr, v) {
            if any_open(&self.lives) {
                Err(ChipStop::SizeWhileOpen { sn })
            } else {
                self.resize(sn, addr, v);
                Ok(())
            }
        } else {
            self.write_plain(sn, addr, v);
            Ok(())
        }
    }
}
