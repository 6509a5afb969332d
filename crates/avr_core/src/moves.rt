//! Moves between registers, data memory, flash and I/O.
ghost use Rattle.std.specs.Prelude.{◌≡◌, ◌<◌};

use crate::bus::DataBus;
use crate::cpu::{Core, Z, above};
use crate::went::Went;
use flash::Image;

impl Core {
    ghost use Rattle.avr_core.specs.Ask.{Plays};
    ghost use Rattle.avr_core.specs.MoveRows.{load_row, store_row, raised, flash_byte, moved_pair, lpm_then_rise_row};

    /// Loads Rd from a data address.
    pub(crate) fn load_into<D: DataBus>(
        &mut self,
        cycles: u8,
        words: u16,
        d: u8,
        at: u16,
        bus: &mut D,
    ) -> Went
        requires { d < 32 }
        ensures { Plays D.did bus.old (load_row cycles words d at self.old) (record { went = result; core = self.new }) bus.new }
    {
        match self.load(at, bus) {
            Err(went) => went,
            Ok(v) => {
                self.set(d, v);
                self.on(cycles, words)
            }
        }
    }

    /// Stores Rr at a data address.
    pub(crate) fn store_from<D: DataBus>(
        &mut self,
        cycles: u8,
        words: u16,
        r: u8,
        at: u16,
        bus: &mut D,
    ) -> Went
        requires { r < 32 }
        ensures { Plays D.did bus.old (store_row cycles words r at self.old) (record { went = result; core = self.new }) bus.new }
    {
        match self.store(at, self.reg(r), bus) {
            Err(went) => went,
            Ok(()) => self.on(cycles, words),
        }
    }

    /// The pointer one place up.
    pub(crate) fn raise(&mut self, p: u8)
        requires { p < 31 }
        ensures { self.new ≡ raised p self.old }
    {
        self.set_pair(p, above(self.pair(p), 1));
    }

    /// The flash byte at Z.
    pub(crate) fn flash_byte(&self, flash: &Image) -> u8
        ensures { result ≡ flash_byte flash.now self.now }
    {
        flash.byte(self.pair(Z) % 32768)
    }

    /// MOVW.
    pub(crate) fn move_pair(&mut self, d: u8, v: u16) -> Went
        requires { d < 31 }
        ensures { record { went = result; core = self.new } ≡ moved_pair d v self.old }
    {
        self.set_pair(d, v);
        self.on(1, 1)
    }

    /// LPM Rd, Z+.
    pub(crate) fn load_flash_and_rise(&mut self, flash: &Image, d: u8) -> Went
        requires { d < 32 }
        ensures { record { went = result; core = self.new } ≡ lpm_then_rise_row flash.now d self.old }
    {
        let v = self.flash_byte(flash);
        self.set(d, v);
        self.raise(Z);
        self.on(3, 1)
    }
}
