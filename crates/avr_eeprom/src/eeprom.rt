//! The EEPROM with its registers.
ghost use Rattle.std.specs.Prelude.{◌≡◌, ◌≤◌, ◌<◌, IfOk};

use crate::cells::Cells;
use crate::control::Control;
use crate::writing::{WRITE_CYCLES, Writing};
use avr_sheet::{DeviceStop, weighed};
use std::alloc::{AllocError, Global};
use std::marker::Model;

/// For how many cycles EEMPE stays set.
const ENABLED_CYCLES: u64 = 4;

/// The data addresses of the registers.
const EECR: u16 = 0x3F;

const EEDR: u16 = 0x40;

const EEARL: u16 = 0x41;

const EEARH: u16 = 0x42;

/// The word address of the vector of EE READY.
const READY_VECTOR: u8 = 0x2C;

/// The EEPROM of an ATmega328P.
///
/// Addresses are data addresses, 003F to 0042: a place of the I/O space stands at its number plus 20 hexadecimal. Reads and
/// writes happen at the cycle count that was passed last, 0 at the start. Nothing but `new` takes memory.
#[derive(Drop)]
pub struct Eeprom {
    cycle: u64,
    ready_enabled: bool,
    mode: u8,
    eedr: u8,
    eear: u16,
    enabled: Option<u64>,
    writing: Option<Writing>,
    cells: Cells,
}

impl Model for Eeprom {
    ghost use Rattle.avr_eeprom.specs.Eeprom.{EepromState, IsWithin};

    ghost Value = { EepromState };

    ghost view = { λ e. record {
      cycle = e.cycle;
      ready_enabled = e.ready_enabled;
      mode = e.mode;
      eedr = e.eedr;
      eear = e.eear;
      enabled = e.enabled;
      writing = e.writing;
      cells = e.cells;
    } };

    ghost invariant = { λ e. IsWithin e.mode e.writing };
}

impl Eeprom {
    ghost use Rattle.avr_eeprom.specs.Eeprom.{StaysUntil, address, begins, bit_control, completed, control_answer, control_done, control_written, eecr_value, is_enabled, is_writing, next_event, passed, pending_vector, read_value, reset_eeprom, write_answer, written};

    /// The EEPROM at the start of a run: every cell FF, all registers 00.
    ///
    /// # Errors
    /// Out of memory.
    pub fn new(alloc: Global) -> Result<Eeprom, AllocError>
        ensures { IfOk result (λ eeprom. eeprom ≡ reset_eeprom) }
    {
        let cells = Cells::erased(alloc)?;
        Ok(Eeprom {
            cycle: 0,
            ready_enabled: false,
            mode: 0,
            eedr: 0,
            eear: 0,
            enabled: None,
            writing: None,
            cells,
        })
    }

    /// Reads the register at a data address, 00 where none of the EEPROM stands.
    pub fn read(&self, addr: u16) -> u8
        ensures { result ≡ read_value self.now addr }
    {
        match addr {
            EECR => self.eecr(),
            EEDR => self.eedr,
            EEARL => (self.eear % 256) as u8,
            EEARH => (self.eear / 256) as u8,
            _ => 0,
        }
    }

    /// Writes a byte to the register at a data address; nothing happens where none of the EEPROM stands.
    ///
    /// # Errors
    /// `Eeprom` exactly where a write of a cell would begin with a mode other than 0. All is then as it was.
    pub fn write(&mut self, addr: u16, v: u8) -> Result<(), DeviceStop>
        ensures answer { result ≡ write_answer self.old addr v }
        ensures state { self.new ≡ written self.old addr v }
    {
        match addr {
            EECR => return self.control(Control::of_byte(v)),
            EEDR => self.eedr = v,
            EEARL => self.eear = self.eear / 256 * 256 + u16::from(v),
            EEARH => self.eear = 256 * u16::from(v) + self.eear % 256,
            _ => {}
        }
        Ok(())
    }

    /// Writes one bit of EECR alone; its other bits count as not written.
    ///
    /// # Errors
    /// `Eeprom` exactly where a write of a cell would begin with a mode other than 0. All is then as it was.
    pub fn write_bit(&mut self, bit: u8, set: bool) -> Result<(), DeviceStop>
        requires { bit < 8 }
        ensures answer { result ≡ control_answer self.old (bit_control self.old bit set) }
        ensures state { self.new ≡ control_written self.old (bit_control self.old bit set) }
    {
        let asked = Control::of_bit(self.mode, self.ready_enabled, bit, set);
        self.control(asked)
    }

    /// The cycles from one count to another go by. A write whose cycles are over is complete: its cell has the byte.
    #[inline]
    pub fn pass(&mut self, from: u64, to: u64)
        requires { from ≤ to }
        ensures { self.new ≡ passed self.old to }
    {
        prove!(from <= to);
        self.cycle = to;
        if let Some(writing) = self.writing {
            if writing.is_over(to) {
                self.writing = None;
                self.cells.set(writing.address, writing.byte);
            }
        }
    }

    /// The next event: the cycle count at which the running write is complete, `u64::MAX` where none runs. Until then
    /// nothing changes but the count of cycles.
    #[inline]
    pub fn next_event(&self) -> u64
        ensures value { result ≡ next_event self.now }
        ensures stays { StaysUntil self.now result }
    {
        match self.writing {
            Some(writing) => writing.began.saturating_add(WRITE_CYCLES),
            None => u64::MAX,
        }
    }

    /// The pending interrupt, by the word address of its vector: EE READY exactly where EERIE is set and no write runs.
    #[inline]
    pub fn pending(&self) -> Option<u8>
        ensures { result ≡ pending_vector self.now }
    {
        if self.ready_enabled && self.writing.is_none() {
            Some(READY_VECTOR)
        } else {
            None
        }
    }

    /// A vector is served: EE READY has no flag, so nothing changes.
    pub fn served(&mut self, vector: u8)
        ensures { self.new ≡ self.old }
    {
        let _vector = vector;
    }

    fn eecr(&self) -> u8
        ensures { result ≡ eecr_value self.now }
    {
        let ready = weighed(self.ready_enabled, 8);
        let enabled = weighed(self.is_enabled(), 4);
        let writing = weighed(self.writing.is_some(), 2);
        16 * self.mode + ready + enabled + writing
    }

    fn is_enabled(&self) -> bool
        ensures { result ≡ is_enabled self.now }
    {
        match self.enabled {
            Some(at) => self.cycle <= at.saturating_add(ENABLED_CYCLES),
            None => false,
        }
    }

    fn begins(&self, control: Control) -> bool
        ensures { result ≡ begins self.now control }
    {
        control.writes && self.is_enabled() && self.writing.is_none()
    }

    /// A write of EECR that asks for this.
    fn control(&mut self, control: Control) -> Result<(), DeviceStop>
        requires { control.mode < 4 }
        ensures answer { result ≡ control_answer self.old control }
        ensures state { self.new ≡ control_written self.old control }
    {
        if self.begins(control) && control.mode != 0 {
            return Err(DeviceStop::Eeprom);
        }
        self.do_control(control);
        Ok(())
    }

    fn do_control(&mut self, control: Control)
        requires { control.mode < 4 }
        ensures { self.new ≡ control_done self.old control }
    {
        let begins = self.begins(control);
        let address = self.eear % 1024;
        self.mode = control.mode;
        self.ready_enabled = control.ready_enabled;
        if control.enables {
            self.enabled = Some(self.cycle);
        }
        if begins {
            self.writing = Some(Writing {
                began: self.cycle,
                address,
                byte: self.eedr,
            });
        } else if control.reads && self.writing.is_none() {
            self.eedr = self.cells.get(address);
        }
    }
}
