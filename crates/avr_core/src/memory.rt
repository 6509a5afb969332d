//! The bytes of the data space.
ghost use Rattle.std.specs.Prelude.{◌≡◌, ◌<◌, slice_index, slice_set};
ghost use Rattle.avr_core.specs.Memory.{zeros};

use crate::bus::{DataBus, DataEnd};
use crate::stack::is_sram;
use std::marker::Model;

/// Bytes of the data space: 0000 to 08FF.
const SIZE: u16 = 0x0900;

/// A byte for each data address. As a data bus it has SRAM alone, 0100 to 08FF, and says of any other place that the bus is over.
#[derive(Drop)]
pub struct Memory {
    bytes: [u8; 2304],
}

impl Model for Memory {
    ghost use Rattle.std.specs.Prelude.{List, ℕ};

    ghost Value = { List ℕ };

    ghost view = { λ memory. memory.bytes };
}

impl Memory {
    /// All bytes are 00.
    #[tactic(auto, unfolding(crate::specs::Memory::zeros))]
    pub fn new() -> Self
        ensures { result ≡ zeros 2304 }
    {
        Memory {
            bytes: [0; SIZE as usize],
        }
    }

    /// The byte at a data address; 00 past the last one.
    pub fn get(&self, addr: u16) -> u8
        ensures { result ≡ slice_index self.now addr }
    {
        if addr < SIZE {
            self.bytes[addr as usize]
        } else {
            0
        }
    }

    /// Changes the byte at a data address, and no other; nothing past the last one.
    pub fn set(&mut self, addr: u16, v: u8)
        ensures { self.new ≡ slice_set self.old addr v }
    {
        if addr < SIZE {
            self.bytes[addr as usize] = v;
        }
    }
}

impl DataBus for Memory {
    ghost use Rattle.avr_core.specs.Memory.{Held};

    ghost did = { Held };

    #[inline(always)]
    fn read(&mut self, addr: u16) -> Result<u8, DataEnd> {
        if is_sram(addr) {
            Ok(self.bytes[addr as usize])
        } else {
            Err(DataEnd::BusOver)
        }
    }

    #[inline(always)]
    fn write(&mut self, addr: u16, v: u8) -> Result<(), DataEnd> {
        if is_sram(addr) {
            self.bytes[addr as usize] = v;
            Ok(())
        } else {
            Err(DataEnd::BusOver)
        }
    }

    #[inline(always)]
    fn write_bit(&mut self, _io: u8, _bit: u8, _set: bool) -> Result<(), DataEnd> {
        Err(DataEnd::BusOver)
    }
}
