//! The EEPROM of an ATmega328P: 1,024 bytes, read and written by way of EECR, EEDR and EEAR.
//!
//! [`Eeprom`] holds the cells and the registers, keeps the write that runs by the cycle count at which it began, and says
//! whether EE READY is pending. Only [`Eeprom::new`] takes memory.
//! (ATmega328P datasheet, "EEPROM Data Memory" and "Register Description" of "AVR Memories".)
#![tactic(auto)]

mod cells;
mod control;
mod eeprom;
pub mod laws;
mod writing;

pub use eeprom::Eeprom;
