//! The core of the ATmega328P: one instruction or one interrupt entry at a time, over any data bus, from flash that is decoded
//! once.
//!
//! What a step means stands in `specs/Meaning.antt`, a row of the Instruction Set Manual a line: the calls that it makes
//! on the bus, in order, and the core after it. A layer above lends its devices as a `DataBus` and reads the contract of
//! `Core::step` as a play of that meaning over its own bus.
#![tactic(auto)]

mod access;
mod bits;
mod bus;
mod code;
mod cpu;
mod effects;
mod engine;
mod jumps;
mod memory;
mod moves;
mod op;
mod pointers;
mod stack;
mod step;
mod went;

pub use avr_sheet::AvrStop;
pub use bus::{DataBus, DataEnd};
pub use code::Code;
pub use cpu::Core;
pub use memory::Memory;
pub use went::Went;
