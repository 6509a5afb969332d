//! The instructions of the ATmega328P's core, as the AVR Instruction Set Manual lists them: the types,
//! the decoder, and how many words an instruction takes.
#![tactic(auto)]

pub mod decoder;
pub mod fault;
mod fields;
pub mod instr;
pub mod laws;

pub use crate::decoder::{decode, two_words};
pub use crate::fault::DecodeFault;
pub use crate::instr::{Bits, Instr, Jumps, Logic, Moves, Pointer, Products, Sums};
pub use avr_sheet::DeviceStop;
