//! The ports B, C and D of an ATmega328P with their pins, the external interrupts INT0 and INT1 and the
//! pin-change interrupts PCINT0 to PCINT2.
//!
//! [`Ports`] holds the registers, takes the level of the chip's interrupt line, and says which interrupt is
//! pending. It takes no memory and never stops the part.
//! (ATmega328P datasheet, "I/O-Ports" and "External Interrupts".)
#![tactic(auto)]

mod external;
pub mod laws;
mod port;
mod ports;
mod register;

pub use ports::Ports;
