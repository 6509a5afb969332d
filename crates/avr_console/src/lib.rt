//! The bytes that the USART receiver of an ATmega328P gets from a console.
//!
//! [`Console`] holds the bytes that are still to come, the frame on the way by the cycle count at which it began, and the bytes
//! that wait to be read, two at most. It takes no memory. RXCIE and the registers are the USART's. (ATmega328P datasheet, "Data
//! Reception - The USART Receiver".)
#![tactic(auto)]

mod arrival;
mod console;
pub mod laws;
mod waiting;

pub use console::Console;
