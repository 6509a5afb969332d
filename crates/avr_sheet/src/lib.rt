//! What the crates of the microcontroller share: the names of its registers, their bits and the vectors as the ATmega328P's
//! datasheet has them (`specs/`, for clauses; code has its own numbers, so that a wrong one is refused), single bits of a
//! byte, and why firmware and devices stop the board.
#![tactic(auto)]

pub mod bits;
pub mod laws;
pub mod stop;

pub use crate::bits::{is_set, weighed, with_bit};
pub use crate::stop::{AvrStop, DeviceStop};
