//! Intel HEX files of a flash image of the ATmega328P, both ways. The image itself is the crate `flash`.
#![tactic(auto)]

mod digits;
mod fault;
mod record;
mod rows;
mod text;

pub use fault::{HexError, HexFault, HexKind};
pub use flash::Image;
pub use rows::store;
pub use std::alloc::AllocError as NoMemory;
pub use text::load;
