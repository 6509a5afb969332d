//! The chip: frames on its bus, its registers, the life and the buffers of its sockets, and what its links do below them.
//!
//! At each moment it stands for what happened ([`Chip`], `Stands`); [`laws`] says what follows from that alone.
#![tactic(auto)]

mod chip;
mod counts;
mod exchange;
pub mod laws;
mod tally;

pub use chip::Chip;
pub use tally::Tally;
