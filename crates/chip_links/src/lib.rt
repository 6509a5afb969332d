//! The link side of the chip: which link call is due, which events fit, what is offered to a link and lent to it, and what its
//! events make of the parts of the chip.
#![tactic(auto)]

pub mod bytes;
pub mod calls;
pub mod events;
pub mod laws;
mod notes;
