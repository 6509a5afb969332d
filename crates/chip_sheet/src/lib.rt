//! What happens on the chip's pins, as events, and the definitions of what the W5500 answers.
//!
//! The definitions stand in `specs/`: each says, for any list of what happened, what the datasheet says of the next
//! event. Every contract of the chip cites them.
#![tactic(auto)]

pub mod block;
pub mod event;
pub mod phase;
pub mod socket;
pub mod stop;
