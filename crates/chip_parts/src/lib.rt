//! The chip without its frames: the common registers, the registers and the life of each of the eight sockets, the buffers, and
//! SIR.
//!
//! [`parts::Parts`] takes accesses and link events, and answers what the datasheet says for them after all that happened so far.
#![tactic(auto)]

mod command_bytes;
mod common;
pub mod laws;
pub mod parts;
mod sending;
mod sizes;
mod writing;
