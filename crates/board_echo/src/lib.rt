//! What generated runs are made of: the firmware of an echo server, a peer that it serves, and firmware that gives the chip any
//! events of the bus.
//!
//! The listing of the echo server stands in `specs/Echo`, as assembler text; `specs/Assembly` says what words such a text stands
//! for.
#![tactic(auto)]

mod frames;
mod generator;
mod laws;
mod words;

pub use frames::{FramesError, frames_image};
pub use generator::echo_peer;
pub use laws::{echo_decodes, frames_decode};
pub use words::echo_image;
