//! The events of the bus between the microcontroller and the chip, which both sides name alike.
#![tactic(auto)]

pub mod event;

pub use event::{BusAnswer, BusEvent};
