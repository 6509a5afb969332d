//! All of the data space that the core does not hold itself: memory, devices, who owns which register, and the bus between the
//! microcontroller and the chip.
#![tactic(auto)]

mod bus;
mod core_bus;
mod devices;
mod owner;
mod stored;

pub use bus::{BusIsOver, BusPeer};
pub use core_bus::{run_entry, run_instruction};
pub use devices::Devices;
