//! The run of the microcontroller for loops: a peer that tells what it was asked and answered, one step of a run over it, or many
//! at once, and what a loop over them has come to.
#![tactic(auto)]

pub mod laws;
mod peer;
mod run;
mod stretch;
mod turn;

pub use avr_mcu::{Mcu, McuWent, Run, RunEnd};
pub use peer::ToldPeer;
pub use run::run_told;
pub use stretch::{Stretch, take_stretch};
pub use turn::{Turn, take_turn};
