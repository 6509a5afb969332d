//! The loop of the thread that serves the links: sweeps in turns of its own pass, and a wait for readiness after each.
//!
//! [`ready::run_ready`] goes on until its pass has ended: the firmware's pass ended the turns, a step was refused, or a wait
//! failed.
#![tactic(auto)]

pub mod ready;
