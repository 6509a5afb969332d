//! Scripted runs: the firmware on the board, and peers that act by their scripts, on one thread.
//!
//! The schedule stands in `specs/Schedule`: it says what a run comes to as a function of the image, the board's numbers and its
//! scripts.
#![tactic(auto)]

pub mod end;
pub mod laws;
mod nowhere;
pub mod output;
mod peer;
mod play;
pub mod report;
pub mod runs;
pub mod trace;
