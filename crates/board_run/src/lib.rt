//! Live runs: the firmware on the board in the caller's thread, and its links in a thread of their own, which take turns at the
//! chip.
//!
//! [`live::live`] makes the run, and `specs/Lives` says what it leaves: one history, on whose answers the firmware ran.
//! The firmware's side is public for the rows above alone: where no thread can be started, `run_alone` serves the links too.
#![tactic(auto)]

mod ending;
pub mod firmware;
pub mod live;
pub mod threads;
pub mod wire;
