//! What the program prints of what happens on the board: the chip's answers, the lines of its history, and why the chip or the
//! firmware stops.
#![tactic(auto)]

pub mod answers;
pub mod entries;
pub mod firmware;
pub mod stops;
