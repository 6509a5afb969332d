//! Worked rows of the chip's definitions: what a script prints from power-on, computed by the check.
//!
//! Each line of a row stands beside the line that it prints, and both are as docs/FORMATS.md has them: pasted into a file, the
//! lines run through any tool that reads scripts. The crate stands above the definitions, so that no other needs to be proved
//! anew where a row is added; nothing stands on it.
#![tactic(auto)]

pub mod common;
pub mod datagrams;
pub mod echo;
pub mod interrupts;
pub mod life;
pub mod links;
pub mod receiving;
pub mod registers;
pub mod sending;
pub mod sizes;
pub mod stops;
